//! Which values have a section, and how long it is.

ghost use Rattle.std.specs.Prelude.{◌≡◌, ◌+◌, ◌*◌, ◌-◌, ◌^◌, ◌≤◌, IsTrue, Some, length, min};
ghost use Rattle.std.specs.List.{flat_map, list_all};
ghost use Rattle.scte35_codec.specs.Layout.{width};
ghost use Rattle.scte35_codec.specs.Section.{optional_fields, splice_time, component, target_of, target_fields, bodies_of, body_fields, splice_insert, command_of, command_fields, break_duration, section_of};
ghost use Rattle.scte35_codec.specs.Writing.{splice_time_fits, splice_target_fits, break_duration_fits, insert_body_fits, splice_command_fits, splice_section_length, has_splice_section};
ghost use Rattle.scte35_codec.specs.Inner.Writing.{IsCounted};

use crate::info::{
    BreakDuration, InsertBody, SPLICE_INSERT, SpliceCommand, SpliceInfo, SpliceTarget, SpliceTime,
    TICKS,
};

const MAX_COMPONENTS: usize = 255;

// section_length is at most this in what is written.
const LONGEST: usize = 4093;

// section_length without the command, the descriptors and the stuffing.
const SHORTEST: usize = 17;

// Whether a time is there exactly if the splice is not immediate, and fits its field.
fn splice_time_fits(immediate: bool, time: Option<SpliceTime>) -> bool
    ensures { result ≡ splice_time_fits immediate time }
{
    match time {
        None => immediate,
        Some(SpliceTime { pts: None }) => !immediate,
        Some(SpliceTime { pts: Some(pts) }) => !immediate && pts < TICKS,
    }
}

fn splice_target_fits(immediate: bool, target: &SpliceTarget) -> bool
    ensures { result ≡ splice_target_fits immediate (target_of target.now) }
{
    match target {
        SpliceTarget::Program(time) => splice_time_fits(immediate, *time),
        SpliceTarget::Components(components) => {
            components.len() <= MAX_COMPONENTS && splice_components_fit(immediate, components)
        }
    }
}

fn splice_components_fit(immediate: bool, components: &[(u8, Option<SpliceTime>)]) -> bool
    ensures { result ≡ list_all (λ c. splice_time_fits immediate c.1) components.now }
{
    components.iter().all(|c| splice_time_fits(immediate, c.1))
}

fn break_duration_fits(duration: Option<BreakDuration>) -> bool
    ensures { result ≡ break_duration_fits duration }
{
    match duration {
        None => true,
        Some(duration) => duration.ticks < TICKS,
    }
}

fn insert_body_fits(body: &Option<InsertBody>) -> bool
    ensures { result ≡ insert_body_fits (bodies_of body.now) }
{
    match body {
        None => true,
        Some(body) => splice_target_fits(body.immediate, &body.target)
            && break_duration_fits(body.duration),
    }
}

fn splice_command_fits(command: &SpliceCommand) -> bool
    ensures { result ≡ splice_command_fits (command_of command.now) }
{
    match command {
        SpliceCommand::Insert(insert) => insert_body_fits(&insert.body),
        SpliceCommand::Other { command, .. } => *command != SPLICE_INSERT,
    }
}

// How many bytes a time takes.
fn splice_time_length(time: Option<SpliceTime>) -> usize
    ensures value { 8 * result ≡ width (optional_fields splice_time time) }
    ensures most { result ≤ 5 }
{
    match time {
        None => 0,
        Some(SpliceTime { pts: None }) => 1,
        Some(SpliceTime { pts: Some(_) }) => 5,
    }
}

fn splice_components_length(components: &[(u8, Option<SpliceTime>)]) -> usize
    requires { length components.now ≤ 255 }
    ensures value { 8 * result ≡ width (flat_map component components.now) }
    ensures most { result ≤ 6 * length components.now }
{
    let mut len = 0;
    for component in components {
        len += 1 + splice_time_length(component.1);
    }
    len
}

fn splice_target_length(target: &SpliceTarget) -> usize
    requires { IsCounted (target_of target.now) }
    ensures value { 8 * result ≡ width (target_fields (target_of target.now)) }
    ensures most { result ≤ 1531 }
{
    match target {
        SpliceTarget::Program(time) => splice_time_length(*time),
        SpliceTarget::Components(components) => 1 + splice_components_length(components),
    }
}

fn break_duration_length(duration: Option<BreakDuration>) -> usize
    ensures value { 8 * result ≡ width (optional_fields break_duration duration) }
    ensures most { result ≤ 5 }
{
    match duration {
        None => 0,
        Some(_) => 5,
    }
}

#[tactic(auto, using(crate::proofs::Lengths::width_of_body))]
fn insert_body_length(body: &Option<InsertBody>) -> usize
    requires { IsTrue (insert_body_fits (bodies_of body.now)) }
    ensures value { 8 * result ≡ width (optional_fields body_fields (bodies_of body.now)) }
    ensures most { result ≤ 1541 }
{
    match body {
        None => 0,
        Some(body) => 1
            + splice_target_length(&body.target)
            + break_duration_length(body.duration)
            + 4,
    }
}

/// How many bytes `command` takes.
#[tactic(auto, using(crate::proofs::Sections::width_of_bytes), unfolding(crate::specs::Section::splice_insert))]
pub fn length_of_splice_command(command: &SpliceCommand) -> usize
    requires { IsTrue (splice_command_fits (command_of command.now)) }
    ensures { 8 * result ≡ width (command_fields (command_of command.now)) }
{
    match command {
        SpliceCommand::Insert(insert) => 5 + insert_body_length(&insert.body),
        SpliceCommand::Other { bytes, .. } => bytes.len(),
    }
}

/// How many bytes of the section of `info` follow section_length, or 2^64 - 1 if they are more.
pub fn splice_section_length(info: &SpliceInfo) -> usize
    requires { IsTrue (splice_command_fits (command_of info.now.command)) }
    ensures { result ≡ min (splice_section_length (section_of info.now)) (2 ^ 64 - 1) }
{
    SHORTEST
        .saturating_add(length_of_splice_command(&info.command))
        .saturating_add(info.descriptors.len())
        .saturating_add(info.stuffing.len())
}

/// Whether `info` has a section that may be written (SCTE 35, section 9.6): each number fits its field, and
/// section_length is at most 4093.
#[tactic(auto, unfolding(crate::specs::Writing::has_splice_section))]
pub fn has_splice_section(info: &SpliceInfo) -> bool
    ensures { result ≡ has_splice_section (section_of info.now) }
{
    if info.pts_adjustment >= TICKS || info.tier >= 4096 || !splice_command_fits(&info.command) {
        return false;
    }
    splice_section_length(info) <= LONGEST
}
