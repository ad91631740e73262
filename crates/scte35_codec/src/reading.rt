//! Reading sections.

ghost use Rattle.std.specs.Prelude.{◌≡◌, ◌≢◌, ◌≤◌, length, IfOk, IfErr, Ok, Err};
ghost use Rattle.scte35_codec.specs.declared.fault.SpliceFault.{SpliceFault};
ghost use Rattle.scte35_codec.specs.declared.fault.SpliceFault.TheVariants.{NotHex, CommandLength, TooLarge};
ghost use Rattle.scte35_codec.specs.Section.{Section, target_of, body_of_insert, bodies_of, event_of, command_of, section_of, IsSection};
ghost use Rattle.scte35_codec.specs.Reading.{GivesOrSpliceFault, time_at, optional_time_at, component_at, components_at, target_at, optional_duration_at, body_at, optional_body_at, insert_at, whole_insert_at, unmeasured_at, measured_of, command_at, ending_at, tail_at, contents_of, reading};

use crate::bits::{
    big_endian_splice_number, splice_bit, splice_number_in, take_splice_bytes, take_splice_number,
};
use crate::fault::SpliceFault;
use crate::info::{
    BreakDuration, InsertBody, SPLICE_INSERT, SpliceCommand, SpliceInfo, SpliceInsert,
    SpliceTarget, SpliceTime, TICKS,
};
use std::alloc::Global;

const TABLE_ID: u64 = 0xFC;

// A section's bytes without its command, descriptors and stuffing.
const SHORTEST: usize = 20;

// splice_command_length if the length of a splice_insert is not stated.
const UNSTATED: u64 = 0xFFF;

// The splice_time() at the front of `bytes`, and the bytes after it (SCTE 35, section 9.8.1).
#[tactic(auto, unfolding(crate::specs::Reading::time_at, crate::specs::Reading::specified_time_at))]
fn take_splice_time(bytes: &[u8]) -> Result<(SpliceTime, &[u8]), SpliceFault>
    ensures { GivesOrSpliceFault (λ x. (x.0, x.1.now)) result (time_at bytes.now) }
{
    let (flags, rest) = take_splice_number(bytes, 1)?;
    if !splice_bit(flags, 7) {
        return Ok((SpliceTime { pts: None }, rest));
    }
    let (time, rest) = take_splice_number(bytes, 5)?;
    let pts = Some(time % TICKS);
    Ok((SpliceTime { pts }, rest))
}

// The time of a splice that is not immediate.
#[tactic(auto, unfolding(crate::specs::Reading::optional_time_at))]
fn take_optional_splice_time(
    immediate: bool,
    bytes: &[u8],
) -> Result<(Option<SpliceTime>, &[u8]), SpliceFault>
    ensures { GivesOrSpliceFault (λ x. (x.0, x.1.now)) result
        (optional_time_at immediate bytes.now) }
{
    if immediate {
        return Ok((None, bytes));
    }
    let (time, rest) = take_splice_time(bytes)?;
    Ok((Some(time), rest))
}

#[tactic(auto, unfolding(crate::specs::Reading::component_at))]
fn take_splice_component(
    immediate: bool,
    bytes: &[u8],
) -> Result<((u8, Option<SpliceTime>), &[u8]), SpliceFault>
    ensures { GivesOrSpliceFault (λ x. (x.0, x.1.now)) result (component_at immediate bytes.now) }
{
    let (tag, rest) = take_splice_number(bytes, 1)?;
    let (time, rest) = take_optional_splice_time(immediate, rest)?;
    Ok(((tag as u8, time), rest))
}

// The break_duration() at the front of `bytes`, if it is stated, and the bytes after it (SCTE 35, section 9.8.2).
#[tactic(auto, unfolding(crate::specs::Reading::optional_duration_at))]
fn take_optional_break_duration(
    stated: bool,
    bytes: &[u8],
) -> Result<(Option<BreakDuration>, &[u8]), SpliceFault>
    ensures { GivesOrSpliceFault (λ x. (x.0, x.1.now)) result
        (optional_duration_at stated bytes.now) }
{
    if !stated {
        return Ok((None, bytes));
    }
    let (duration, rest) = take_splice_number(bytes, 5)?;
    let auto_return = splice_bit(duration, 39);
    let ticks = duration % TICKS;
    Ok((Some(BreakDuration { auto_return, ticks }), rest))
}

fn take_splice_components(
    alloc: Global,
    immediate: bool,
    count: u64,
    bytes: &[u8],
) -> Result<(Vec<(u8, Option<SpliceTime>)>, &[u8]), SpliceFault>
    ensures { GivesOrSpliceFault (λ x. (x.0.items, x.1.now)) result
        (components_at immediate count bytes.now) }
{
    let mut components = Vec::with_capacity(alloc, count as usize)?;
    let mut rest = bytes;
    for _ in 0..count {
        let (component, after) = take_splice_component(immediate, rest)?;
        components.push(component)?;
        rest = after;
    }
    Ok((components, rest))
}

#[tactic(auto, unfolding(crate::specs::Reading::target_at))]
fn take_splice_target(
    alloc: Global,
    is_program: bool,
    immediate: bool,
    bytes: &[u8],
) -> Result<(SpliceTarget, &[u8]), SpliceFault>
    ensures { GivesOrSpliceFault (λ x. (target_of x.0, x.1.now)) result
        (target_at is_program immediate bytes.now) }
{
    if is_program {
        let (time, rest) = take_optional_splice_time(immediate, bytes)?;
        return Ok((SpliceTarget::Program(time), rest));
    }
    let (count, rest) = take_splice_number(bytes, 1)?;
    let (components, rest) = take_splice_components(alloc, immediate, count, rest)?;
    Ok((SpliceTarget::Components(components), rest))
}

#[tactic(auto, unfolding(crate::specs::Reading::body_at))]
fn take_insert_body(alloc: Global, bytes: &[u8]) -> Result<(InsertBody, &[u8]), SpliceFault>
    ensures { GivesOrSpliceFault (λ x. (body_of_insert x.0, x.1.now)) result (body_at bytes.now) }
{
    let (flags, rest) = take_splice_number(bytes, 1)?;
    let immediate = splice_bit(flags, 4);
    let (target, rest) = take_splice_target(alloc, splice_bit(flags, 6), immediate, rest)?;
    let (duration, rest) = take_optional_break_duration(splice_bit(flags, 5), rest)?;
    let (ids, rest) = take_splice_number(rest, 4)?;
    let body = InsertBody {
        out_of_network: splice_bit(flags, 7),
        immediate,
        target,
        duration,
        unique_program_id: (ids >> 16) as u16,
        avail_num: ((ids >> 8) % 256) as u8,
        avails_expected: (ids % 256) as u8,
    };
    Ok((body, rest))
}

#[tactic(auto, unfolding(crate::specs::Reading::optional_body_at))]
fn take_optional_insert_body(
    alloc: Global,
    is_cancelled: bool,
    bytes: &[u8],
) -> Result<(Option<InsertBody>, &[u8]), SpliceFault>
    ensures { GivesOrSpliceFault (λ x. (bodies_of x.0, x.1.now)) result
        (optional_body_at is_cancelled bytes.now) }
{
    if is_cancelled {
        return Ok((None, bytes));
    }
    let (body, rest) = take_insert_body(alloc, bytes)?;
    Ok((Some(body), rest))
}

// The splice_insert() at the front of `bytes`, and the bytes after it (SCTE 35, section 9.7.3).
#[tactic(auto, unfolding(crate::specs::Reading::insert_at))]
fn take_splice_insert(alloc: Global, bytes: &[u8]) -> Result<(SpliceInsert, &[u8]), SpliceFault>
    ensures { GivesOrSpliceFault (λ x. (event_of x.0, x.1.now)) result (insert_at bytes.now) }
{
    let (event_id, rest) = take_splice_number(bytes, 4)?;
    let (flags, rest) = take_splice_number(rest, 1)?;
    let (body, rest) = take_optional_insert_body(alloc, splice_bit(flags, 7), rest)?;
    let event_id = event_id as u32;
    Ok((SpliceInsert { event_id, body }, rest))
}

// The splice_insert that takes all of the bytes.
#[tactic(auto, unfolding(crate::specs::Reading::whole_insert_at))]
fn whole_splice_insert(alloc: Global, bytes: &[u8]) -> Result<SpliceInsert, SpliceFault>
    ensures { GivesOrSpliceFault event_of result (whole_insert_at bytes.now) }
{
    let (insert, rest) = take_splice_insert(alloc, bytes)?;
    if !rest.is_empty() {
        return Err(SpliceFault::CommandLength);
    }
    Ok(insert)
}

// A command of a length that is not stated.
#[tactic(auto, unfolding(crate::specs::Reading::unmeasured_at))]
fn take_unmeasured_splice_command(
    alloc: Global,
    kind: u8,
    bytes: &[u8],
) -> Result<(SpliceCommand, &[u8]), SpliceFault>
    ensures { GivesOrSpliceFault (λ x. (command_of x.0, x.1.now)) result
        (unmeasured_at kind bytes.now) }
{
    if kind != SPLICE_INSERT {
        return Err(SpliceFault::CommandLength);
    }
    let (insert, rest) = take_splice_insert(alloc, bytes)?;
    Ok((SpliceCommand::Insert(insert), rest))
}

// The command of these bytes.
#[tactic(auto, unfolding(crate::specs::Reading::measured_of))]
fn whole_splice_command(alloc: Global, kind: u8, bytes: &[u8]) -> Result<SpliceCommand, SpliceFault>
    ensures { GivesOrSpliceFault command_of result (measured_of kind bytes.now) }
{
    if kind == SPLICE_INSERT {
        let insert = whole_splice_insert(alloc, bytes)?;
        return Ok(SpliceCommand::Insert(insert));
    }
    let bytes = Vec::from_slice(alloc, bytes)?;
    Ok(SpliceCommand::Other {
        command: kind,
        bytes,
    })
}

#[tactic(auto, unfolding(crate::specs::Reading::command_at))]
fn take_splice_command(
    alloc: Global,
    length: u64,
    kind: u8,
    bytes: &[u8],
) -> Result<(SpliceCommand, &[u8]), SpliceFault>
    ensures { GivesOrSpliceFault (λ x. (command_of x.0, x.1.now)) result
        (command_at length kind bytes.now) }
{
    if length == UNSTATED {
        return take_unmeasured_splice_command(alloc, kind, bytes);
    }
    let (front, rest) = take_splice_bytes(bytes, length as usize)?;
    let command = whole_splice_command(alloc, kind, front)?;
    Ok((command, rest))
}

// The stuffing, and the CRC in the last four bytes.
#[tactic(auto, unfolding(crate::specs::Reading::ending_at))]
fn section_stuffing_and_crc(bytes: &[u8]) -> Result<(&[u8], u32), SpliceFault>
    ensures { GivesOrSpliceFault (λ x. (x.0.now, x.1)) result (ending_at bytes.now) }
{
    if bytes.len() < 4 {
        return Err(SpliceFault::CommandLength);
    }
    let (stuffing, crc) = bytes.split_at(bytes.len() - 4);
    Ok((stuffing, big_endian_splice_number(crc) as u32))
}

// The descriptors, the stuffing and the CRC.
#[tactic(auto, unfolding(crate::specs::Reading::tail_at))]
fn section_tail(alloc: Global, bytes: &[u8]) -> Result<(Vec<u8>, Vec<u8>, u32), SpliceFault>
    ensures { GivesOrSpliceFault (λ x. (x.0.items, x.1.items, x.2)) result (tail_at bytes.now) }
{
    let (count, rest) = take_splice_number(bytes, 2)?;
    let (descriptors, rest) = take_splice_bytes(rest, count as usize)?;
    let (stuffing, crc) = section_stuffing_and_crc(rest)?;
    let descriptors = Vec::from_slice(alloc, descriptors)?;
    let stuffing = Vec::from_slice(alloc, stuffing)?;
    Ok((descriptors, stuffing, crc))
}

// The section whose first 14 bytes keep the rules.
#[tactic(auto, unfolding(crate::specs::Reading::contents_of))]
fn section_contents(alloc: Global, bytes: &[u8]) -> Result<SpliceInfo, SpliceFault>
    requires { 20 ≤ length bytes.now }
    ensures { GivesOrSpliceFault section_of result (contents_of bytes.now) }
{
    let tier = splice_number_in(bytes, 10, 3);
    let kind = splice_number_in(bytes, 13, 1) as u8;
    let (command, rest) = take_splice_command(alloc, tier % 4096, kind, &bytes[14..])?;
    let (descriptors, stuffing, crc) = section_tail(alloc, rest)?;
    Ok(SpliceInfo {
        pts_adjustment: splice_number_in(bytes, 4, 5) % TICKS,
        cw_index: splice_number_in(bytes, 9, 1) as u8,
        tier: (tier >> 12) as u16,
        command,
        descriptors,
        stuffing,
        crc,
    })
}

// The section that all of `bytes` are, or its first fault (SCTE 35, section 9.6).
#[tactic(auto, unfolding(crate::specs::Reading::reading))]
fn splice_section_of_bytes(alloc: Global, bytes: &[u8]) -> Result<SpliceInfo, SpliceFault>
    ensures exact { GivesOrSpliceFault section_of result (reading bytes.now) }
    ensures told { (e : SpliceFault) → reading bytes.now ≡ Err e → e ≢ CommandLength
        → result ≡ Err e }
{
    if bytes.len() < SHORTEST {
        return Err(SpliceFault::TooShort);
    }
    if splice_number_in(bytes, 0, 1) != TABLE_ID {
        return Err(SpliceFault::TableId);
    }
    let section_length = splice_number_in(bytes, 1, 2) % 4096;
    if section_length as usize + 3 != bytes.len() {
        return Err(SpliceFault::Length);
    }
    if splice_number_in(bytes, 3, 1) != 0 {
        return Err(SpliceFault::Protocol);
    }
    if splice_bit(splice_number_in(bytes, 4, 5), 39) {
        return Err(SpliceFault::Encrypted);
    }
    section_contents(alloc, bytes)
}

/// The splice_info_section (SCTE 35, section 9.6) that all of `bytes` are.
///
/// The answer is the value whose layout `bytes` have, if there is one, else the first fault in the order of
/// [`SpliceFault`]. The CRC is not verified, and reserved bits are ignored. A fault that comes before `CommandLength`
/// is answered whatever memory there is.
///
/// ```text
/// let info = read(alloc, &bytes)?;
/// match info.command {
///     SpliceCommand::Insert(insert) => ..,    a splice_insert, taken apart
///     SpliceCommand::Other { .. } => ..,      its type, and its bytes as they are
/// }
/// ```
pub fn read(alloc: Global, bytes: &[u8]) -> Result<SpliceInfo, SpliceFault>
    // What is read is laid out so, field by field.
    ensures found { IfOk result (λ info. IsSection (section_of info) bytes.now) }

    // What is laid out so is read, unless memory runs out.
    ensures only { (s : Section) → IsSection s bytes.now
        → GivesOrSpliceFault section_of result (Ok s) }

    // Which fault it is. All but CommandLength are told whatever memory there is.
    ensures exact { GivesOrSpliceFault section_of result (reading bytes.now) }
    ensures told { (e : SpliceFault) → reading bytes.now ≡ Err e → e ≢ CommandLength
        → result ≡ Err e }
    ensures fault { IfErr result (λ e. (e ≢ NotHex) × (e ≢ TooLarge)) }
{
    splice_section_of_bytes(alloc, bytes)
}
