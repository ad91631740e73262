//! Writing sections.

ghost use Rattle.std.specs.Prelude.{◌≡◌, ◌+◌, ◌*◌, ◌^◌, ◌<◌, ◌≤◌, ◌++◌, ◌↔◌, ◌⊎◌, [], ◌∷◌, false, IsTrue, OnOk, IfOk, IfErr, Some, Ok, Err, length};
ghost use Rattle.std.specs.List.{flat_map, list_all};
ghost use Rattle.std.specs.Int.{bytes_high_first};
ghost use Rattle.scte35_codec.specs.Layout.{Is, Reserved, bytes_of, HoldsFields, IsWritten};
ghost use Rattle.scte35_codec.specs.Section.{splice_flag, optional_fields, splice_time, component, target_of, target_fields, is_program_splice, body_of_insert, bodies_of, body_flags, body_fields, cancel_fields, event_of, splice_insert, command_of, command_fields, type_of_splice_command, break_duration, start_fields, heading_fields, section_of, IsSection, Section};
ghost use Rattle.scte35_codec.specs.Writing.{time_fits, break_duration_fits, insert_body_fits, splice_command_fits, has_splice_section, written_fields, splice_section_length as counted_length};
ghost use Rattle.scte35_codec.specs.Inner.Writing.{TargetFits, Appends, front_fields, tail_fields};
ghost use Rattle.scte35_codec.specs.Crc.{crc_of, IsChecked};
ghost use Rattle.scte35_codec.specs.Reading.{reading};
ghost use Rattle.scte35_codec.specs.declared.fault.SpliceFault.TheVariants.{OutOfMemory, TooLarge};

use crate::crc::crc_of;
use crate::fault::SpliceFault;
use crate::info::{
    BreakDuration, InsertBody, SPLICE_INSERT, SpliceCommand, SpliceInfo, SpliceInsert,
    SpliceTarget, SpliceTime,
};
use crate::limits::{has_splice_section, length_of_splice_command, splice_section_length};
use std::alloc::{AllocError, Global};

// The reserved bits and flags in front of a time of 33 bits, and of a time that is not specified.
const SPECIFIED: u64 = 0xFE_0000_0000;

const UNSPECIFIED: u64 = 0x7F;

// The reserved bits in front of a duration of 33 bits.
const DURATION: u64 = 0x7E_0000_0000;

// The reserved bits after the flags of a body, and after the flag of a cancelled event.
const FLAGS_RESERVED: u64 = 0xF;

const CANCEL_RESERVED: u64 = 0x7F;

// table_id and section_length, in bytes.
const START_LEN: usize = 3;

// table_id, and the reserved bits in front of section_length.
const START: u64 = 0xFC_3000;

// Adds the lowest `count` bytes of a number, the highest of them first.
#[tactic(auto, using(crate::proofs::Appends::lowest_bytes))]
fn put_splice_number(out: &mut Vec<u8>, number: u64, count: usize) -> Result<(), AllocError>
    requires { count ≤ 8 }
    ensures { OnOk result (out.new.items ≡ out.old.items ++ bytes_high_first count number) }
{
    let bytes = number.to_be_bytes();
    out.extend_from_slice(&bytes[8 - count..])
}

fn put_splice_u8(out: &mut Vec<u8>, number: u8) -> Result<(), AllocError>
    ensures { OnOk result (Appends ((8, Is number) ∷ []) out.old.items out.new.items) }
{
    put_splice_number(out, u64::from(number), 1)
}

fn put_splice_u16(out: &mut Vec<u8>, number: u16) -> Result<(), AllocError>
    ensures { OnOk result (Appends ((16, Is number) ∷ []) out.old.items out.new.items) }
{
    put_splice_number(out, u64::from(number), 2)
}

fn put_splice_u32(out: &mut Vec<u8>, number: u32) -> Result<(), AllocError>
    ensures { OnOk result (Appends ((32, Is number) ∷ []) out.old.items out.new.items) }
{
    put_splice_number(out, u64::from(number), 4)
}

fn put_splice_time(out: &mut Vec<u8>, time: SpliceTime) -> Result<(), AllocError>
    requires { IsTrue (time_fits (Some time)) }
    ensures { OnOk result (Appends (splice_time time) out.old.items out.new.items) }
{
    match time.pts {
        None => put_splice_number(out, UNSPECIFIED, 1),
        Some(pts) => put_splice_number(out, SPECIFIED + pts, 5),
    }
}

fn put_optional_splice_time(out: &mut Vec<u8>, time: Option<SpliceTime>) -> Result<(), AllocError>
    requires { IsTrue (time_fits time) }
    ensures { OnOk result (Appends (optional_fields splice_time time) out.old.items out.new.items) }
{
    match time {
        None => Ok(()),
        Some(time) => put_splice_time(out, time),
    }
}

fn put_break_duration(out: &mut Vec<u8>, duration: Option<BreakDuration>) -> Result<(), AllocError>
    requires { IsTrue (break_duration_fits duration) }
    ensures { OnOk result
        (Appends (optional_fields break_duration duration) out.old.items out.new.items) }
{
    match duration {
        None => Ok(()),
        Some(duration) => {
            let auto_return = splice_flag(duration.auto_return, 39);
            put_splice_number(out, auto_return + DURATION + duration.ticks, 5)
        }
    }
}

// A flag at a place, where the lowest bit is at place 0.
fn splice_flag(set: bool, place: u32) -> u64
    requires { place < 64 }
    ensures { result ≡ splice_flag set * 2 ^ place }
{
    if set { 1 << place } else { 0 }
}

fn put_splice_bytes(out: &mut Vec<u8>, bytes: &[u8]) -> Result<(), AllocError>
    ensures { OnOk result (Appends (bytes_of bytes.now) out.old.items out.new.items) }
{
    out.extend_from_slice(bytes)
}

fn put_splice_components(
    out: &mut Vec<u8>,
    components: &[(u8, Option<SpliceTime>)],
) -> Result<(), AllocError>
    requires { IsTrue (list_all (λ c. time_fits c.1) components.now) }
    ensures { OnOk result
        (Appends (flat_map component components.now) out.old.items out.new.items) }
{
    for component in components {
        put_splice_u8(out, component.0)?;
        put_optional_splice_time(out, component.1)?;
    }
    Ok(())
}

fn put_splice_target(out: &mut Vec<u8>, target: &SpliceTarget) -> Result<(), AllocError>
    requires { TargetFits (target_of target.now) }
    ensures { OnOk result
        (Appends (target_fields (target_of target.now)) out.old.items out.new.items) }
{
    match target {
        SpliceTarget::Program(time) => put_optional_splice_time(out, *time),
        SpliceTarget::Components(components) => {
            put_splice_u8(out, components.len() as u8)?;
            put_splice_components(out, components)
        }
    }
}

fn is_program_splice(target: &SpliceTarget) -> bool
    ensures { result ≡ is_program_splice (target_of target.now) }
{
    matches!(target, SpliceTarget::Program(_))
}

fn put_splice_flags(out: &mut Vec<u8>, body: &InsertBody) -> Result<(), AllocError>
    ensures { OnOk result
        (Appends (body_flags (body_of_insert body.now)) out.old.items out.new.items) }
{
    let flags = splice_flag(body.out_of_network, 7)
        + splice_flag(is_program_splice(&body.target), 6)
        + splice_flag(body.duration.is_some(), 5)
        + splice_flag(body.immediate, 4);
    put_splice_number(out, flags + FLAGS_RESERVED, 1)
}

#[tactic(auto, using(crate::proofs::Fits::target_needs), unfolding(crate::specs::Section::body_fields))]
fn put_insert_body(out: &mut Vec<u8>, body: &InsertBody) -> Result<(), AllocError>
    requires { IsTrue (insert_body_fits (Some (body_of_insert body.now))) }
    ensures { OnOk result
        (Appends (body_fields (body_of_insert body.now)) out.old.items out.new.items) }
{
    put_splice_flags(out, body)?;
    put_splice_target(out, &body.target)?;
    put_break_duration(out, body.duration)?;
    put_splice_u16(out, body.unique_program_id)?;
    put_splice_u8(out, body.avail_num)?;
    put_splice_u8(out, body.avails_expected)?;
    Ok(())
}

fn put_optional_insert_body(out: &mut Vec<u8>, body: &Option<InsertBody>) -> Result<(), AllocError>
    requires { IsTrue (insert_body_fits (bodies_of body.now)) }
    ensures { OnOk result
        (Appends (optional_fields body_fields (bodies_of body.now)) out.old.items out.new.items) }
{
    match body {
        None => Ok(()),
        Some(body) => put_insert_body(out, body),
    }
}

fn put_splice_cancel(out: &mut Vec<u8>, is_cancelled: bool) -> Result<(), AllocError>
    ensures { OnOk result (Appends (cancel_fields is_cancelled) out.old.items out.new.items) }
{
    put_splice_number(out, splice_flag(is_cancelled, 7) + CANCEL_RESERVED, 1)
}

fn put_splice_insert(out: &mut Vec<u8>, insert: &SpliceInsert) -> Result<(), AllocError>
    requires { IsTrue (insert_body_fits (bodies_of insert.now.body)) }
    ensures { OnOk result
        (Appends (splice_insert (event_of insert.now)) out.old.items out.new.items) }
{
    put_splice_u32(out, insert.event_id)?;
    put_splice_cancel(out, insert.body.is_none())?;
    put_optional_insert_body(out, &insert.body)?;
    Ok(())
}

fn put_splice_command(out: &mut Vec<u8>, command: &SpliceCommand) -> Result<(), AllocError>
    requires { IsTrue (splice_command_fits (command_of command.now)) }
    ensures { OnOk result
        (Appends (command_fields (command_of command.now)) out.old.items out.new.items) }
{
    match command {
        SpliceCommand::Insert(insert) => put_splice_insert(out, insert),
        SpliceCommand::Other { bytes, .. } => put_splice_bytes(out, bytes),
    }
}

fn put_section_start(out: &mut Vec<u8>, section_length: usize) -> Result<(), AllocError>
    requires { section_length ≤ 4093 }
    ensures { OnOk result (Appends (start_fields section_length) out.old.items out.new.items) }
{
    put_splice_number(out, START + section_length as u64, 3)
}

fn put_pts_adjustment(out: &mut Vec<u8>, pts_adjustment: u64) -> Result<(), AllocError>
    requires { pts_adjustment < 2 ^ 33 }
    ensures { OnOk result (Appends ((8, Is 0) ∷ (1, Is 0) ∷ (6, Reserved 0)
        ∷ (33, Is pts_adjustment) ∷ []) out.old.items out.new.items) }
{
    put_splice_number(out, pts_adjustment, 6)
}

fn put_splice_tier(out: &mut Vec<u8>, tier: u16, command_length: usize) -> Result<(), AllocError>
    requires tier { tier < 4096 }
    requires command { command_length < 4096 }
    ensures { OnOk result (Appends ((12, Is tier) ∷ (12, Is command_length)
        ∷ []) out.old.items out.new.items) }
{
    put_splice_number(out, u64::from(tier) * 4096 + command_length as u64, 3)
}

fn type_of_splice_command(command: &SpliceCommand) -> u8
    ensures { result ≡ type_of_splice_command (command_of command.now) }
{
    match command {
        SpliceCommand::Insert(_) => SPLICE_INSERT,
        SpliceCommand::Other { command, .. } => *command,
    }
}

fn put_section_heading(
    out: &mut Vec<u8>,
    info: &SpliceInfo,
    command_length: usize,
) -> Result<(), AllocError>
    requires adjustment { info.now.pts_adjustment < 2 ^ 33 }
    requires tier { info.now.tier < 4096 }
    requires command { command_length < 4096 }
    ensures { OnOk result
        (Appends (heading_fields (section_of info.now) command_length) out.old.items out.new.items) }
{
    put_pts_adjustment(out, info.pts_adjustment)?;
    put_splice_u8(out, info.cw_index)?;
    put_splice_tier(out, info.tier, command_length)?;
    put_splice_u8(out, type_of_splice_command(&info.command))?;
    Ok(())
}

// What stands between the command and CRC_32.
fn put_section_tail(out: &mut Vec<u8>, info: &SpliceInfo) -> Result<(), AllocError>
    requires { length info.now.descriptors.items < 2 ^ 16 }
    ensures { OnOk result
        (Appends (tail_fields (section_of info.now)) out.old.items out.new.items) }
{
    put_splice_u16(out, info.descriptors.len() as u16)?;
    put_splice_bytes(out, &info.descriptors)?;
    put_splice_bytes(out, &info.stuffing)?;
    Ok(())
}

#[tactic(auto, using(crate::proofs::Fits::adjustment_fits, crate::proofs::Fits::tier_fits, crate::proofs::Fits::command_is_fit))]
fn put_section_front(
    out: &mut Vec<u8>,
    info: &SpliceInfo,
    section_length: usize,
) -> Result<(), AllocError>
    requires fits { IsTrue (has_splice_section (section_of info.now)) }
    requires counted { section_length ≡ counted_length (section_of info.now) }
    ensures { OnOk result
        (Appends (front_fields (section_of info.now)) out.old.items out.new.items) }
{
    put_section_start(out, section_length)?;
    put_section_heading(out, info, length_of_splice_command(&info.command))?;
    put_splice_command(out, &info.command)?;
    put_section_tail(out, info)?;
    Ok(())
}

// The section up to CRC_32.
fn front_of_splice_section(alloc: Global, info: &SpliceInfo) -> Result<Vec<u8>, SpliceFault>
    ensures refused { (result ≡ Err TooLarge) ↔ (has_splice_section (section_of info.now) ≡ false) }
    ensures fault { IfErr result (λ e. (e ≡ OutOfMemory) ⊎ (e ≡ TooLarge)) }
    ensures fits { IfOk result (λ _. IsTrue (has_splice_section (section_of info.now))) }
    ensures front { IfOk result
        (λ bytes. Appends (front_fields (section_of info.now)) [] bytes.items) }
{
    if !has_splice_section(info) {
        return Err(SpliceFault::TooLarge);
    }
    let section_length = splice_section_length(info);
    let mut out = Vec::with_capacity(alloc, START_LEN + section_length)?;
    put_section_front(&mut out, info, section_length)?;
    Ok(out)
}

/// The splice_info_section (SCTE 35, section 9.6) of `info`, as bytes, with its lengths counted.
///
/// Reserved bits are ones, section_syntax_indicator, private_indicator and encryption_algorithm are 0, and the CRC is
/// written as it is given. `TooLarge` is answered exactly if a number does not fit its field, a time is there though
/// the splice is immediate or is missing though it isn't, a command of another type has the type of splice_insert,
/// there are more than 255 components, or section_length would pass 4093. `OutOfMemory` only if an allocation fails.
pub fn write(alloc: Global, info: &SpliceInfo) -> Result<Vec<u8>, SpliceFault>
    // A value is refused exactly if it has no section that may be written.
    ensures refused { (result ≡ Err TooLarge) ↔ (has_splice_section (section_of info.now) ≡ false) }
    ensures fault { IfErr result (λ e. (e ≡ OutOfMemory) ⊎ (e ≡ TooLarge)) }

    // What is written is the value's section, with each reserved bit as the layout has it.
    ensures written { IfOk result
        (λ bytes. HoldsFields IsWritten (written_fields (section_of info.now)) bytes.items) }
    ensures section { IfOk result (λ bytes. IsSection (section_of info.now) bytes.items) }

    // It is read as the same value.
    ensures again { IfOk result (λ bytes. reading bytes.items ≡ Ok (section_of info.now)) }
{
    let mut out = front_of_splice_section(alloc, info)?;
    put_splice_u32(&mut out, info.crc)?;
    Ok(out)
}

/// The section of `info` as [`write`] makes it and with the same faults, but with the CRC_32 that its bytes have in
/// place of the CRC of `info`: the one by which the registers of ISO/IEC 13818-1, Annex A, are zero after the whole
/// section, as SCTE 35 wants it. So it is a section that others take.
pub fn write_with_crc(alloc: Global, info: &SpliceInfo) -> Result<Vec<u8>, SpliceFault>
    // A value is refused exactly if it has no section that may be written.
    ensures refused { (result ≡ Err TooLarge) ↔ (has_splice_section (section_of info.now) ≡ false) }
    ensures fault { IfErr result (λ e. (e ≡ OutOfMemory) ⊎ (e ≡ TooLarge)) }

    // What is written is the value's section with the CRC_32 of its other bytes, and is read so.
    ensures checked { IfOk result (λ bytes. IsChecked (section_of info.now) bytes.items) }
    ensures zero { IfOk result (λ bytes. crc_of bytes.items ≡ 0) }
{
    let mut out = front_of_splice_section(alloc, info)?;
    let crc = crc_of(&out);
    put_splice_number(&mut out, u64::from(crc), 4)?;
    Ok(out)
}
