//! The fields of splice sections in a line.
use crate::shown::push_named;
use scte35_codec::{
    BreakDuration, InsertBody, SpliceCommand, SpliceInfo, SpliceInsert, SpliceTarget, SpliceTime,
};
use std::alloc::AllocError;

/// Appends to `line` all that the section `info` says.
pub(crate) fn push_fields(line: &mut String, info: &SpliceInfo) -> Result<(), AllocError> {
    let (adjustment, cw, tier) = (info.pts_adjustment, info.cw_index, info.tier);
    write!(line, "pts_adjustment={adjustment} cw={cw} tier={tier}")?;
    push_command(line, &info.command)?;
    push_named(line, "descriptors", info.descriptors.as_slice())?;
    push_named(line, "stuffing", info.stuffing.as_slice())?;
    write!(line, " stated={}", info.crc)
}

fn push_command(line: &mut String, command: &SpliceCommand) -> Result<(), AllocError> {
    match command {
        SpliceCommand::Insert(insert) => push_insert(line, insert),
        SpliceCommand::Other { command, bytes } => {
            write!(line, " command={command}")?;
            push_named(line, "bytes", bytes.as_slice())
        }
    }
}

fn push_insert(line: &mut String, insert: &SpliceInsert) -> Result<(), AllocError> {
    write!(line, " event={}", insert.event_id)?;
    match &insert.body {
        None => line.push_str(" cancelled"),
        Some(body) => push_body(line, body),
    }
}

fn push_body(line: &mut String, body: &InsertBody) -> Result<(), AllocError> {
    let (out, immediate) = (u8::from(body.out_of_network), u8::from(body.immediate));
    write!(line, " out={out} immediate={immediate}")?;
    push_target(line, &body.target)?;
    push_duration(line, body.duration)?;
    let (id, avail, avails) = (body.unique_program_id, body.avail_num, body.avails_expected);
    write!(line, " upid={id} avail={avail} avails={avails}")
}

fn push_target(line: &mut String, target: &SpliceTarget) -> Result<(), AllocError> {
    match target {
        SpliceTarget::Program(time) => {
            line.push_str(" program")?;
            push_time(line, *time)
        }
        SpliceTarget::Components(components) => push_components(line, components.as_slice()),
    }
}

fn push_components(
    line: &mut String,
    components: &[(u8, Option<SpliceTime>)],
) -> Result<(), AllocError> {
    for component in components {
        write!(line, " component={}", component.0)?;
        push_time(line, component.1)?;
    }
    Ok(())
}

// A time that is there may leave open which.
fn push_time(line: &mut String, time: Option<SpliceTime>) -> Result<(), AllocError> {
    match time {
        None => Ok(()),
        Some(SpliceTime { pts: None }) => line.push_str(" pts=open"),
        Some(SpliceTime { pts: Some(pts) }) => write!(line, " pts={pts}"),
    }
}

fn push_duration(line: &mut String, duration: Option<BreakDuration>) -> Result<(), AllocError> {
    let Some(duration) = duration else {
        return Ok(());
    };
    let (auto, ticks) = (u8::from(duration.auto_return), duration.ticks);
    write!(line, " auto={auto} ticks={ticks}")
}
