//! The lines of values, some of which no section says.
use crate::words::{number_in, split_word};
use scte35_codec::{
    BreakDuration, InsertBody, SpliceCommand, SpliceFault, SpliceInfo, SpliceInsert, SpliceTarget,
    SpliceTime, write, write_with_crc,
};
use std::alloc::{AllocError, Global};

// A time, or none if the text is no number.
fn time_in(text: &str) -> Option<SpliceTime> {
    match text.parse() {
        Ok(pts) => Some(SpliceTime { pts: Some(pts) }),
        Err(_) => None,
    }
}

fn plain(alloc: Global, command: SpliceCommand) -> SpliceInfo {
    SpliceInfo {
        pts_adjustment: 0,
        cw_index: 0,
        tier: 0xFFF,
        command,
        descriptors: Vec::new(alloc),
        stuffing: Vec::new(alloc),
        crc: 0,
    }
}

// A splice_insert with this timing (`immediate` or another one), target and duration.
fn insert(alloc: Global, timing: &str, target: SpliceTarget, ticks: u64) -> SpliceInfo {
    let body = InsertBody {
        out_of_network: true,
        immediate: timing == "immediate",
        target,
        duration: Some(BreakDuration {
            auto_return: false,
            ticks,
        }),
        unique_program_id: 1,
        avail_num: 0,
        avails_expected: 0,
    };
    let body = Some(body);
    plain(
        alloc,
        SpliceCommand::Insert(SpliceInsert { event_id: 1, body }),
    )
}

// Whether a value was written.
fn push_verdict(
    line: &mut String,
    written: Result<Vec<u8>, SpliceFault>,
) -> Result<(), AllocError> {
    match written {
        Ok(_) => line.push_str("written"),
        Err(fault) => write!(line, "{fault}"),
    }
}

// What comes of writing a value with its own CRC_32, and with that of its bytes.
fn value_line(alloc: Global, info: &SpliceInfo) -> Result<String, AllocError> {
    let mut line = String::new(alloc);
    push_verdict(&mut line, write(alloc, info))?;
    line.push(' ')?;
    push_verdict(&mut line, write_with_crc(alloc, info))?;
    Ok(line)
}

/// A splice of the program, by `words`, which are `TIMING TIME TICKS`: `immediate`, or any other word; the time, or
/// `none`; how long the break is.
pub(crate) fn program_line(alloc: Global, words: &str) -> Result<String, AllocError> {
    let (timing, words) = split_word(words);
    let (time, ticks) = split_word(words);
    let target = SpliceTarget::Program(time_in(time));
    value_line(alloc, &insert(alloc, timing, target, number_in(ticks)))
}

/// A splice of components, by `words`, which are `TIMING TIME COUNT`: each component has this time.
pub(crate) fn components_line(alloc: Global, words: &str) -> Result<String, AllocError> {
    let (timing, words) = split_word(words);
    let (time, count) = split_word(words);
    let target = same_components(alloc, number_in(count), time_in(time))?;
    value_line(alloc, &insert(alloc, timing, target, 0))
}

// So many components with the tag 7 and this time.
fn same_components(
    alloc: Global,
    count: u64,
    time: Option<SpliceTime>,
) -> Result<SpliceTarget, AllocError> {
    let mut components = Vec::new(alloc);
    for _place in 0..count {
        components.push((7, time))?;
    }
    Ok(SpliceTarget::Components(components))
}

/// A heading, by `words`, which are `PTS_ADJUSTMENT TIER`.
pub(crate) fn heading_line(alloc: Global, words: &str) -> Result<String, AllocError> {
    let (pts_adjustment, tier) = split_word(words);
    let mut info = insert(alloc, "immediate", SpliceTarget::Program(None), 0);
    info.pts_adjustment = number_in(pts_adjustment);
    info.tier = tier.parse().unwrap_or(0);
    value_line(alloc, &info)
}

/// A command of the type `command`, of no bytes.
pub(crate) fn command_line(alloc: Global, command: &str) -> Result<String, AllocError> {
    let command = command.parse().unwrap_or(0);
    let bytes = Vec::new(alloc);
    let info = plain(alloc, SpliceCommand::Other { command, bytes });
    value_line(alloc, &info)
}
