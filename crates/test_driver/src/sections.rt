//! The lines of splice sections.
use crate::fields::push_fields;
use crate::shown::push_bytes;
use scte35_codec::{SpliceInfo, crc_of, read_hex, write, write_with_crc};
use std::alloc::{AllocError, Global};

/// What the section `hex`, in hexadecimal digits, says, and the section that is written of it with its own CRC_32, or
/// the fault of either.
pub(crate) fn section_line(alloc: Global, hex: &str) -> Result<String, AllocError> {
    match read_hex(alloc, hex) {
        Ok(info) => fields_line(alloc, &info),
        Err(fault) => format!(in alloc; "{fault}"),
    }
}

fn fields_line(alloc: Global, info: &SpliceInfo) -> Result<String, AllocError> {
    let mut line = String::new(alloc);
    push_fields(&mut line, info)?;
    match write_with_crc(alloc, info) {
        Ok(bytes) => push_checked(&mut line, bytes.as_slice())?,
        Err(fault) => write!(line, " {fault}")?,
    }
    Ok(line)
}

// The CRC_32 of the whole of a section that is written with its own, and the section.
fn push_checked(line: &mut String, bytes: &[u8]) -> Result<(), AllocError> {
    write!(line, " crc={} ", crc_of(bytes))?;
    push_bytes(line, bytes)
}

/// The section `hex` as it is read, copied and written again with the CRC_32 that it states, or the fault of either.
pub(crate) fn rewritten_line(alloc: Global, hex: &str) -> Result<String, AllocError> {
    match read_hex(alloc, hex) {
        Ok(info) => bytes_line(alloc, &info.clone()?),
        Err(fault) => format!(in alloc; "{fault}"),
    }
}

fn bytes_line(alloc: Global, info: &SpliceInfo) -> Result<String, AllocError> {
    let mut line = String::new(alloc);
    match write(alloc, info) {
        Ok(bytes) => push_bytes(&mut line, bytes.as_slice())?,
        Err(fault) => write!(line, "{fault}")?,
    }
    Ok(line)
}
