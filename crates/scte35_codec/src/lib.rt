//! Splice sections of ANSI/SCTE 35, read from bytes or hexadecimal text and written back.
//!
//! A splice_info_section is read whole: an unknown command, the descriptors and the stuffing are kept
//! as bytes, and the CRC as a number that is not verified. Of the commands, splice_insert is taken apart.
//! A value is written with the CRC that it has, or with the one that its bytes have.
#![tactic(auto)]

mod bits;
mod crc;
mod fault;
mod hexadecimal;
mod info;
pub mod laws;
mod limits;
mod reading;
mod writing;

pub use crc::crc_of;
pub use fault::SpliceFault;
pub use hexadecimal::read_hex;
pub use info::{
    BreakDuration, InsertBody, SpliceCommand, SpliceInfo, SpliceInsert, SpliceTarget, SpliceTime,
};
pub use reading::read;
pub use writing::{write, write_with_crc};
