//! Devices: what bytes come from and what they go to. Their counters say in a contract who failed.
#![tactic(auto)]

mod calls;
mod device;
mod output;
mod test_devices;

pub use calls::{Reads, Writes};
pub use device::{Counted, MAX_READS, READ_ROOM, Sink, Source};
pub use output::{SinkFailed, hand_out};
pub use test_devices::{TestSink, TestSource};
