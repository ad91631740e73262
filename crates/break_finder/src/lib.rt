//! The breaks that a live playlist's date ranges signal, what is known of them from refresh to refresh, and
//! which of them a segment enters.
#![tactic(auto)]

mod break_id;
mod carry;
mod described;
mod end;
mod entering;
mod entrance;
mod kept;
mod knowledge;
pub mod laws;
mod signal;
mod spans;
mod why;

pub use entering::Entrances;
pub use knowledge::{Knowledge, Stay};
pub use spans::{EnteredBreak, LastEntered, TimesWithin};
pub use why::Why;
