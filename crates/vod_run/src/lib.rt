//! The program's edge: from the bytes of an input to the bytes of the owed playlist.
#![tactic(auto)]

mod command;
mod fault;
mod input;
mod run;

pub use command::command_vod;
pub use fault::VodFault;
pub use run::vod;
