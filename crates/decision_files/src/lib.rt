//! What a decision file says: a JSON value that gives breaks their pods of advertisements, or takes one back.
#![tactic(auto)]

mod ads;
mod file;
mod ids;
mod keys;
mod members;
mod segments;
mod texts;

pub use file::read_decisions;
