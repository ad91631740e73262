//! Words that the definitions of many crates use: outcomes, which are a value or the first fault, and bytes of ASCII by
//! name. Definitions only.
#![tactic(auto)]
