//! What can stand in a playlist that is written: texts, URIs, durations, keys and initialisation sections
//! (RFC 8216, sections 4.2 and 4.3.2).
#![tactic(auto)]

mod key_rules;
mod texts;

pub use key_rules::{byte_range_fits, effective_keys_fit, init_section_fits, method_fits};
pub use texts::{duration_fits, is_clean, is_name, quoted_uri_fits, uri_fits, value_fits};
