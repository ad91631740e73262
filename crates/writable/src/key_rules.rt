//! Which keys and initialisation sections can be written (RFC 8216, sections 4.3.2.4 and 4.3.2.5).
ghost use Rattle.std.specs.Prelude.{◌≡◌};
ghost use Rattle.std.specs.List.{list_all};
ghost use Rattle.playlist_model.specs.LookBack.{is_before, are_sorted};
ghost use Rattle.writable.specs.Fitting.{if_some, byte_range_fits, iv_is_writable, other_attributes_are_writable, method_fits, key_is_writable, keys_are_writable, writable_key_states_iv, effective_keys_fit, init_section_fits};

use crate::texts::{is_clean, quoted_uri_fits, value_fits};
use playlist_model::{
    ByteRange, InitSection, KeyRef, KeysIter, KeysRef, OtherAttributes, is_iv_needed,
};

/// Whether `byte_range` ends below byte 2^64 (RFC 8216, section 4.3.2.2), if there is one.
pub fn byte_range_fits(byte_range: Option<ByteRange>) -> bool
    ensures { result ≡ if_some byte_range_fits byte_range }
{
    match byte_range {
        Some(byte_range) => byte_range.length.checked_add(byte_range.offset).is_some(),
        None => true,
    }
}

// A key's other attributes are a list of such by their type.
fn other_attributes_are_writable(others: &OtherAttributes) -> bool
    ensures { result ≡ other_attributes_are_writable others.now }
{
    is_clean(others.as_str())
}

/// Whether `method` can be METHOD of a key that encrypts (RFC 8216, section 4.3.2.4): a word without quotes other
/// than NONE.
pub fn method_fits(method: &str) -> bool
    ensures { result ≡ method_fits method.now }
{
    value_fits(method, false) && method != "NONE"
}

// An IV is a number of 128 bits by its type.
fn iv_is_writable(iv: Option<u128>) -> bool
    ensures { result ≡ if_some iv_is_writable iv }
{
    match iv {
        Some(iv) => iv <= u128::MAX,
        None => true,
    }
}

fn key_is_writable(key: &KeyRef<'_>) -> bool
    ensures { result ≡ key_is_writable key.now }
{
    value_fits(key.format(), true)
        && method_fits(key.method())
        && quoted_uri_fits(key.uri())
        && iv_is_writable(key.iv())
        && other_attributes_are_writable(key.other_attributes())
}

fn all_keys_are_writable(keys: &KeysRef<'_>) -> bool
    ensures { result ≡ list_all key_is_writable keys.now }
{
    for key in keys.iter() {
        if !key_is_writable(&key) {
            return false;
        }
    }
    true
}

fn writable_key_stands_before(key: &KeyRef<'_>, later: KeysIter<'_>) -> bool
    ensures { result ≡ list_all (is_before key.now) later.entry }
{
    for other in later {
        if !key.is_before(&other) {
            return false;
        }
    }
    true
}

fn are_writable_keys_sorted(keys: &KeysRef<'_>) -> bool
    ensures { result ≡ are_sorted keys.now }
{
    let mut later = keys.iter();
    while let Some(key) = later.next() {
        if !writable_key_stands_before(&key, later.rest()) {
            return false;
        }
    }
    true
}

fn keys_are_writable(keys: &KeysRef<'_>) -> bool
    ensures { result ≡ keys_are_writable keys.now }
{
    all_keys_are_writable(keys) && are_writable_keys_sorted(keys)
}

fn writable_key_states_iv(key: &KeyRef<'_>) -> bool
    ensures { result ≡ writable_key_states_iv key.now }
{
    !(key.format() == "identity" && key.iv().is_none())
}

fn writable_keys_state_ivs(keys: &KeysRef<'_>) -> bool
    ensures { result ≡ list_all writable_key_states_iv keys.now }
{
    for key in keys.iter() {
        if !writable_key_states_iv(&key) {
            return false;
        }
    }
    true
}

/// Whether `keys` can be the keys of a segment: as each can be written, and those of the format `identity` have an IV
/// (RFC 8216, section 5.2).
pub fn effective_keys_fit(keys: &KeysRef<'_>) -> bool
    ensures { result ≡ effective_keys_fit keys.now }
{
    keys_are_writable(keys) && writable_keys_state_ivs(keys)
}

/// Whether `init_section` can be written (RFC 8216, section 4.3.2.5): its URI in quotes, its byte range and its keys, of
/// which those of the method AES-128 have an IV.
pub fn init_section_fits(init_section: &InitSection) -> bool
    ensures { result ≡ init_section_fits init_section.now }
{
    let keys = init_section.keys.lent();
    quoted_uri_fits(init_section.uri.as_str())
        && byte_range_fits(init_section.byte_range)
        && keys_are_writable(&keys)
        && !is_iv_needed(&keys)
}
