//! Calls that the program shows nothing of. Bases, references, times and characters are tried on the built program
//! (`tests/run_playlists`).
use crate::made::key;
use channel_window::mark_text_in_window;
use playlist_model::{
    Instant, Items, Key, KeyRef, Keys, KeysRef, Shared, Text, is_iv_needed, read_instant,
};
use std::alloc::{AllocError, Global};

// 1900-01-01T00:00:00Z and 2200-01-01T00:00:00Z, in nanoseconds from 1970.
static RANGE: [(i128, bool); 6] = [
    (-2_208_988_800_000_000_001, false),
    (-2_208_988_800_000_000_000, true),
    (0, true),
    (7_258_118_399_999_999_999, true),
    (7_258_118_400_000_000_000, false),
    (18_446_744_073_709_551_616, false),
];

// The program writes times as it reads them, and so shows no number of them.
fn is_read_as(text: &str, nanos: i64) -> bool {
    match read_instant(text) {
        Ok(instant) => instant.0 == nanos,
        Err(_) => false,
    }
}

#[test]
fn instants(rt: HostRuntime) {
    for (nanos, within) in RANGE.iter() {
        assert!(rt; Instant::from_nanos(*nanos).is_some() == *within, "{nanos}");
    }
    assert!(rt; is_read_as("2024-05-01T14:00:10.25+02:00", 1_714_564_810_250_000_000));
    assert!(rt; !Instant(i64::MAX).is_in_range());
}

// Whether a text of these words, and a copy of it, are equal and say them.
fn is_copied(alloc: Global, words: &str) -> Result<bool, AllocError> {
    let text = Text::copy_of(alloc, words)?;
    let copy = text.clone()?;
    Ok(text == copy && text.as_str() == words && copy.into_string().as_str() == words)
}

fn are_equal_texts(alloc: Global, words: &str, others: &str) -> Result<bool, AllocError> {
    let text = Text::copy_of(alloc, words)?;
    let other = Text::from_string(String::from_str(alloc, others)?);
    Ok(text == other)
}

// Whether a shared text, another owner of which is equal to one of other words, says its words.
fn is_shared(alloc: Global, words: &str, others: &str) -> Result<bool, AllocError> {
    let shared = Shared::copy_of(alloc, words)?.clone()?;
    let other = Shared::new(alloc, Text::copy_of(alloc, others)?)?;
    Ok(shared == other && mark_text_in_window(&Some(shared)) == Some(words))
}

// Whether a list of these bytes, and a copy of it, are equal and hold them.
fn is_copied_list(alloc: Global, bytes: &[u8]) -> Result<bool, AllocError> {
    let items = Items::from_vec(bytes.to_vec(alloc)?);
    let copy = items.clone()?;
    Ok(copy == items && items.len() == 3 && copy.into_vec().as_slice() == bytes)
}

#[test]
fn owned_values(rt: HostRuntime) {
    assert!(rt; matches!(is_copied(rt.alloc(), "s0.ts"), Ok(true)));
    assert!(rt; matches!(are_equal_texts(rt.alloc(), "s0.ts", "s1.ts"), Ok(false)));
    assert!(rt; matches!(is_shared(rt.alloc(), "s0.ts", "s0.ts"), Ok(true)));
    assert!(rt; matches!(is_shared(rt.alloc(), "s0.ts", "s1.ts"), Ok(false)));
    assert!(rt; mark_text_in_window(&None).is_none());
    assert!(rt; matches!(is_copied_list(rt.alloc(), &[1, 2, 3]), Ok(true)));
}

fn stands_first(first: &Key, second: &Key) -> bool {
    first.is_before(second) && !second.is_before(first) && !first.is_before(first)
}

fn are_ordered(alloc: Global) -> Result<bool, AllocError> {
    let first = key(alloc, "com.example", "http://origin.example/k", Some(1))?;
    let second = key(alloc, "identity", "http://origin.example/k", None)?;
    Ok(stands_first(&first, &second))
}

#[test]
fn keys_in_order(rt: HostRuntime) {
    assert!(rt; matches!(are_ordered(rt.alloc()), Ok(true)));
}

// Two keys as they decrypt the segment of number 7: the second states no IV.
fn keys_of_a_segment(alloc: Global) -> Result<Keys, AllocError> {
    let first = key(alloc, "com.example", "http://origin.example/a", Some(1))?;
    let second = key(alloc, "identity", "http://origin.example/b", None)?;
    let stated = Keys::from_vec(alloc, vec![in alloc; first, second]?)?;
    stated.lent_under(7).to_keys()
}

fn is_supplied(key: &KeyRef<'_>) -> bool {
    key.format() == "identity"
        && key.method() == "AES-128"
        && key.uri() == "http://origin.example/b"
        && key.iv() == Some(7)
        && key.other_attributes().as_str().is_empty()
}

fn are_told(keys: &KeysRef<'_>) -> bool {
    let mut left = keys.iter();
    let Some(first) = left.next() else {
        return false;
    };
    let Some(second) = left.rest().next() else {
        return false;
    };
    first.iv() == Some(1) && first.is_before(&second) && is_supplied(&second)
}

fn are_two(keys: &KeysRef<'_>) -> bool {
    keys.len() == 2 && !keys.is_empty() && keys.only().is_none() && !is_iv_needed(keys)
}

fn are_copied(alloc: Global, keys: &Keys) -> Result<bool, AllocError> {
    let copies = Keys::from_vec(alloc, keys.to_vec(alloc)?)?;
    Ok(are_told(&copies.lent()) && are_told(&keys.clone()?.lent()))
}

fn are_effective(alloc: Global) -> Result<bool, AllocError> {
    let keys = keys_of_a_segment(alloc)?;
    Ok(are_told(&keys.lent()) && are_two(&keys.lent()) && are_copied(alloc, &keys)?)
}

#[test]
fn keys_of_segments(rt: HostRuntime) {
    assert!(rt; matches!(are_effective(rt.alloc()), Ok(true)));
    assert!(rt; Keys::none().lent().is_empty());
}
