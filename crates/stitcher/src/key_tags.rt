//! The key tags that lead from keys to keys.
ghost use Rattle.std.specs.Prelude.{◌≡◌, ◌∷◌, true, map, filter, IfErr, IfOk, bytes_eq};
ghost use Rattle.std.specs.List.{list_any};
ghost use Rattle.playlist_model.specs.InCommon.{AreSameAt, without_iv};
ghost use Rattle.playlist_model.specs.LookBack.{has_format, are_sorted};
ghost use Rattle.playlist_model.specs.Same.{same_key};
ghost use Rattle.stitcher.specs.KeyTags.{is_new_key, keeps_formats, transition, after_tags};

use crate::StitchFault;
use playlist_model::{KeyPlaces, KeyRef, KeyTag, KeysRef, is_same_key};
use std::alloc::{AllocError, Global};

fn has_format_before_transition(keys: &KeysRef<'_>, format: &str) -> bool
    ensures { result ≡ list_any (has_format format.now) keys.now }
{
    for key in keys.iter() {
        if format == key.format() {
            return true;
        }
    }
    false
}

// Whether two keys have one format. If one tag stated both, `is_common` says so, and then nothing is compared.
#[inline(always)]
fn have_transition_keys_one_format(one: &KeyRef<'_>, other: &KeyRef<'_>, is_common: bool) -> bool
    requires { is_common ≡ true → without_iv one.now ≡ without_iv other.now }
    ensures { result ≡ bytes_eq one.now.format other.now.format }
{
    is_common || one.format() == other.format()
}

// Whether `new` has the formats of `old` in front, each at its place. At the places `same` both have the same key, but for
// its initialisation vector.
fn transition_keeps_formats_in_front(old: &KeysRef<'_>, new: &KeysRef<'_>, same: KeyPlaces) -> bool
    requires { AreSameAt same old.now new.now }
    ensures { result ≡ true → keeps_formats old.now new.now ≡ true }
{
    let (mut others, mut places) = (new.iter(), same);
    for key in old.iter() {
        let Some(other) = others.next() else {
            return false;
        };
        if !have_transition_keys_one_format(&key, &other, places.holds_first()) {
            return false;
        }
        places = places.later();
    }
    true
}

fn transition_keeps_each_format(old: &KeysRef<'_>, new: &KeysRef<'_>) -> bool
    ensures { result ≡ keeps_formats old.now new.now }
{
    for key in old.iter() {
        if !has_format_before_transition(new, key.format()) {
            return false;
        }
    }
    true
}

/// Whether each format among the keys `old` is one among `new` too. If not, the tags between them state METHOD=NONE
/// (RFC 8216, section 4.3.2.4). At the places `same` both have the same key, but for its initialisation vector.
pub fn keeps_formats(old: &KeysRef<'_>, new: &KeysRef<'_>, same: KeyPlaces) -> bool
    requires { AreSameAt same old.now new.now }
    ensures { result ≡ keeps_formats old.now new.now }
{
    // Mostly each format is compared with one other alone, or with none: long ones cost much.
    transition_keeps_formats_in_front(old, new, same) || transition_keeps_each_format(old, new)
}

fn is_key_among_stitched(keys: &KeysRef<'_>, key: &KeyRef<'_>) -> bool
    ensures { result ≡ list_any (same_key key.now) keys.now }
{
    for other in keys.iter() {
        if is_same_key(key, &other) {
            return true;
        }
    }
    false
}

/// Whether `key` is not one of `keys`, in all its parts.
pub fn is_new_key(keys: &KeysRef<'_>, key: &KeyRef<'_>) -> bool
    ensures { result ≡ is_new_key keys.now key.now }
{
    !is_key_among_stitched(keys, key)
}

fn transition_tag_of_key(key: &KeyRef<'_>) -> Result<KeyTag, AllocError>
    ensures { IfOk result (λ tag. tag ≡ KeyTag.Set key.now) }
{
    Ok(KeyTag::Set(key.to_key()?))
}

// A tag for each key that is not among the old ones as it is.
fn transition_tags_of_new_keys(
    alloc: Global,
    old: &KeysRef<'_>,
    new: &KeysRef<'_>,
) -> Result<Vec<KeyTag>, AllocError>
    ensures { IfOk result
        (λ tags. tags.items ≡ map KeyTag.Set (filter (is_new_key old.now) new.now)) }
{
    let mut tags = Vec::new(alloc);
    for key in new.iter() {
        if is_new_key(old, &key) {
            tags.push(transition_tag_of_key(&key)?)?;
        }
    }
    Ok(tags)
}

// The end of all keys, and a tag for each of these.
fn transition_tags_after_end(alloc: Global, keys: &KeysRef<'_>) -> Result<Vec<KeyTag>, AllocError>
    ensures { IfOk result (λ tags. tags.items ≡ KeyTag.End ∷ map KeyTag.Set keys.now) }
{
    let mut tags = Vec::new(alloc);
    tags.push(KeyTag::End)?;
    for key in keys.iter() {
        tags.push(transition_tag_of_key(&key)?)?;
    }
    Ok(tags)
}

fn transition_tags_between(
    alloc: Global,
    old: &KeysRef<'_>,
    new: &KeysRef<'_>,
) -> Result<Vec<KeyTag>, AllocError>
    ensures { IfOk result (λ tags. tags.items ≡ transition old.now new.now) }
{
    if keeps_formats(old, new, KeyPlaces::none()) {
        return transition_tags_of_new_keys(alloc, old, new);
    }
    transition_tags_after_end(alloc, new)
}

/// The key tags that lead from the keys `old` to the keys `new`, each sorted by format with one key for each (RFC
/// 8216, section 4.3.2.4). If a format ends: METHOD=NONE, and every key of `new`; else each key of `new` that isn't
/// in `old`. `OutOfMemory` only if an allocation fails.
pub fn transition(
    alloc: Global,
    old: &KeysRef<'_>,
    new: &KeysRef<'_>,
) -> Result<Vec<KeyTag>, StitchFault>
    ensures tags { IfOk result (λ tags. tags.items ≡ transition old.now new.now) }

    // It counts nothing.
    ensures memory { IfErr result (λ e. e ≡ StitchFault.OutOfMemory) }

    // After these tags exactly the new keys are in force.
    ensures leads { IfOk result (λ tags.
        are_sorted old.now ≡ true → are_sorted new.now ≡ true → after_tags old.now tags.items ≡ new.now) }
{
    let tags = transition_tags_between(alloc, old, new)?;
    Ok(tags)
}
