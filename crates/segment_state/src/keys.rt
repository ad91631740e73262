//! The keys in force (RFC 8216, 4.3.2.4 and 5.2).
ghost use Rattle.std.specs.Prelude.{◌≡◌, ◌≤◌, ◌==◌, ℕ, true, false, Ok, IfErr, IfOk, OnOk, length};
ghost use Rattle.std.specs.List.{position_or_len};
ghost use Rattle.playlist_model.specs.InCommon.{AreSameAt, is_place_of};
ghost use Rattle.playlist_model.specs.LookBack.{has_format, is_before, without_format};
ghost use Rattle.playlist_model.specs.Refusals.{GivesOrPlaylistFault, RefusesByPlaylistFault};
ghost use Rattle.segment_state.specs.Inner.Tags.{with_key};

use playlist_model::{FaultKind, Key, KeyPlaces, Keys, MAX_FORMATS};
use std::alloc::Global;

// The place of the first key of a greater format.
fn place_of_key_in_reader_state(keys: &[Key], key: &Key) -> usize
    ensures place { result ≡ position_or_len (is_before key.now) keys.now }
    ensures within { result ≤ length keys.now }
{
    keys.iter()
        .take_while(|other| !key.is_before(*other))
        .count()
}

// How many keys are of another format.
fn count_of_other_keys_in_reader_state(keys: &[Key], format: &str) -> usize
    ensures { result ≡ length (without_format format.now keys.now) }
{
    keys.iter()
        .filter(|other| format != other.format.as_str())
        .count()
}

fn remove_key_format_in_reader_state(keys: &mut Vec<Key>, format: &str)
    ensures { keys.new.items ≡ without_format format.now keys.old.items }
{
    keys.retain(|other| format != other.format.as_str());
}

// The place of the first key of this format.
fn place_of_format_in_reader_state(keys: &[Key], format: &str) -> usize
    ensures { result ≡ position_or_len (has_format format.now) keys.now }
{
    keys.iter()
        .take_while(|other| format != other.format.as_str())
        .count()
}

// The places at which keys stay as they are if one takes the place of another: all except its own. If a key was put between
// others, those after it move, and none is known to stay.
fn places_kept_in_reader_state(place: usize, replaced: usize, is_replaced: bool) -> KeyPlaces
    ensures { (other : ℕ) → is_place_of result other ≡ true
        → (is_replaced ≡ true) × (place ≡ replaced) × ((other == place) ≡ false) }
{
    if is_replaced && place == replaced {
        return KeyPlaces::all_except(place);
    }
    KeyPlaces::none()
}

#[tactic(auto, using(crate::proofs::KeyLemmas::insert_key_at, crate::proofs::KeyLemmas::length_put))]
// Puts `key` in its place, in place of the one of its format (RFC 8216, section 4.3.2.4), and answers at which places the keys are
// those of before. `TooMany` if 17 formats would be in force.
fn put_key_in_reader_state(keys: &mut Vec<Key>, key: Key) -> Result<KeyPlaces, FaultKind>
    ensures ok { OnOk result (with_key key keys.old.items ≡ Ok keys.new.items) }
    ensures same { IfOk result (λ same. AreSameAt same keys.old.items keys.new.items) }
    ensures err { IfErr result (λ e. RefusesByPlaylistFault e (with_key key keys.old.items)) }
{
    if count_of_other_keys_in_reader_state(keys.as_slice(), key.format.as_str()) >= MAX_FORMATS {
        return Err(FaultKind::TooMany);
    }
    let replaced = place_of_format_in_reader_state(keys.as_slice(), key.format.as_str());
    let length = keys.len();
    remove_key_format_in_reader_state(keys, key.format.as_str());
    let is_replaced = keys.len() + 1 == length;
    let place = place_of_key_in_reader_state(keys.as_slice(), &key);
    // (the key of its format, if there was one, has left room)
    keys.insert(place, key)?;
    Ok(places_kept_in_reader_state(place, replaced, is_replaced))
}

/// Keys in force after a tag.
#[derive(Drop)]
pub struct KeysAfter {
    /// The keys.
    pub keys: Keys,
    /// The places at which they are the keys of before, but for their initialisation vectors.
    pub same: KeyPlaces,
}

/// The `keys` in force with `key`, which takes the place of the one of its format (RFC 8216, section 4.3.2.4).
/// `TooMany` if 17 formats would be in force; `OutOfMemory` only if an allocation fails.
pub fn keys_in_reader_state_with(
    alloc: Global,
    keys: &Keys,
    key: Key,
) -> Result<KeysAfter, FaultKind>
    ensures keys { GivesOrPlaylistFault (λ after. after.keys) result (with_key key keys.now) }
    ensures same { IfOk result (λ after. AreSameAt after.same keys.now after.keys) }
{
    let mut listed = keys.to_vec(alloc)?;
    let same = put_key_in_reader_state(&mut listed, key)?;
    let keys = Keys::from_vec(alloc, listed)?;
    Ok(KeysAfter { keys, same })
}
