//! Keys that are in force together (RFC 8216, sections 4.3.2.4 and 5.2).
ghost use Rattle.std.specs.Prelude.{◌≡◌, ◌==◌, ◌∷◌, [], false, IfOk, MatchOption, map, length, IsTrue};
ghost use Rattle.std.specs.Str.{is_utf8};
ghost use Rattle.std.specs.List.{list_any};
ghost use Rattle.playlist_model.specs.EffectiveKeys.{effective_key, key_under};
ghost use Rattle.playlist_model.specs.KeysHeld.{keys_held};
ghost use Rattle.playlist_model.specs.LookBack.{is_before};
ghost use Rattle.playlist_model.specs.Reading.{key_needs_iv};

use crate::{Items, Key, OtherAttributes, Shared};
use std::alloc::{AllocError, Global};
use std::marker::Model;

impl Key {
    /// Whether this key is before `other`: the keys in force are sorted by the bytes of their format.
    pub fn is_before(&self, other: &Key) -> bool
        ensures { result ≡ is_before self.now other.now }
    {
        self.format.as_str() < other.format.as_str()
    }
}

// The IV of `key` (RFC 8216, section 5.2): the Media Sequence Number, if the key is of the format `identity` and
// states none.
fn effective_iv(key: &Key, media_sequence: u64) -> Option<u128>
    ensures { result ≡ (effective_key media_sequence key.now).iv }
{
    if key.iv.is_none() && key.format.as_str() == "identity" {
        return Some(u128::from(media_sequence));
    }
    key.iv
}

/// A key in force, lent by its list: as its tag states it, or as it decrypts one segment.
#[derive(Drop)]
pub struct KeyRef<'a> {
    stated: &'a Key,
    media_sequence: Option<u64>,
}

impl<'a> Model for KeyRef<'a> {
    ghost use Rattle.playlist_model.specs.declared.Key.{Key};
    ghost use Rattle.playlist_model.specs.EffectiveKeys.{key_under};

    ghost Value = { Key };

    ghost view = { λ a. key_under a.media_sequence a.stated.now };
}

impl<'a> KeyRef<'a> {
    #[tactic(auto, using(crate::proofs::KeysUnder::format_stays))]
    /// KEYFORMAT.
    pub fn format(&self) -> &'a str
        ensures { result.now ≡ self.now.format }
    {
        self.stated.format.as_str()
    }

    #[tactic(auto, using(crate::proofs::KeysUnder::method_stays))]
    /// METHOD.
    pub fn method(&self) -> &'a str
        ensures { result.now ≡ self.now.method }
    {
        self.stated.method.as_str()
    }

    #[tactic(auto, using(crate::proofs::KeysUnder::uri_stays))]
    /// The resource of the key.
    pub fn uri(&self) -> &'a str
        ensures text { result.now ≡ self.now.uri }
        ensures utf8 { IsTrue (is_utf8 self.now.uri) }
    {
        self.stated.uri.as_str()
    }

    /// The initialisation vector: as the tag states it, or the segment's Media Sequence Number if an `identity` key
    /// states none (section 5.2).
    pub fn iv(&self) -> Option<u128>
        ensures { result ≡ self.now.iv }
    {
        match self.media_sequence {
            Some(number) => effective_iv(self.stated, number),
            None => self.stated.iv,
        }
    }

    #[tactic(auto, using(crate::proofs::KeysUnder::others_stay))]
    /// All other attributes, in their order, as they are spelled.
    pub fn other_attributes(&self) -> &'a OtherAttributes
        ensures { result.now ≡ self.now.other_attributes }
    {
        &self.stated.other_attributes
    }

    #[tactic(auto, using(crate::proofs::KeysUnder::format_stays))]
    /// Whether this key is before `other`, as [`Key::is_before`] says.
    pub fn is_before(&self, other: &KeyRef<'_>) -> bool
        ensures { result ≡ is_before self.now other.now }
    {
        self.stated.is_before(other.stated)
    }

    #[tactic(auto, using(crate::proofs::KeysUnder::all_stay))]
    /// A copy, which shares its texts. Takes no memory.
    pub fn to_key(&self) -> Result<Key, AllocError>
        ensures { IfOk result (λ key. key ≡ self.now) }
    {
        Ok(Key {
            format: self.stated.format.clone()?,
            method: self.stated.method.clone()?,
            uri: self.stated.uri.clone()?,
            iv: self.iv(),
            other_attributes: self.stated.other_attributes.clone()?,
        })
    }
}

// How keys are held.
#[derive(Drop)]
enum Held {
    // No key.
    Clear,
    // Keys as their tags state them.
    Stated(Shared<Items<Key>>),
    // The same, as they decrypt the segment of this media sequence number.
    Under(Shared<Items<Key>>, u64),
}

#[tactic(auto, using(crate::proofs::KeysUnder::stated_keys))]
// Keys as their tags state them, or under a number if there is one.
fn keys_held_under_number(keys: Shared<Items<Key>>, media_sequence: Option<u64>) -> Held
    ensures { keys_held result ≡ map (key_under media_sequence) keys }
{
    match media_sequence {
        Some(number) => Held::Under(keys, number),
        None => Held::Stated(keys),
    }
}

/// The keys in force, one for each format, sorted by format. The keys of all segments under the same tags are one list with
/// several owners: an IV that no tag states is told when it is asked for (section 5.2).
#[derive(Drop)]
pub struct Keys {
    held: Held,
}

impl Model for Keys {
    ghost use Rattle.std.specs.Prelude.{List};
    ghost use Rattle.playlist_model.specs.declared.Key.{Key};
    ghost use Rattle.playlist_model.specs.KeysHeld.{keys_held};

    ghost Value = { List Key };

    ghost view = { λ a. keys_held a.held };
}

impl Keys {
    /// No keys. Takes no memory.
    pub fn none() -> Keys
        ensures { result ≡ [] }
    {
        Keys { held: Held::Clear }
    }

    /// The list of `keys`. Fails only if an allocation fails, and then drops them.
    pub fn from_vec(alloc: Global, keys: Vec<Key>) -> Result<Keys, AllocError>
        ensures { IfOk result (λ k. k ≡ keys.items) }
    {
        if keys.is_empty() {
            return Ok(Keys::none());
        }
        let held = Held::Stated(Shared::new(alloc, Items::from_vec(keys))?);
        Ok(Keys { held })
    }

    #[tactic(auto, using(crate::proofs::KeysUnder::stated_keys))]
    /// The keys, lent.
    #[inline(always)]
    pub fn lent(&self) -> KeysRef<'_>
        ensures { result ≡ self.now }
    {
        KeysRef {
            keys: self,
            media_sequence: None,
        }
    }

    /// The keys, lent as they decrypt the segment whose Media Sequence Number is `media_sequence`: a key of the format
    /// identity that states no IV has that number as its IV (RFC 8216, section 5.2).
    #[inline(always)]
    pub fn lent_under(&self, media_sequence: u64) -> KeysRef<'_>
        ensures { result ≡ map (effective_key media_sequence) self.now }
    {
        KeysRef {
            keys: self,
            media_sequence: Some(media_sequence),
        }
    }

    /// How many keys there are.
    #[inline(always)]
    pub fn len(&self) -> usize
        ensures { result ≡ length self.now }
    {
        match &self.held {
            Held::Clear => 0,
            Held::Stated(keys) => keys.len(),
            Held::Under(keys, _) => keys.len(),
        }
    }

    /// A vector of copies, which share their texts. Fails only if an allocation fails.
    pub fn to_vec(&self, alloc: Global) -> Result<Vec<Key>, AllocError>
        ensures { IfOk result (λ v. v.items ≡ self.now) }
    {
        let mut copies = Vec::new(alloc);
        for key in self.lent().iter() {
            copies.push(key.to_key()?)?;
        }
        Ok(copies)
    }
}

/// Keys in force, lent: as their tags state them, or as they decrypt one segment.
#[derive(Drop)]
pub struct KeysRef<'a> {
    keys: &'a Keys,
    media_sequence: Option<u64>,
}

impl<'a> Model for KeysRef<'a> {
    ghost use Rattle.std.specs.Prelude.{List, map};
    ghost use Rattle.playlist_model.specs.declared.Key.{Key};
    ghost use Rattle.playlist_model.specs.EffectiveKeys.{key_under};

    ghost Value = { List Key };

    ghost view = { λ a. map (key_under a.media_sequence) a.keys.now };
}

impl<'a> KeysRef<'a> {
    /// The same keys, lent once more.
    #[inline(always)]
    pub fn again(&self) -> KeysRef<'a>
        ensures { result ≡ self.now }
    {
        KeysRef {
            keys: self.keys,
            media_sequence: self.media_sequence,
        }
    }

    #[tactic(auto, using(crate::proofs::KeysUnder::long_keys))]
    /// How many keys there are.
    #[inline(always)]
    pub fn len(&self) -> usize
        ensures { result ≡ length self.now }
    {
        self.keys.len()
    }

    /// Whether there is no key.
    #[inline(always)]
    pub fn is_empty(&self) -> bool
        ensures { result ≡ (length self.now == 0) }
    {
        self.len() == 0
    }

    #[tactic(auto, using(crate::proofs::KeysUnder::under_stays, crate::proofs::KeysUnder::stated_under))]
    /// The keys, one after the other.
    #[inline(always)]
    pub fn iter(&self) -> KeysIter<'a>
        ensures { result ≡ self.now }
    {
        let (keys, media_sequence) = (self.keys, self.media_sequence);
        match &keys.held {
            Held::Clear => KeysIter {
                stated: &[],
                media_sequence,
            },
            Held::Stated(keys) => KeysIter {
                stated: keys.as_slice(),
                media_sequence,
            },
            Held::Under(keys, own) => KeysIter {
                stated: keys.as_slice(),
                media_sequence: Some(*own),
            },
        }
    }

    /// The key, if there is one alone.
    pub fn only(&self) -> Option<KeyRef<'a>>
        ensures { MatchOption result ((length self.now == 1) ≡ false) (λ key. self.now ≡ key ∷ []) }
    {
        let mut keys = self.iter();
        let key = keys.next()?;
        match keys.next() {
            Some(_) => None,
            None => Some(key),
        }
    }

    #[tactic(auto, using(crate::proofs::KeysUnder::under_stays, crate::proofs::KeysUnder::stated_under))]
    /// The keys, which then have an owner more. Takes no memory, and fails only if they have too many owners.
    pub fn to_keys(&self) -> Result<Keys, AllocError>
        ensures { IfOk result (λ keys. keys ≡ self.now) }
    {
        let (keys, media_sequence) = (self.keys, self.media_sequence);
        let held = match &keys.held {
            Held::Clear => Held::Clear,
            Held::Stated(keys) => keys_held_under_number(keys.clone()?, media_sequence),
            Held::Under(keys, own) => Held::Under(keys.clone()?, *own),
        };
        Ok(Keys { held })
    }
}

impl Clone for Keys {
    ghost is_clone = { λ a b. b ≡ a };

    fn clone(&self) -> Result<Keys, AllocError>
        ensures { IfOk result (λ keys. keys ≡ self.now) }
    {
        let held = match &self.held {
            Held::Clear => Held::Clear,
            Held::Stated(keys) => Held::Stated(keys.clone()?),
            Held::Under(keys, number) => Held::Under(keys.clone()?, *number),
        };
        Ok(Keys { held })
    }
}

/// Keys in force, one after the other.
#[derive(Drop)]
pub struct KeysIter<'a> {
    stated: &'a [Key],
    media_sequence: Option<u64>,
}

impl<'a> Model for KeysIter<'a> {
    ghost use Rattle.std.specs.Prelude.{List, map};
    ghost use Rattle.playlist_model.specs.declared.Key.{Key};
    ghost use Rattle.playlist_model.specs.EffectiveKeys.{key_under};

    ghost Value = { List Key };

    ghost view = { λ a. map (key_under a.media_sequence) a.stated.now };
}

impl<'a> KeysIter<'a> {
    /// Those that are still to come, beside this one.
    pub fn rest(&self) -> KeysIter<'a>
        ensures { result ≡ self.now }
    {
        KeysIter {
            stated: self.stated,
            media_sequence: self.media_sequence,
        }
    }
}

impl<'a> Iterator for KeysIter<'a> {
    ghost use Rattle.std.specs.Iterator.{YieldsFirst, item_count};

    type Item = KeyRef<'a>;

    ghost next_gives = { YieldsFirst (λ rest. rest) };

    ghost remaining = { item_count (λ rest. rest) };

    #[inline(always)]
    fn next(&mut self) -> Option<KeyRef<'a>> {
        let (stated, later) = self.stated.split_first()?;
        self.stated = later;
        Some(KeyRef {
            stated,
            media_sequence: self.media_sequence,
        })
    }
}

fn key_needs_iv(key: &KeyRef<'_>) -> bool
    ensures { result ≡ key_needs_iv key.now }
{
    key.method() == "AES-128" && key.iv().is_none()
}

/// Whether one of `keys` can't decrypt an initialisation section: its method is AES-128 and it states no IV. A
/// segment's Media Sequence Number stands in for a missing IV, and an initialisation section has none (RFC 8216,
/// section 4.3.2.5).
pub fn is_iv_needed(keys: &KeysRef<'_>) -> bool
    ensures { result ≡ list_any key_needs_iv keys.now }
{
    for key in keys.iter() {
        if key_needs_iv(&key) {
            return true;
        }
    }
    false
}
