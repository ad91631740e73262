//! The only key in force, and the front of its line: most segments of an encrypted playlist state the key of the one before, but
//! for its initialisation vector (RFC 8216, section 5.2).
ghost use Rattle.std.specs.Prelude.{◌≡◌, Some, None, true, false, IfOk, IfSome, string_bytes};
ghost use Rattle.fixed_duration.specs.Appended.{Appends};
ghost use Rattle.playlist_model.specs.declared.Key.{Key};
ghost use Rattle.playlist_model.specs.InCommon.{key_at, without_iv};
ghost use Rattle.playlist_write.specs.Inner.KeyParts.{HasKeyFront, IsOnlyKey, LeadsOn};
ghost use Rattle.playlist_write.specs.Inner.Owed.{key_line};

use crate::digits::write_quote_and_iv;
use crate::keys::{is_key_line_ended_by_iv, write_key_line, write_key_line_front};
use crate::lines::write_line_feed;
use playlist_model::{KeyRef, KeysRef};
use std::alloc::{AllocError, Global};
use std::marker::Model;

/// The only key in force, if it is known, and what stands before the initialisation vector in its line, once that line came again.
#[derive(Drop)]
pub struct LastKey<'a> {
    alloc: Global,
    // The key, but for its initialisation vector.
    key: Option<KeyRef<'a>>,
    iv: Option<u128>,
    front: Option<String>,
}

impl<'a> Model for LastKey<'a> {
    ghost use Rattle.std.specs.Prelude.{Option, IfSome, option_map, string_bytes};
    ghost use Rattle.playlist_model.specs.declared.Key.{Key};
    ghost use Rattle.playlist_write.specs.Inner.KeyParts.{HasKeyFront, with_iv};

    ghost Value = { Option Key };

    ghost view = { λ a. option_map (with_iv a.iv) a.key };

    ghost invariant = { λ a. IfSome a.key (λ key. IfSome a.front (λ front. HasKeyFront key (string_bytes front))) };
}

#[tactic(auto, using(crate::proofs::TagLines::key_front))]
// What stands before the initialisation vector in the line of a key, if that line ends with it.
fn written_key_front(alloc: Global, key: &KeyRef<'_>) -> Result<Option<String>, AllocError>
    ensures { IfOk result (λ front. IfSome front (λ front. HasKeyFront key.now (string_bytes front))) }
{
    if !is_key_line_ended_by_iv(key) {
        return Ok(None);
    }
    let mut front = String::new(alloc);
    write_key_line_front(&mut front, key)?;
    Ok(Some(front))
}

impl<'a> LastKey<'a> {
    /// No key is known.
    pub fn new(alloc: Global) -> LastKey<'a>
        ensures { result ≡ None }
    {
        LastKey {
            alloc,
            key: None,
            iv: None,
            front: None,
        }
    }

    /// Keeps the key of `keys`, which are in force now, if there is one alone.
    #[inline(never)]
    pub fn keep(&mut self, keys: &KeysRef<'a>)
        ensures { IsOnlyKey self.new keys.now }
    {
        self.front = None;
        match keys.only() {
            Some(key) => {
                self.iv = key.iv();
                self.key = Some(key);
            }
            None => self.key = None,
        }
    }

    /// Appends to `out` the tag that leads from the key in force to that of `keys` (RFC 8216, section 4.3.2.4), which is kept then.
    /// Both are the same but for their initialisation vectors. Answers false, and appends nothing, if it isn't known that there
    /// is one key alone before and after. Fails only if an allocation fails.
    #[inline(never)]
    pub fn push_next(&mut self, out: &mut String, keys: KeysRef<'_>) -> Result<bool, AllocError>
        requires { (key : Key) → self.old ≡ Some key → key_at 0 keys ≡ Some (without_iv key) }
        ensures pushed { IfOk result
            (λ pushed. pushed ≡ true
            → LeadsOn self.old self.new keys.entry (string_bytes out.old) (string_bytes out.new)) }
        ensures unpushed { IfOk result
            (λ pushed. pushed ≡ false → string_bytes out.new ≡ string_bytes out.old) }
    {
        let Some(_) = &self.key else {
            return Ok(false);
        };
        let Some(key) = keys.only() else {
            return Ok(false);
        };
        let iv = key.iv();
        if iv == self.iv {
            return Ok(true);
        }
        self.iv = iv;
        self.push_line(out, &key, iv)?;
        Ok(true)
    }

    // Appends the line of the last key, whose initialisation vector this is.
    #[inline(always)]
    fn push_line(
        &mut self,
        out: &mut String,
        key: &KeyRef<'_>,
        iv: Option<u128>,
    ) -> Result<(), AllocError>
        requires key { self.old ≡ Some key.now }
        requires vector { iv ≡ key.now.iv }
        ensures text { Appends result out.old out.new (key_line key.now) }
        ensures last { self.new ≡ self.old }
    {
        if let Some(front) = &self.front {
            if let Some(iv) = iv {
                out.push_str(front.as_str())?;
                write_quote_and_iv(out, iv)?;
                return write_line_feed(out);
            }
        }
        self.push_whole_line(out, key, iv)
    }

    // The same, and keeps the front of that line if it ends with the initialisation vector.
    #[inline(never)]
    fn push_whole_line(
        &mut self,
        out: &mut String,
        key: &KeyRef<'_>,
        iv: Option<u128>,
    ) -> Result<(), AllocError>
        requires key { self.old ≡ Some key.now }
        requires vector { iv ≡ key.now.iv }
        ensures text { Appends result out.old out.new (key_line key.now) }
        ensures last { self.new ≡ self.old }
    {
        self.front = written_key_front(self.alloc, key)?;
        write_key_line(out, key, iv)
    }
}
