//! The ID of a break, as the table of known breaks has it.
ghost use Rattle.std.specs.Prelude.{◌≡◌, IfOk, bytes_eq};
ghost use Rattle.std.proofs.Common.{ap};
ghost use Rattle.std.specs.Cmp.Lexicographic.{bytes_decides, nat_list_eq_equiv};
ghost use Rattle.std.specs.Cmp.{partial_equiv_from_equiv};
ghost use Rattle.std.specs.Hash as fed;

use indexmap::Equivalent;
use playlist_model::{Shared, Text};
use std::alloc::AllocError;
use std::hash::{Hash, Hasher};
use std::marker::Model;

/// The ID of a known break. Its date range, the table and each segment that it marks own one text, however long that is.
#[derive(Drop)]
pub struct BreakId {
    text: Shared<Text>,
}

impl Model for BreakId {
    ghost use Rattle.std.specs.Prelude.{List, ℕ};

    ghost Value = { List ℕ };

    ghost view = { λ a. a.text };
}

impl BreakId {
    /// The ID `text`, of which it is one more owner. Fails only if it has too many.
    pub fn new(text: &Shared<Text>) -> Result<BreakId, AllocError>
        ensures { IfOk result (λ id. id ≡ text.now) }
    {
        Ok(BreakId {
            text: text.clone()?,
        })
    }

    /// Its text, to be owned by others too.
    pub fn as_shared(&self) -> &Shared<Text>
        ensures { result.now ≡ self.now }
    {
        &self.text
    }

    /// Its characters.
    pub fn as_str(&self) -> &str
        ensures { result.now ≡ self.now }
    {
        self.text.as_str()
    }
}

impl PartialEq for BreakId {
    ghost eq = { bytes_eq };

    ghost laws = { partial_equiv_from_equiv nat_list_eq_equiv };

    fn eq(&self, other: &BreakId) -> bool {
        self.as_str() == other.as_str()
    }
}

impl Eq for BreakId {
    ghost laws = { nat_list_eq_equiv };
}

impl Hash for BreakId {
    ghost hash_input = { λ id. fed.str id };

    ghost respects_eq = { λ x y h. ap fed.str ((bytes_decides x y).0 h) };

    fn hash<H: Hasher>(&self, state: &mut H) {
        self.as_str().hash(state);
    }
}

impl Equivalent<BreakId> for &str {
    ghost equivalent = { λ query id. bytes_eq query.now id };

    ghost respects_hash = { λ query id h. ap fed.str ((bytes_decides query.now id).0 h) };

    ghost respects_eq = { λ query x y. nat_list_eq_equiv.congr query.now x y };

    fn equivalent(&self, key: &BreakId) -> bool {
        *self == key.as_str()
    }
}

impl Clone for BreakId {
    ghost is_clone = { λ a b. b ≡ a };

    fn clone(&self) -> Result<BreakId, AllocError>
        ensures { IfOk result (λ id. id ≡ self.now) }
    {
        BreakId::new(&self.text)
    }
}
