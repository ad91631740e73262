//! The IDs of the breaks of a decision file.
ghost use Rattle.std.specs.Prelude.{◌≡◌, ◌++◌, ◌∷◌, [], not, IfOk, if◌then◌else◌};
ghost use Rattle.pod_store.specs.Store.{is_one_of};

use indexmap::IndexSet;
use std::alloc::{AllocError, Global};
use std::hash::RandomState;
use std::marker::Model;

/// The IDs that came so far, each once, in their order. They are copies, so that the values that they stand in can be
/// dropped. The hash of the table has random keys, so that nobody who chooses IDs can choose ones that collide.
#[derive(Drop)]
pub struct BreakIdsSaid {
    ids: IndexSet<String, RandomState>,
}

impl Model for BreakIdsSaid {
    ghost use Rattle.std.specs.Prelude.{List, ℕ};
    ghost use Rattle.decision_files.specs.Inner.Ids.{ids_of};

    ghost Value = { List (List ℕ) };

    ghost view = { λ a. ids_of a.ids.keys };
}

impl BreakIdsSaid {
    /// No ID. `hashing`: the keys of the table's hash.
    pub fn new(alloc: Global, hashing: RandomState) -> BreakIdsSaid
        ensures { result ≡ [] }
    {
        BreakIdsSaid {
            ids: IndexSet::with_hasher(alloc, hashing),
        }
    }

    /// Inserts `id`, if it isn't there. True if it wasn't. Fails only if an allocation fails.
    pub fn insert(&mut self, alloc: Global, id: &str) -> Result<bool, AllocError>
        ensures first { IfOk result (λ first. first ≡ not (is_one_of self.old id.now)) }
        ensures ids { IfOk result
            (λ first. self.new ≡ (if first then self.old ++ id.now ∷ [] else self.old)) }
    {
        let key = String::from_str(alloc, id)?;
        Ok(self.ids.insert(key)?)
    }
}
