//! Sets of IDs.
ghost use Rattle.std.specs.Prelude.{◌≡◌, ◌++◌, ◌∷◌, ◌||◌, [], ℕ, List, not, bytes_eq, IfOk, OnOk, OnErr, if◌then◌else◌};
ghost use Rattle.pod_store.specs.Store.{is_one_of};

use indexmap::IndexSet;
use playlist_model::{Shared, Text};
use std::alloc::{AllocError, Global};
use std::hash::RandomState;
use std::marker::Model;

/// IDs, each once, in the order in which they were inserted. The hash of its table has random keys, so that nobody who
/// chooses IDs can choose ones that collide.
#[derive(Drop)]
pub struct IdSet<'a> {
    ids: IndexSet<&'a str, RandomState>,
}

impl<'a> Model for IdSet<'a> {
    ghost use Rattle.std.specs.Prelude.{List, ℕ};
    ghost use Rattle.pod_store.specs.IdSets.{texts_of};

    ghost Value = { List (List ℕ) };

    ghost view = { λ a. texts_of a.ids.keys };
}

impl<'a> IdSet<'a> {
    /// No ID. `hashing`: the keys of its hash.
    pub fn new(alloc: Global, hashing: RandomState) -> IdSet<'a>
        ensures { result ≡ [] }
    {
        IdSet {
            ids: IndexSet::with_hasher(alloc, hashing),
        }
    }

    /// Inserts `id`, if it isn't there. True if it wasn't. If an allocation fails the set is as it was.
    pub fn insert(&mut self, id: &'a str) -> Result<bool, AllocError>
        ensures first { IfOk result (λ first. first ≡ not (is_one_of self.old id.now)) }
        ensures ids { IfOk result
            (λ first. self.new ≡ (if first then self.old ++ id.now ∷ [] else self.old)) }
        ensures err { OnErr result (self.new ≡ self.old) }
    {
        Ok(self.ids.insert(id)?)
    }

    /// Whether `id` is one of them.
    pub fn contains(&self, id: &str) -> bool
        ensures { result ≡ is_one_of self.now id.now }
    {
        self.ids.contains(id)
    }

    #[tactic(auto, using(crate::proofs::IdSets::one_more))]
    /// Inserts `id`, if it isn't there. If an allocation fails the set is as it was.
    pub fn add(&mut self, id: &'a str) -> Result<(), AllocError>
        ensures { OnOk result ((other : List ℕ)
            → is_one_of self.new other ≡ (is_one_of self.old other || bytes_eq other id.now)) }
    {
        self.insert(id)?;
        Ok(())
    }

    /// The set of the IDs in `list`. `hashing`: the keys of its hash.
    pub fn of(
        alloc: Global,
        hashing: RandomState,
        list: &'a [Shared<Text>],
    ) -> Result<IdSet<'a>, AllocError>
        ensures { IfOk result (λ set. (id : List ℕ) → is_one_of set id ≡ is_one_of list.now id) }
    {
        let mut set = IdSet::new(alloc, hashing);
        let mut rest = list;
        while let Some((id, later)) = rest.split_first() {
            set.add(id.as_str())?;
            rest = later;
        }
        Ok(set)
    }
}
