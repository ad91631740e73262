//! Owners of a shared list of segments, each of which stands for one of them.
ghost use Rattle.std.specs.Prelude.{◌≡◌, ◌<◌, [], ◌∷◌, IfOk, IfErr, MatchOption, List, length, drop};
ghost use Rattle.playlist_model.specs.InCommon.{HaveInCommon};
ghost use Rattle.playlist_model.specs.Segments.{Segment};

use crate::{InCommon, SegmentRef, Segments, Shared};
use std::alloc::AllocError;
use std::marker::Model;

/// A segment of a shared list, of which it is an owner: a copy of it takes no memory. To a contract it is that segment.
#[derive(Drop)]
pub struct Member {
    list: Shared<Segments>,
    place: usize,
    ghost within: { place < length list },
}

impl Model for Member {
    ghost use Rattle.playlist_model.specs.Segments.{Segment};
    ghost use Rattle.playlist_model.specs.Members.{value_at};

    ghost Value = { Segment };

    ghost view = { λ a. value_at a.list a.place a.within };
}

impl Member {
    #[tactic(auto, using(crate::proofs::MemberLists::value_got))]
    /// The segment, lent.
    #[inline(always)]
    pub fn get(&self) -> SegmentRef<'_>
        ensures { result ≡ self.now }
    {
        self.list.get(self.place)
    }
}

impl Clone for Member {
    ghost is_clone = { λ a b. b ≡ a };

    fn clone(&self) -> Result<Member, AllocError>
        ensures { IfOk result (λ member. member ≡ self.now) }
    {
        let list = self.list.clone()?;
        Ok(Member {
            list,
            place: self.place,
        })
    }
}

/// The segments of a shared list from a place on, one after the other.
#[derive(Drop)]
pub struct Members<'a> {
    list: &'a Shared<Segments>,
    place: usize,
    is_bare: bool,
}

impl<'a> Model for Members<'a> {
    ghost use Rattle.std.specs.Prelude.{List, drop};
    ghost use Rattle.playlist_model.specs.Segments.{Segment};

    ghost Value = { List Segment };

    ghost view = { λ a. drop a.place a.list.now };
}

impl<'a> Members<'a> {
    /// The segments of `list` from `place` on, from 0; none past the end.
    pub fn from_place(list: &'a Shared<Segments>, place: usize) -> Members<'a>
        ensures { result ≡ drop place list.now }
    {
        Members {
            list,
            place,
            is_bare: list.is_bare(),
        }
    }

    /// How many segments are left.
    pub fn len(&self) -> usize
        ensures { result ≡ length self.now }
    {
        self.list.len().saturating_sub(self.place)
    }

    /// What the second segment has in common with the first; nothing if there is no second one.
    #[inline(always)]
    pub fn second_in_common(&self) -> InCommon
        ensures { (before now : Segment) (later : List Segment) → self.now ≡ before ∷ (now ∷ later) → HaveInCommon result before now }
    {
        if self.is_bare {
            return InCommon::nothing();
        }
        let (_, left) = self.list.as_slice().split_at(self.place);
        left.second_in_common()
    }

    /// The next segment, if there is one. Takes no memory, and fails only if a list would have more than 2^64 - 1 owners;
    /// then all are still to come.
    pub fn next(&mut self) -> Result<Option<Member>, AllocError>
        ensures next { IfOk result
            (λ next. MatchOption next ((self.old ≡ []) × (self.new ≡ []))
            (λ member. self.old ≡ member ∷ self.new)) }
        ensures refused { IfErr result (λ _. self.new ≡ self.old) }
    {
        if self.place >= self.list.len() {
            return Ok(None);
        }
        let list = self.list.clone()?;
        let place = self.place;
        self.place += 1;
        Ok(Some(Member { list, place }))
    }
}
