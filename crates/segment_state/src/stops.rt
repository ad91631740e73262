//! What stands after a segment, so that lines which were read before can go on there after others.
ghost use Rattle.std.specs.Prelude.{◌≡◌, ◌+◌, ◌^◌, ◌<◌, ◌≤◌, true, false, IfOk, OnErr, MatchOption, Some, None};
ghost use Rattle.segment_state.specs.Continued.{IsBetween, IsStop, IsReached, stopped_at};
ghost use Rattle.segment_state.specs.Inner.Running.{taken_at};
ghost use Rattle.segment_state.specs.Views.{extent_after};

use crate::{Part, ReaderState};
use playlist_model::{
    InitSection, KeyPlaces, Keys, MAX_SEGMENTS, Shared, are_same_keys, is_same_init_section,
};
use std::alloc::AllocError;
use std::marker::Model;

/// What stands after a segment.
#[derive(Drop)]
pub struct Stop {
    number: u64,
    discontinuity: u64,
    keys: Keys,
    init_section: Option<Shared<InitSection>>,
    last: Option<Part>,
}

impl Model for Stop {
    ghost use Rattle.segment_state.specs.Continued.{Stop};
    ghost use Rattle.segment_state.specs.Views.{extent_after};

    ghost Value = { Stop };

    ghost view = { λ a. record { number = a.number; discontinuity = a.discontinuity; keys = a.keys; init_section = a.init_section; extent = extent_after a.last } };
}

#[tactic(auto, using(crate::proofs::EqualParts::keys_are))]
fn are_equal_keys_in_reader_state(one: &Keys, other: &Keys) -> bool
    ensures { result ≡ true → one.now ≡ other.now }
{
    are_same_keys(&one.lent(), &other.lent())
}

#[tactic(auto, using(crate::proofs::EqualParts::some_init_section))]
fn are_equal_init_sections_in_reader_state(
    one: &Option<Shared<InitSection>>,
    other: &Option<Shared<InitSection>>,
) -> bool
    ensures { result ≡ true → one.now ≡ other.now }
{
    match (one, other) {
        (Some(one), Some(other)) => is_same_init_section(one, other),
        (None, None) => true,
        _ => false,
    }
}

#[tactic(auto, using(crate::proofs::EqualParts::same_extent))]
fn is_equal_last_part(one: &Part, other: &Part) -> bool
    ensures { result ≡ true → extent_after (Some one.now) ≡ extent_after (Some other.now) }
{
    if one.uri.as_str() != other.uri.as_str() {
        return false;
    }
    if one.byte_range.length != other.byte_range.length {
        return false;
    }
    one.byte_range.offset == other.byte_range.offset
}

fn are_equal_last_parts(one: &Option<Part>, other: &Option<Part>) -> bool
    ensures { result ≡ true → extent_after one.now ≡ extent_after other.now }
{
    match (one, other) {
        (Some(one), Some(other)) => is_equal_last_part(one, other),
        (None, None) => true,
        _ => false,
    }
}

fn copied_last_part(part: &Option<Part>) -> Result<Option<Part>, AllocError>
    ensures { IfOk result (λ copy. extent_after copy ≡ extent_after part.now) }
{
    let Some(part) = part else {
        return Ok(None);
    };
    let uri = part.uri.clone()?;
    Ok(Some(Part {
        uri,
        byte_range: part.byte_range,
    }))
}

impl<'a> ReaderState<'a> {
    // Whether no tag of the next segment stands.
    fn is_between(&self) -> bool
        ensures { result ≡ true → IsBetween self.now.standing }
    {
        if self.durations.is_due() {
            return false;
        }
        if self.byte_range.is_some() {
            return false;
        }
        if self.program_date_time.is_some() {
            return false;
        }
        self.discontinuities == 0
    }

    /// What stands here, if no tag of the next segment does.
    pub fn stop(&self) -> Result<Option<Stop>, AllocError>
        ensures { IfOk result
            (λ stop. MatchOption stop (Unit {0}) (λ stop. IsStop self.now.standing stop)) }
    {
        if !self.is_between() {
            return Ok(None);
        }
        let Some(number) = self.next_number() else {
            return Ok(None);
        };
        Ok(Some(Stop {
            number,
            discontinuity: self.discontinuity_number(),
            keys: self.segments.keys().clone()?,
            init_section: self.segments.init_section().clone()?,
            last: copied_last_part(&self.last)?,
        }))
    }

    /// Whether the state is that of `stop`, between two segments. Takes no memory.
    pub fn stands_at(&self, stop: &Stop) -> bool
        ensures { result ≡ true → IsStop self.now.standing stop.now }
    {
        if !self.is_between() {
            return false;
        }
        let Some(number) = self.next_number() else {
            return false;
        };
        if number != stop.number {
            return false;
        }
        if self.discontinuity_number() != stop.discontinuity {
            return false;
        }
        if !are_equal_keys_in_reader_state(self.segments.keys(), &stop.keys) {
            return false;
        }
        if !are_equal_init_sections_in_reader_state(
            self.segments.init_section(),
            &stop.init_section,
        ) {
            return false;
        }
        are_equal_last_parts(&self.last, &stop.last)
    }

    // Takes what stands at a stop, over the first numbers that its playlist states.
    fn take_stop(
        &mut self,
        media_count: u64,
        discontinuity_count: u64,
        keys: Keys,
        init_section: Option<Shared<InitSection>>,
        last: Option<Part>,
    )
        requires few { media_count ≤ MAX_SEGMENTS }
        requires room { self.old.standing.discontinuity_sequence + discontinuity_count < 2 ^ 64 }
        ensures { self.new
            ≡ taken_at self.old media_count discontinuity_count keys init_section (extent_after last) }
    {
        self.media_count = media_count;
        self.discontinuity_count = discontinuity_count;
        self.discontinuities = 0;
        self.durations.end();
        self.byte_range = None;
        self.program_date_time = None;
        self.segments.set_keys(keys, KeyPlaces::none());
        self.segments
            .set_init_section(init_section, KeyPlaces::none());
        self.last = last;
    }

    /// Goes to `stop`, a later place, with what is in force there. False if the first numbers of this playlist don't
    /// lead there. Fails only if an allocation fails. The state is as it was after either.
    pub fn go_to(&mut self, stop: &Stop) -> Result<bool, AllocError>
        ensures reached { IfOk result
            (λ done. done ≡ true
            → IsReached self.old.standing stop.now
            × (self.new ≡ record self.old { standing = stopped_at self.old.standing stop.now })) }
        ensures kept { IfOk result (λ done. done ≡ false → self.new ≡ self.old) }
        ensures failed { OnErr result (self.new ≡ self.old) }
    {
        let Some(media_count) = stop.number.checked_sub(self.media_sequence) else {
            return Ok(false);
        };
        if media_count > MAX_SEGMENTS {
            return Ok(false);
        }
        let Some(discontinuity_count) = stop.discontinuity.checked_sub(self.discontinuity_sequence)
        else {
            return Ok(false);
        };
        let keys = stop.keys.clone()?;
        let init_section = stop.init_section.clone()?;
        let last = copied_last_part(&stop.last)?;
        self.take_stop(media_count, discontinuity_count, keys, init_section, last);
        Ok(true)
    }
}
