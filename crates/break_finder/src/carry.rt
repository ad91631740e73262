//! What a refresh adds to what is known.
ghost use Rattle.std.specs.Prelude.{◌≡◌, ◌||◌, true, ℕ, List, map, filter, fold, IfOk, OnOk, bytes_eq};
ghost use Rattle.std.specs.List.{list_any};
ghost use Rattle.std.specs.Option.{option_copied};
ghost use Rattle.indexmap.specs.IndexMap.{IsUnique};
ghost use Rattle.pod_store.specs.Store.{is_one_of};
ghost use Rattle.break_finder.specs.Breaks.{described_break_and_tag};
ghost use Rattle.break_finder.specs.Kept.{break_at};
ghost use Rattle.break_finder.specs.Inner.Kept.{break_kept_for, said_or_nothing, break_stands_with_ids, is_kept_with};
ghost use Rattle.break_finder.specs.Known.{is_tag_of, is_this_break};
ghost use Rattle.break_finder.specs.Inner.Known.{break_stands, with_tag, TagsSayNothingNew};

use crate::break_id::BreakId;
use crate::described::{
    Described, described_break_and_tag, nothing_said_of_break, says_nothing_new_of_break,
};
use crate::kept::{Breaks, break_said_for};
use indexmap::IndexMap;
use playlist_model::{DateRange, Shared};
use pod_store::IdSet;
use std::alloc::{AllocError, Global};
use std::hash::RandomState;

fn is_this_break(id: &str, other: Option<&str>) -> bool
    ensures { result ≡ is_this_break id.now (option_copied other.entry) }
{
    match other {
        Some(other) => id == other,
        None => false,
    }
}

// Notes the ID of a tag.
fn add_break_id<'a>(ids: &mut IdSet<'a>, tag: &'a DateRange) -> Result<(), AllocError>
    ensures { OnOk result ((id : List ℕ)
        → is_one_of ids.new id ≡ (is_one_of ids.old id || is_tag_of id tag.now)) }
{
    ids.add(tag.id.as_str())?;
    Ok(())
}

// The IDs of these tags.
fn break_ids_of<'a>(
    alloc: Global,
    hashing: RandomState,
    date_ranges: &'a [Shared<DateRange>],
) -> Result<IdSet<'a>, AllocError>
    ensures { IfOk result
        (λ ids. (id : List ℕ) → is_one_of ids id ≡ list_any (is_tag_of id) date_ranges.now) }
{
    let mut ids = IdSet::new(alloc, hashing);
    let mut rest = date_ranges;
    while let Some((tag, later)) = rest.split_first() {
        add_break_id(&mut ids, tag)?;
        rest = later;
    }
    Ok(ids)
}

fn break_stands_with_ids(ids: &IdSet<'_>, carried: Option<&str>, id: &str) -> bool
    ensures { result ≡ break_stands_with_ids ids.now (option_copied carried.entry) id.now }
{
    ids.contains(id) || is_this_break(id, carried)
}

// Forgets the breaks that are none of these IDs and are not carried.
fn keep_standing_breaks(kept: &mut Breaks, ids: &IdSet<'_>, carried: Option<&str>)
    ensures standing { kept.new.entries
        ≡ filter (is_kept_with ids.now (option_copied carried.entry)) kept.old.entries }
    ensures unique { IsUnique bytes_eq kept.new }
{
    kept.retain(
        |id: &BreakId, said: &mut Described| -> bool
            ensures { (result
                ≡ break_stands_with_ids ids.entry.now (option_copied carried.entry) id.now)
                × (said.new ≡ said.old) }
        { break_stands_with_ids(ids, carried, id.as_str()) },
    );
}

// What is said of a break so far.
fn said_of_break_so_far(breaks: &Breaks, id: &str) -> Described
    ensures { result ≡ said_or_nothing (break_kept_for id.now breaks.now.entries) }
{
    match break_said_for(breaks, id) {
        Some(said) => said,
        None => nothing_said_of_break(),
    }
}

// A tag of a break that is known says more of it; another break is known from now on.
fn add_break_tag(alloc: Global, breaks: &mut Breaks, tag: &DateRange) -> Result<(), AllocError>
    ensures { OnOk result (map break_at breaks.new.entries
        ≡ with_tag (map break_at breaks.old.entries) tag.now) }
{
    let id = tag.id.as_str();
    let said = described_break_and_tag(alloc, said_of_break_so_far(breaks, id), tag)?;
    let key = BreakId::new(&tag.id)?;
    breaks.insert(key, said)?;
    Ok(())
}

/// Adds to `breaks` what each of `date_ranges` says (RFC 8216, section 4.3.2.7), in their order. Fails only if an
/// allocation fails.
pub fn add_break_tags(
    alloc: Global,
    breaks: &mut Breaks,
    date_ranges: &[Shared<DateRange>],
) -> Result<(), AllocError>
    ensures { OnOk result (map break_at breaks.new.entries
        ≡ fold with_tag (map break_at breaks.old.entries) date_ranges.now) }
{
    let mut rest = date_ranges;
    while let Some((tag, later)) = rest.split_first() {
        add_break_tag(alloc, breaks, tag)?;
        rest = later;
    }
    Ok(())
}

// Whether this is a tag of this break, of which nothing is said that isn't said already.
fn is_break_tag_said(id: &str, said: &Described, tag: &DateRange) -> bool
    ensures id { result ≡ true → id.now ≡ tag.now.id }
    ensures said { result ≡ true → described_break_and_tag said.now tag.now ≡ said.now }
{
    if id != tag.id.as_str() {
        return false;
    }
    says_nothing_new_of_break(said, tag)
}

/// Whether each of `date_ranges` is a tag of the break at its place among `breaks`, and says nothing that isn't said of it
/// already. So it mostly is from refresh to refresh. Takes no memory.
pub fn are_break_tags_said(breaks: &Breaks, date_ranges: &[Shared<DateRange>]) -> bool
    ensures said { result ≡ true
        → TagsSayNothingNew (map break_at breaks.now.entries) date_ranges.now }
    ensures unique { IsUnique bytes_eq breaks.now }
{
    if breaks.len() != date_ranges.len() {
        return false;
    }
    let mut rest = date_ranges;
    for (id, said) in breaks {
        let Some((tag, later)) = rest.split_first() else {
            return false;
        };
        if !is_break_tag_said(id.as_str(), said, tag) {
            return false;
        }
        rest = later;
    }
    rest.is_empty()
}

/// Copies of those `breaks` that have a tag among `date_ranges`, or whose ID is `carried`. Fails only if an
/// allocation fails.
pub fn copy_standing_breaks(
    alloc: Global,
    breaks: &Breaks,
    date_ranges: &[Shared<DateRange>],
    carried: Option<&str>,
) -> Result<Breaks, AllocError>
    ensures standing { IfOk result
        (λ kept. map break_at kept.entries
        ≡ filter (break_stands date_ranges.now (option_copied carried.entry)) (map break_at breaks.now.entries)) }
    ensures unique { IfOk result (IsUnique bytes_eq) }
{
    // Before the first refresh nothing is known, and the IDs of what comes needn't be listed.
    if breaks.is_empty() {
        return Ok(IndexMap::with_hasher(alloc, *breaks.hasher()));
    }
    let ids = break_ids_of(alloc, *breaks.hasher(), date_ranges)?;
    let mut kept = breaks.clone()?;
    keep_standing_breaks(&mut kept, &ids, carried);
    Ok(kept)
}
