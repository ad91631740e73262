//! The date ranges of a text, as far as it is read. One that stands word for word in the last text too isn't read again.
ghost use Rattle.std.specs.Prelude.{◌≡◌, ◌++◌, [], true, false, length, take, List, MatchResult, IfOk, OnOk};
ghost use Rattle.playlist_model.specs.Reading.{limited};
ghost use Rattle.playlist_model.specs.Refusals.{RefusesByPlaylistFault};
ghost use Rattle.playlist_model.specs.Said.{date_range_said};
ghost use Rattle.playlist_parse.specs.Inner.ParsedDateRanges.{Adds, AreSaidByAttributes, HasAttributesAt};

use crate::date_range::date_range_line_said;
use crate::source::values_up_to_read_place;
use playlist_model::{DateRange, FaultKind, Items, Shared};
use std::alloc::{AllocError, Global};
use std::marker::Model;

// So many known date ranges are looked at, at most, for the first one that stands again.
const FEW: usize = 8;

/// Date ranges that were read: each is what its attributes say.
#[derive(Drop)]
pub struct Known<'a> {
    list: &'a [Shared<DateRange>],
}

impl<'a> Model for Known<'a> {
    ghost use Rattle.std.specs.Prelude.{List};
    ghost use Rattle.playlist_model.specs.declared.DateRange.{DateRange};
    ghost use Rattle.playlist_parse.specs.Inner.ParsedDateRanges.{AreSaidByAttributes};

    ghost Value = { List DateRange };

    ghost view = { λ a. a.list.now };

    ghost invariant = { λ a. AreSaidByAttributes a.list.now };
}

impl<'a> Known<'a> {
    /// The date ranges of `list`.
    pub fn of(list: &'a [Shared<DateRange>]) -> Known<'a>
        requires { AreSaidByAttributes list.now }
    {
        Known { list }
    }

    /// No date range.
    pub fn none() -> Known<'a> {
        Known { list: &[] }
    }
}

// Puts these after a list, which is an owner of each then.
fn share_date_ranges_read(
    list: &mut Vec<Shared<DateRange>>,
    more: &[Shared<DateRange>],
) -> Result<(), AllocError>
    ensures { OnOk result (list.new.items ≡ list.old.items ++ more.now) }
{
    let mut rest = more;
    while let Some((date_range, later)) = rest.split_first() {
        list.push(date_range.clone()?)?;
        rest = later;
    }
    Ok(())
}

// Whether the date range at a place has these attributes, word for word.
fn date_range_line_stands_at(known: &[Shared<DateRange>], place: usize, rest: &str) -> bool
    ensures { result ≡ true → HasAttributesAt known.now place rest.now }
{
    match known.get(place) {
        Some(one) => one.attributes.as_str() == rest,
        None => false,
    }
}

#[tactic(auto, using(crate::proofs::ParsedDateRanges::said_later))]
// The known date ranges from the first of the next few that has these attributes, or all of them.
fn date_range_lines_from_next<'a>(
    known: &'a [Shared<DateRange>],
    rest: &str,
) -> &'a [Shared<DateRange>]
    requires { AreSaidByAttributes known.now }
    ensures { AreSaidByAttributes result.now }
{
    let mut left = known;
    for _ in 0..FEW {
        let Some((one, later)) = left.split_first() else {
            return known;
        };
        if one.attributes.as_str() == rest {
            return left;
        }
        left = later;
    }
    known
}

// The known date ranges, so many of which are met: before one is, some that don't stand again may be passed over.
fn date_range_lines_to_meet<'a>(
    known: &'a [Shared<DateRange>],
    met: usize,
    rest: &str,
) -> &'a [Shared<DateRange>]
    requires { AreSaidByAttributes known.now }
    ensures said { AreSaidByAttributes result.now }
    ensures met { take met result.now ≡ take met known.now }
{
    if met > 0 {
        return known;
    }
    date_range_lines_from_next(known, rest)
}

/// The date ranges of a text as far as it is read.
#[derive(Drop)]
pub struct ParsedDateRanges<'a> {
    // Known ones, the first of which are met in the text: they have no owner more before the text is read.
    known: &'a [Shared<DateRange>],
    met: usize,
    // Those that were read after them.
    list: Vec<Shared<DateRange>>,
}

impl<'a> Model for ParsedDateRanges<'a> {
    ghost use Rattle.std.specs.Prelude.{List, ◌++◌, take};
    ghost use Rattle.playlist_model.specs.declared.DateRange.{DateRange};

    ghost Value = { List DateRange };

    ghost use Rattle.playlist_parse.specs.Inner.ParsedDateRanges.{AreSaidByAttributes};

    ghost view = { λ a. take a.met a.known.now ++ a.list.items };

    ghost invariant = { λ a. AreSaidByAttributes a.known.now };
}

impl<'a> ParsedDateRanges<'a> {
    /// None yet. Those that are `known` may come.
    pub fn new(alloc: Global, known: Known<'a>) -> ParsedDateRanges<'a>
        ensures { result ≡ [] }
    {
        let Known { list } = known;
        ParsedDateRanges {
            known: list,
            met: 0,
            list: Vec::new(alloc),
        }
    }

    /// How many they are.
    pub fn len(&self) -> usize
        ensures { result ≡ length self.now }
    {
        values_up_to_read_place(self.known, self.met).len() + self.list.len()
    }

    // Takes the known date range that has these attributes, if it comes next.
    fn meets(&mut self, rest: &str) -> bool
        ensures met { result ≡ true → Adds rest.now self.old self.new }
        ensures kept { result ≡ false → self.new ≡ self.old }
    {
        if self.list.len() > 0 {
            return false;
        }
        let known = date_range_lines_to_meet(self.known, self.met, rest);
        if !date_range_line_stands_at(known, self.met, rest) {
            return false;
        }
        self.known = known;
        self.met += 1;
        true
    }

    /// Takes the date range that `rest` states, which comes after `#EXT-X-DATERANGE:` (RFC 8216, section 4.3.2.7). The
    /// faults are those of `date_range_line_said`.
    pub fn push(&mut self, alloc: Global, rest: &str) -> Result<(), FaultKind>
        ensures { MatchResult result (λ _. Adds rest.now self.old self.new)
            (λ e. RefusesByPlaylistFault e (date_range_said limited rest.now)) }
    {
        if self.meets(rest) {
            return Ok(());
        }
        let date_range = date_range_line_said(alloc, rest)?;
        self.list.push(Shared::new(alloc, date_range)?)?;
        Ok(())
    }

    /// Puts `more` after them, each with an owner more. Fails only if an allocation fails.
    pub fn append_shared(&mut self, more: &[Shared<DateRange>]) -> Result<(), AllocError>
        ensures { OnOk result (self.new ≡ self.old ++ more.now) }
    {
        share_date_ranges_read(&mut self.list, more)
    }

    /// A list of them. Fails only if an allocation fails.
    pub fn into_items(self, alloc: Global) -> Result<Items<Shared<DateRange>>, AllocError>
        ensures { IfOk result (λ items. items ≡ self.entry) }
    {
        let ParsedDateRanges { known, met, list } = self;
        if met == 0 {
            return Ok(Items::from_vec(list));
        }
        let mut list = list;
        let mut all = Vec::with_capacity(alloc, met.saturating_add(list.len()))?;
        share_date_ranges_read(&mut all, values_up_to_read_place(known, met))?;
        all.append(&mut list)?;
        Ok(Items::from_vec(all))
    }
}
