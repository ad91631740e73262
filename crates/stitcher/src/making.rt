//! The stitched list of marked segments, as it is made.
ghost use Rattle.std.specs.Prelude.{◌≡◌, ◌+◌, ◌++◌, ◌<◌, ◌≤◌, ◌^◌, ℕ, List, Bool, true, false, [], ◌∷◌, map, take, drop, length, None, OnOk, IfOk, IfErr};
ghost use Rattle.std.specs.List.{list_all};
ghost use Rattle.pod_store.specs.Marks.{Mark};
ghost use Rattle.pod_store.specs.Rules.{ad_keeps};
ghost use Rattle.stitcher.specs.Stitched.{ad_piece, ad_pieces, next_stitched_numbers, pieces_of_ads};
ghost use Rattle.stitcher.specs.StitchedSegments.{AreDecided, KnowCommon, KnowPrevious, KnowRuns, KnowsRun, RefusesNumber, item_fits, stitched_segments};
ghost use Rattle.pod_store.specs.Store.{pod_for};
ghost use Rattle.stitcher.specs.Making.{is_same_stitched_run, unmarked_piece, pod_with};
ghost use Rattle.stitcher.specs.Inner.Making.{IsUnder, Passes, PutsPieces, after_front, front_pieces, is_in_discontinuity, stitched_run_goes_on_to_last, kept_on, last_of_one_discontinuity, last_of_stitched_run, nothing_made, numbers_fit, numbers_with, stitched_part_after, part_after_one, stitched_part_at, part_here, pieces_in_part, pushed, pieces_of_rest, stitched_part_shows_next, steps_from, under_ad, unmarked_front_to_stitch, whole_from};
ghost use Rattle.std.specs.Option.{option_copied};
ghost use Rattle.stitcher.specs.RunPods.{AreLeftOf};
ghost use Rattle.stitcher.specs.Stretches.{segment_items};
ghost use Rattle.stitcher.specs.Written.{written_segment};

use crate::copies::stitched_init_section;
use crate::ends::{Ends, Rest};
use crate::fault::StitchFault;
use crate::marked::{MarkedSegment, Numbers};
use crate::run_pods::RunPods;
use crate::stitched_list::{StitchedList, Stretch};
use fixed_duration::Nanos;
use playlist_model::{GrowingSegments, KeyPlaces, SegmentParts, Shared, Text};
use pod_store::{Ad, Pod, PodSegment, PodStore};
use std::alloc::Global;
use std::marker::Model;
use std::mem;

/// The last item of a list.
#[derive(Clone, Copy)]
pub struct Last {
    /// What it is written with.
    pub numbers: Numbers,
    /// Its discontinuity number at the origin, if it is one of the origin's.
    pub origin: Option<u64>,
}

/// The part of a pod that is shown.
#[derive(Clone, Copy)]
pub struct Part {
    /// How many segments are passed over.
    pub skip: usize,
    /// Whether all are shown that stand after them.
    pub whole: bool,
    /// How long those that are shown are still to last, if not all are.
    pub left: u64,
    /// Whether none is shown any more.
    pub done: bool,
}

/// A stitched list, as far as it is made.
#[derive(Drop)]
pub struct Stitching<'a> {
    first: Numbers,
    last: Option<Last>,
    stretches: Vec<Stretch<'a>>,
    // The segments of ads after the last stretch.
    ads: GrowingSegments,
}

impl<'a> Model for Stitching<'a> {
    ghost use Rattle.std.specs.Prelude.{◌++◌, map};
    ghost use Rattle.stitcher.specs.Inner.Making.{Made};
    ghost use Rattle.stitcher.specs.Stretches.{KeptKnowCommon, stitched_ad_item, stretches_items};

    ghost Value = { Made };

    ghost view = { λ a. record { first = a.first; last = a.last; items = stretches_items a.stretches.items ++ map stitched_ad_item a.ads.segments; keys = a.ads.keys; init_section = a.ads.init_section } };

    ghost invariant = { λ a. KeptKnowCommon a.stretches.items };
}

fn stitched_numbers_of(media: u64, discontinuity: u64, steps: u64) -> Numbers
    ensures value { result
        ≡ record { media_sequence = media; discontinuity_sequence = discontinuity; discontinuities = steps } }
    ensures fit { numbers_fit result ≡ true }
{
    Numbers {
        media_sequence: media,
        discontinuity_sequence: discontinuity,
        discontinuities: steps,
    }
}

// The numbers of an item after one with `numbers`, with `steps` discontinuities between (RFC 8216, sections 4.3.3.2
// and 4.3.3.3).
fn next_stitched_numbers(numbers: Numbers, steps: u64) -> Result<Numbers, StitchFault>
    ensures ok { IfOk result (λ n. (n ≡ next_stitched_numbers numbers steps) × (numbers_fit n ≡ true)) }
    ensures err { IfErr result
        (λ e. (e ≡ StitchFault.NumberRange) × (numbers_fit (next_stitched_numbers numbers steps) ≡ false)) }
{
    let Some(media) = numbers.media_sequence.checked_add(1) else {
        return Err(StitchFault::NumberRange);
    };
    let Some(discontinuity) = numbers.discontinuity_sequence.checked_add(steps) else {
        return Err(StitchFault::NumberRange);
    };
    Ok(stitched_numbers_of(media, discontinuity, steps))
}

// Whether each of these segments has this discontinuity number, and there is one. The last is looked at first.
fn have_one_discontinuity(discontinuity: u64, segments: &[MarkedSegment]) -> bool
    ensures some { result ≡ true → 0 < length segments.now }
    ensures one { result ≡ true → list_all (is_in_discontinuity discontinuity) segments.now ≡ true }
{
    let Some((last, _)) = segments.split_last() else {
        return false;
    };
    if last.segment.get().discontinuity_sequence() != discontinuity {
        return false;
    }
    let mut rest = segments;
    while let Some((here, later)) = rest.split_first() {
        if here.segment.get().discontinuity_sequence() != discontinuity {
            return false;
        }
        rest = later;
    }
    true
}

// The last of so many segments that follow one with these numbers, and have its discontinuity number at the origin.
fn last_of_one_discontinuity(
    numbers: Numbers,
    discontinuity: u64,
    count: usize,
) -> Result<Last, StitchFault>
    requires { numbers_fit numbers ≡ true }
    ensures ok { IfOk result
        (λ last. (last ≡ last_of_one_discontinuity numbers discontinuity count) × (numbers.media_sequence + count < 2 ^ 64)) }
    ensures err { IfErr result
        (λ e. (e ≡ StitchFault.NumberRange) × (2 ^ 64 ≤ numbers.media_sequence + count)) }
{
    let Some(media) = numbers.media_sequence.checked_add(count as u64) else {
        return Err(StitchFault::NumberRange);
    };
    Ok(Last {
        numbers: stitched_numbers_of(media, numbers.discontinuity_sequence, 0),
        origin: Some(discontinuity),
    })
}

// The same, by the numbers of each of them.
fn last_of_stitched_walk(
    numbers: Numbers,
    first: &MarkedSegment,
    later: &[MarkedSegment],
) -> Result<Last, StitchFault>
    requires { numbers_fit numbers ≡ true }
    ensures ok { IfOk result
        (λ last. (last ≡ last_of_stitched_run numbers first.now later.now)
        × (list_all item_fits (segment_items numbers (first.now ∷ later.now)) ≡ true)) }
    ensures err { IfErr result
        (λ e. (e ≡ StitchFault.NumberRange)
        × (list_all item_fits (segment_items numbers (first.now ∷ later.now)) ≡ false)) }
{
    let mut numbers = numbers;
    let mut here = first;
    let mut rest = later;
    while let Some((next, later)) = rest.split_first() {
        let before = here.segment.get().discontinuity_sequence();
        let steps = next
            .segment
            .get()
            .discontinuity_sequence()
            .saturating_sub(before);
        numbers = next_stitched_numbers(numbers, steps)?;
        here = next;
        rest = later;
    }
    Ok(Last {
        numbers,
        origin: Some(here.segment.get().discontinuity_sequence()),
    })
}

#[tactic(auto, using(crate::proofs::OneDiscontinuity::last_of_one, crate::proofs::OneDiscontinuity::one_fits, crate::proofs::OneDiscontinuity::one_unfit))]
// The last of kept segments that follow each other, the first of which has these numbers. Most have one discontinuity number.
fn last_of_stitched_run(
    numbers: Numbers,
    first: &MarkedSegment,
    later: &[MarkedSegment],
) -> Result<Last, StitchFault>
    requires { numbers_fit numbers ≡ true }
    ensures ok { IfOk result
        (λ last. (last ≡ last_of_stitched_run numbers first.now later.now)
        × (list_all item_fits (segment_items numbers (first.now ∷ later.now)) ≡ true)) }
    ensures err { IfErr result
        (λ e. (e ≡ StitchFault.NumberRange)
        × (list_all item_fits (segment_items numbers (first.now ∷ later.now)) ≡ false)) }
{
    let discontinuity = first.segment.get().discontinuity_sequence();
    if have_one_discontinuity(discontinuity, later) {
        return last_of_one_discontinuity(numbers, discontinuity, later.len());
    }
    last_of_stitched_walk(numbers, first, later)
}

// How many segments in front have no mark.
fn unmarked_front_to_stitch(segments: &[MarkedSegment]) -> usize
    ensures count { result ≡ unmarked_front_to_stitch segments.now }
    ensures within { result ≤ length segments.now }
{
    let mut count: usize = 0;
    let mut rest = segments;
    while let Some((here, later)) = rest.split_first() {
        if here.mark.is_some() {
            return count;
        }
        count += 1;
        rest = later;
    }
    count
}

// The part that is shown of what stands after a segment of this duration.
fn stitched_part_after(part: &Part, duration: Nanos) -> Part
    ensures { result ≡ part_after_one part.now duration }
{
    if part.skip > 0 {
        return Part {
            skip: part.skip - 1,
            whole: part.whole,
            left: part.left,
            done: part.done,
        };
    }
    Part {
        skip: 0,
        whole: part.whole,
        left: part.left.saturating_sub(duration.0),
        done: part.done || (!part.whole && part.left <= duration.0),
    }
}

fn stitched_part_shows_next(part: &Part) -> bool
    ensures { result ≡ stitched_part_shows_next part.now }
{
    part.skip == 0 && !part.done
}

/// Whether `marked` goes on the run of the segment before it, whose mark is `previous`: both have a mark, of one break.
pub fn stitched_run_goes_on(marked: &MarkedSegment, previous: &Option<Shared<Text>>) -> bool
    requires { KnowsRun previous.now marked.now }
    ensures { result ≡ is_same_stitched_run marked.now.mark previous.now }
{
    previous.is_some() && marked.goes_on
}

// Whether a run goes on to the last of these segments.
fn stitched_run_goes_on_to_last(mark: &Option<Shared<Text>>, later: &[MarkedSegment]) -> bool
    requires { KnowRuns mark.now later.now }
    ensures { result ≡ stitched_run_goes_on_to_last mark.now later.now }
{
    let mut previous = mark;
    let mut rest = later;
    while let Some((here, later)) = rest.split_first() {
        if !stitched_run_goes_on(here, previous) {
            return false;
        }
        previous = &*here.mark;
        rest = later;
    }
    true
}

// A whole pod, from this place on.
fn stitched_part_from_place(place: usize) -> Part
    ensures { result ≡ whole_from place }
{
    Part {
        skip: place,
        whole: true,
        left: 0,
        done: false,
    }
}

// What is shown of the pod of a run that begins with a segment of this mark, before these.
fn stitched_part_at(ends: &Ends, mark: &Option<Shared<Text>>, later: &[MarkedSegment]) -> Part
    requires { KnowRuns mark.now later.now }
    ensures { result ≡ stitched_part_at ends.now.so_far mark.now later.now }
{
    let Some(length) = ends.so_far else {
        return stitched_part_from_place(0);
    };
    if !stitched_run_goes_on_to_last(mark, later) {
        return stitched_part_from_place(0);
    }
    Part {
        skip: 0,
        whole: false,
        left: length.0,
        done: false,
    }
}

// The front of the URI of an ad's segment, which the segments after it may share, and the rest. A whole resource shares nothing. A
// part of one shares all of its URI, since the next part is mostly of the same resource.
fn uri_parts_of_ad_segment(segment: &PodSegment) -> (&str, &str)
    ensures { result.0.now ++ result.1.now ≡ segment.now.uri }
{
    let uri = segment.uri.as_str();
    if segment.byte_range.is_none() {
        return ("", uri);
    }
    (uri, "")
}

impl<'a> Stitching<'a> {
    // An empty list.
    fn new(alloc: Global, first: Numbers) -> Stitching<'a>
        ensures { result ≡ nothing_made first }
    {
        Stitching {
            first,
            last: None,
            stretches: Vec::new(alloc),
            ads: GrowingSegments::new(alloc),
        }
    }

    // How many discontinuities come before a kept segment of this discontinuity number (RFC 8216, section 4.3.2.3);
    // of the first segment none are counted.
    fn steps_to(&self, discontinuity: u64) -> u64
        ensures { result ≡ steps_from self.now.last discontinuity }
    {
        let Some(last) = self.last else {
            return 0;
        };
        match last.origin {
            Some(before) => discontinuity.saturating_sub(before),
            None => 1,
        }
    }

    // The numbers of the next item.
    fn numbers_with(&self, steps: u64) -> Result<Numbers, StitchFault>
        requires { numbers_fit self.now.first ≡ true }
        ensures ok { IfOk result
            (λ n. (n ≡ numbers_with self.now.first self.now.last steps) × (numbers_fit n ≡ true)) }
        ensures err { IfErr result
            (λ e. (e ≡ StitchFault.NumberRange)
            × (numbers_fit (numbers_with self.now.first self.now.last steps) ≡ false)) }
    {
        match self.last {
            None => Ok(self.first),
            Some(last) => next_stitched_numbers(last.numbers, steps),
        }
    }

    // From here on the segments of ads are those of `ad`.
    fn begin_ad(&mut self, alloc: Global, ad: &Ad) -> Result<(), StitchFault>
        ensures ok { OnOk result (self.new ≡ under_ad self.old ad.now) }
        ensures err { IfErr result (λ e. e ≡ StitchFault.OutOfMemory) }
    {
        self.ads.set_keys(ad.keys.clone()?, KeyPlaces::none());
        self.ads
            .set_init_section(stitched_init_section(alloc, ad)?, KeyPlaces::none());
        Ok(())
    }

    // Puts a segment of the ad at the end, with these numbers. It has no time of its own.
    fn push_ad(&mut self, segment: &PodSegment, numbers: Numbers) -> Result<(), StitchFault>
        ensures ok { OnOk result
            ((mark : Mark) (first : Bool) (ad : Ad) → IsUnder self.old ad → self.new
            ≡ pushed self.old (written_segment (ad_piece mark first ad segment.now) numbers) None numbers None) }
        ensures under { OnOk result ((ad : Ad) → IsUnder self.old ad → IsUnder self.new ad) }
        ensures err { IfErr result (λ e. e ≡ StitchFault.OutOfMemory) }
    {
        let (uri_front, uri_rest) = uri_parts_of_ad_segment(segment);
        self.ads.set_uri_front(uri_front)?;
        self.ads.push(&SegmentParts {
            media_sequence: numbers.media_sequence,
            discontinuity_sequence: numbers.discontinuity_sequence,
            discontinuities: numbers.discontinuities,
            uri_rest,
            byte_range: segment.byte_range,
            duration: segment.duration,
            title: "",
            program_date_time: None,
        })?;
        self.last = Some(Last {
            numbers,
            origin: None,
        });
        Ok(())
    }

    // Ends the stretch with kept segments, the first of which has these numbers.
    fn push_kept(
        &mut self,
        alloc: Global,
        kept: &'a [MarkedSegment],
        numbers: Numbers,
        last: Last,
    ) -> Result<(), StitchFault>
        requires { KnowCommon None kept.now }
        ensures ok { OnOk result (self.new ≡ kept_on self.old kept.now numbers last) }
        ensures err { IfErr result (λ e. e ≡ StitchFault.OutOfMemory) }
    {
        let ads = mem::replace(&mut self.ads, GrowingSegments::new(alloc));
        self.stretches.push(Stretch {
            ads: ads.into_segments(),
            kept,
            numbers,
        })?;
        self.last = Some(last);
        Ok(())
    }

    // Puts segments of the origin at the end, which follow each other.
    fn keep(&mut self, alloc: Global, kept: &'a [MarkedSegment]) -> Result<(), StitchFault>
        requires fits { numbers_fit self.old.first ≡ true }
        requires common { KnowCommon None kept.now }
        ensures ok { OnOk result (PutsPieces self.old self.new (map unmarked_piece kept.now)) }
        ensures err { IfErr result
            (λ e. RefusesNumber e (Passes self.old (map unmarked_piece kept.now))) }
    {
        let Some((first, later)) = kept.split_first() else {
            return Ok(());
        };
        let steps = self.steps_to(first.segment.get().discontinuity_sequence());
        let numbers = self.numbers_with(steps)?;
        let last = last_of_stitched_run(numbers, first, later)?;
        self.push_kept(alloc, kept, numbers, last)
    }

    // Puts the unmarked segments in front of these at the end. Answers those after them.
    fn keep_front(
        &mut self,
        alloc: Global,
        segments: &'a [MarkedSegment],
    ) -> Result<&'a [MarkedSegment], StitchFault>
        requires fits { numbers_fit self.old.first ≡ true }
        requires common { KnowCommon None segments.now }
        ensures ok { OnOk result
            (PutsPieces self.old self.new
            (map unmarked_piece (take (unmarked_front_to_stitch segments.now) segments.now))) }
        ensures left { IfOk result
            (λ left. left.now ≡ drop (unmarked_front_to_stitch segments.now) segments.now) }
        ensures err { IfErr result
            (λ e. RefusesNumber e (Passes self.old
            (map unmarked_piece (take (unmarked_front_to_stitch segments.now) segments.now)))) }
    {
        let (kept, left) = segments.split_at(unmarked_front_to_stitch(segments));
        self.keep(alloc, kept)?;
        Ok(left)
    }

    // Puts `segment`, one of the ad, at the end, after a discontinuity if it is the `first` of its ad (RFC 8216,
    // section 4.3.2.3).
    fn put_segment(&mut self, segment: &PodSegment, first: bool) -> Result<(), StitchFault>
        requires { numbers_fit self.old.first ≡ true }
        ensures ok { OnOk result
            ((mark : Mark) (ad : Ad) → IsUnder self.old ad
            → PutsPieces self.old self.new (ad_piece mark first ad segment.now ∷ [])) }
        ensures under { OnOk result ((ad : Ad) → IsUnder self.old ad → IsUnder self.new ad) }
        ensures err { IfErr result
            (λ e. RefusesNumber e ((mark : Mark) (ad : Ad)
            → Passes self.old (ad_piece mark first ad segment.now ∷ []))) }
    {
        let numbers = self.numbers_with(u64::from(first))?;
        self.push_ad(segment, numbers)
    }

    // Puts a segment of the ad at the end, if it is shown. Answers the part of those after it.
    fn offer(&mut self, segment: &PodSegment, first: bool, part: &Part) -> Result<Part, StitchFault>
        requires { numbers_fit self.old.first ≡ true }
        ensures ok { OnOk result
            ((mark : Mark) (ad : Ad) → IsUnder self.old ad
            → PutsPieces self.old self.new (part_here part.now (ad_piece mark first ad segment.now))) }
        ensures under { OnOk result ((ad : Ad) → IsUnder self.old ad → IsUnder self.new ad) }
        ensures part { IfOk result (λ after. after ≡ part_after_one part.now segment.now.duration) }
        ensures err { IfErr result
            (λ e. RefusesNumber e ((mark : Mark) (ad : Ad)
            → Passes self.old (part_here part.now (ad_piece mark first ad segment.now)))) }
    {
        if !stitched_part_shows_next(part) {
            return Ok(stitched_part_after(part, segment.duration));
        }
        self.put_segment(segment, first)?;
        Ok(stitched_part_after(part, segment.duration))
    }

    fn put_ad(&mut self, alloc: Global, ad: &Ad, part: Part) -> Result<Part, StitchFault>
        requires fits { numbers_fit self.old.first ≡ true }
        requires rules { ad_keeps ad.now ≡ true }
        ensures ok { OnOk result
            ((mark : Mark) → PutsPieces self.old self.new
            (pieces_in_part part (ad_pieces mark ad.now ad.now.segments))) }
        ensures part { IfOk result
            (λ after. (mark : Mark) → after
            ≡ stitched_part_after part (ad_pieces mark ad.now ad.now.segments)) }
        ensures err { IfErr result
            (λ e. RefusesNumber e ((mark : Mark)
            → Passes self.old (pieces_in_part part (ad_pieces mark ad.now ad.now.segments)))) }
    {
        let Some((first, later)) = ad.segments.as_slice().split_first() else {
            return Ok(part);
        };
        self.begin_ad(alloc, ad)?;
        let mut left = self.offer(first, true, &part)?;
        let mut rest = later;
        while let Some((segment, later)) = rest.split_first() {
            left = self.offer(segment, false, &left)?;
            rest = later;
        }
        Ok(left)
    }

    // Puts a part of a pod at the end.
    fn put_pod(&mut self, alloc: Global, pod: &Pod, part: Part) -> Result<(), StitchFault>
        requires { numbers_fit self.old.first ≡ true }
        ensures ok { OnOk result
            ((mark : Mark) → PutsPieces self.old self.new
            (pieces_in_part part (pieces_of_ads mark pod.now.ads))) }
        ensures err { IfErr result
            (λ e. RefusesNumber e ((mark : Mark)
            → Passes self.old (pieces_in_part part (pieces_of_ads mark pod.now.ads)))) }
    {
        let mut left = part;
        let mut rest = pod.ads();
        while let Some((ad, later)) = rest.split_first() {
            if left.done {
                return Ok(());
            }
            left = self.put_ad(alloc, ad, left)?;
            rest = later;
        }
        Ok(())
    }

    // Puts at the end what is shown of a break's pod, if it has one.
    fn put_break(&mut self, alloc: Global, pod: Option<&Pod>, part: Part) -> Result<(), StitchFault>
        requires { numbers_fit self.old.first ≡ true }
        ensures ok { OnOk result
            ((id : List ℕ) → PutsPieces self.old self.new
            (pieces_in_part part (pod_with id (option_copied pod.entry)))) }
        ensures err { IfErr result
            (λ e. RefusesNumber e ((id : List ℕ) → Passes self.old
            (pieces_in_part part (pod_with id (option_copied pod.entry))))) }
    {
        match pod {
            Some(pod) => self.put_pod(alloc, pod, part),
            None => Ok(()),
        }
    }

    // Puts the rest of a pod at the end.
    fn put_rest(
        &mut self,
        alloc: Global,
        rest: &Option<Rest>,
        store: &PodStore,
    ) -> Result<(), StitchFault>
        requires { numbers_fit self.old.first ≡ true }
        ensures ok { OnOk result
            (PutsPieces self.old self.new (pieces_of_rest store.now rest.now)) }
        ensures err { IfErr result
            (λ e. RefusesNumber e (Passes self.old (pieces_of_rest store.now rest.now))) }
    {
        let Some(rest) = rest else {
            return Ok(());
        };
        let part = stitched_part_from_place(rest.place);
        self.put_break(alloc, store.pod_for(rest.id.as_str()), part)
    }

    // Puts at the end what stands for the first of these after a segment of this mark, and, if it has no mark, for those
    // without one that follow it. Answers the segments after that.
    fn put_front(
        &mut self,
        alloc: Global,
        segments: &'a [MarkedSegment],
        previous: &Option<Shared<Text>>,
        pods: &mut RunPods<'_>,
        ends: &Ends,
    ) -> Result<&'a [MarkedSegment], StitchFault>
        requires fits { numbers_fit self.old.first ≡ true }
        requires runs { KnowRuns previous.now segments.now }
        requires common { KnowCommon None segments.now }
        requires left { AreLeftOf pods.old.marked segments.now }
        ensures ok { OnOk result
            (PutsPieces self.old self.new
            (front_pieces pods.old.store ends.now.so_far previous.now segments.now)) }
        ensures left { IfOk result (λ left. left.now ≡ after_front segments.now) }
        ensures err { IfErr result
            (λ e. RefusesNumber e (Passes self.old
            (front_pieces pods.old.store ends.now.so_far previous.now segments.now))) }
        ensures kept { pods.new ≡ pods.old }
    {
        let Some((marked, later)) = segments.split_first() else {
            return Ok(segments);
        };
        if marked.mark.is_none() {
            return self.keep_front(alloc, segments);
        }
        if stitched_run_goes_on(marked, previous) {
            return Ok(later);
        }
        let part = stitched_part_at(ends, &marked.mark, later);
        let pod = pods.pod_of_first(segments)?;
        self.put_break(alloc, pod, part)?;
        Ok(later)
    }

    // The list, once all is put.
    fn finish(self, alloc: Global) -> Result<StitchedList<'a>, StitchFault>
        requires { list_all item_fits self.items ≡ true }
        ensures ok { IfOk result (λ list. list ≡ self.entry.items) }
        ensures room { IfOk result (λ list. length list < 2 ^ 64) }
        ensures err { IfErr result (λ e. e ≡ StitchFault.OutOfMemory) }
    {
        let Stitching {
            first,
            last: _,
            mut stretches,
            ads,
        } = self;
        stretches.push(Stretch {
            ads: ads.into_segments(),
            kept: &[],
            numbers: first,
        })?;
        Ok(StitchedList::from_stretches(stretches)?)
    }
}

/// The items of the `marked` segments, in the order of a playlist, the first item with the numbers `first`. A rest of
/// a pod, as `ends` names it, comes first. Each run of one mark is replaced by the pod that its break has in `store`,
/// or by its due prefix if `ends` says that the last run is open.
///
/// `NumberRange` exactly if a number would pass 2^64 - 1 (RFC 8216, sections 4.3.3.2 and 4.3.3.3); `OutOfMemory` only
/// if an allocation fails.
///
/// ```text
/// the segments, with their marks:     s0    s1 of b1    s2 of b1    s3
/// the pod of b1 in the store:         one ad, of a0 and a1
/// the items, numbered from `first`:   s0    a0    a1    s3
/// ```
pub fn stitch<'a>(
    alloc: Global,
    marked: &'a [MarkedSegment],
    store: &PodStore,
    first: Numbers,
    ends: &Ends,
) -> Result<StitchedList<'a>, StitchFault>
    requires decided { AreDecided store.now marked.now }
    requires previous { KnowPrevious marked.now }
    ensures ok { IfOk result
        (λ v. (v ≡ stitched_segments store.now first ends.now marked.now)
        × (list_all item_fits v ≡ true)) }
    ensures room { IfOk result (λ v. length v < 2 ^ 64) }
    ensures err { IfErr result
        (λ e. RefusesNumber e (list_all item_fits
        (stitched_segments store.now first ends.now marked.now) ≡ false)) }
{
    let mut stitching = Stitching::new(alloc, first);
    stitching.put_rest(alloc, &ends.rest, store)?;
    let mut pods = RunPods::new(alloc, marked, store);
    let unmarked: Option<Shared<Text>> = None;
    let mut previous = &unmarked;
    let mut rest = marked;
    while let Some((here, _)) = rest.split_first() {
        rest = stitching.put_front(alloc, rest, previous, &mut pods, ends)?;
        previous = &*here.mark;
    }
    stitching.finish(alloc)
}
