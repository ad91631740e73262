//! The new segments of a refresh, with the breaks that they are marked with.
ghost use Rattle.std.specs.Prelude.{◌≡◌, ◌⊎◌, ◌+◌, ◌++◌, ◌∷◌, [], length, ℕ, ℤ, true, false, List, Option, option_map, IfOk, IfSome, OnOk, Some, None, is_some};
ghost use Rattle.std.specs.List.{All};
ghost use Rattle.std.specs.Option.{option_copied};
ghost use Rattle.playlist_model.specs.LookBack.{or_earlier};
ghost use Rattle.playlist_model.specs.Segments.{Segment};
ghost use Rattle.break_finder.specs.Entering.{entered};
ghost use Rattle.break_finder.specs.Places.{IsAt, IsPlaced, IsPlacedAt, entered_id};
ghost use Rattle.channel_spec.specs.Marking.{Moment, limits};
ghost use Rattle.channel_spec.specs.Successor.{has_init_sections};
ghost use Rattle.playlist_kept.specs.Kept.{playlist_in};
ghost use Rattle.stitcher.specs.Making.{is_same_stitched_run};
ghost use Rattle.stitcher.specs.declared.marked.MarkedSegment.{MarkedSegment as Held};
ghost use Rattle.stitcher.specs.StitchedSegments.{KnowCommon};
ghost use Rattle.stitcher.specs.Inner.StitchedSegments.{KnowAgainWithin};
ghost use Rattle.channel_window.specs.Marking.{Hint, next_id, mark_on, length_after};
ghost use Rattle.channel_window.specs.Inner.Terms.{entered_after};
ghost use Rattle.channel_window.specs.Inner.Marked.{AreMarked};
ghost use Rattle.channel_window.specs.Inner.Terms.{AreTerms, HasKnownTerms, HasStood, IsExtended, IsMarkedAgain, IsNoted, IsTold, StoodAt, HasItsTerms, window_run_length_capped_at, is_window_time_among, window_entrances, window_segment_stays_in};

use crate::state::Shown;
use crate::successor::successor_has_init_sections;
use break_finder::{EnteredBreak, Entrances, Knowledge, LastEntered, Stay, TimesWithin};
use fixed_duration::Nanos;
use playlist_kept::Read;
use playlist_model::{InCommon, Instant, Member, Members, Shared, Text};
use pod_store::PodStore;
use std::alloc::{AllocError, Global};
use std::marker::Model;
use stitcher::{MarkedSegment, SharedMark};
use timeline::{Beginnings, OptionalInstant};

/// The characters of `text`, if there is one.
pub fn mark_text_in_window(text: &Option<Shared<Text>>) -> Option<&str>
    ensures { option_copied result ≡ text.now }
{
    match text {
        Some(text) => Some(text.as_str()),
        None => None,
    }
}

/// Another owner of `text`, if there is one. Fails only if it has too many.
pub fn copied_window_mark(text: &Option<Shared<Text>>) -> Result<Option<Shared<Text>>, AllocError>
    ensures { IfOk result (λ t. t ≡ text.now) }
{
    match text {
        Some(text) => Ok(Some(text.clone()?)),
        None => Ok(None),
    }
}

// What is looked up of a break once for a run of it.
#[derive(Clone, Copy)]
struct Terms {
    // Until when segments stay in it.
    stay: Stay,
    // No more of its run's length counts: a nanosecond above its pod's total.
    most: u64,
}

// Whether a segment at an instant stays in the break of these terms; none do if there is no such break.
fn window_segment_stays_in(terms: &Option<Terms>, instant: Option<Instant>) -> bool
    ensures { result ≡ window_segment_stays_in terms.now instant }
{
    match terms {
        Some(terms) => terms.stay.holds(instant),
        None => false,
    }
}

// Whether an instant is one of these.
fn is_window_time_among(times: &Option<TimesWithin>, instant: Option<Instant>) -> bool
    ensures { result ≡ is_window_time_among times.now instant }
{
    match (times, instant) {
        (Some(times), Some(instant)) => times.holds(instant),
        _ => false,
    }
}

// As much of a run's length as counts by these terms, if it lasts for `duration` more than `before`.
fn window_run_length_capped_at(terms: &Option<Terms>, duration: Nanos, before: Nanos) -> Nanos
    ensures { result ≡ window_run_length_capped_at terms.now (duration + before) }
{
    match terms {
        Some(terms) => Nanos(duration.0.saturating_add(before.0).min(terms.most)),
        None => Nanos(0),
    }
}

// What is known of a break that was entered, by its place among those that can be.
#[derive(Clone, Copy)]
struct KnownBreak {
    place: usize,
    terms: Option<Terms>,
    // How many segments had been marked when it was entered last.
    at: usize,
}

// How far the marks are: the mark of the segment before, with the terms of its break, the last break entered, its place among those
// that can be, instants at which none is entered after that, how long the newest run has lasted, and what is known of the breaks
// that were entered, each at its place.
#[derive(Drop)]
struct Run {
    before: SharedMark,
    terms: Option<Terms>,
    entered: Option<Shared<Text>>,
    place: Option<usize>,
    quiet: Option<TimesWithin>,
    so_far: Nanos,
    known: Vec<Option<KnownBreak>>,
}

// What is known of the break at a place, if it was entered.
fn known_break_at(known: &[Option<KnownBreak>], place: usize) -> Option<KnownBreak>
    ensures place { IfSome result (λ k. k.place ≡ place) }
    ensures terms { (m : Moment) → All (HasKnownTerms m) known.now → IfSome result (λ k. HasKnownTerms m (Some k)) }
    ensures stood { (m : Moment) (done : List Held) → All (HasStood m done) known.now → IfSome result (λ k. HasStood m done (Some k)) }
{
    match known.get(place) {
        Some(Some(known)) if known.place == place => Some(*known),
        _ => None,
    }
}

// How many segments were marked since so many had been, or 0.
fn segments_since_entered(count: usize, at: usize) -> u32
    ensures { (result ≡ 0) ⊎ (result + at ≡ count) }
{
    match u32::try_from(count.saturating_sub(at)) {
        Ok(segments) => segments,
        Err(_) => 0,
    }
}

// Notes what is known of a break at its place.
fn note_known_break(
    known: &mut Vec<Option<KnownBreak>>,
    entered: KnownBreak,
) -> Result<(), AllocError>
    ensures terms { (m : Moment) → All (HasKnownTerms m) known.old.items → HasKnownTerms m (Some entered) → All (HasKnownTerms m) known.new.items }
    ensures stood { (m : Moment) (done : List Held) → All (HasStood m done) known.old.items → HasStood m done (Some entered) → All (HasStood m done) known.new.items }
{
    let place = entered.place;
    while known.len() <= place {
        known.push(None)?;
    }
    known[place] = Some(entered);
    Ok(())
}

/// The new segments of a refresh, with their marks, and what goes on after them.
#[derive(Drop)]
pub struct Marks {
    /// The segments, the oldest first.
    pub list: Vec<MarkedSegment>,
    /// The last break entered.
    pub entered: Option<Shared<Text>>,
    /// How long the newest run has lasted.
    pub so_far: Nanos,
}

/// What decides the marks of a refresh's segments, with the breaks that can be entered in it.
#[derive(Drop)]
pub struct Marker<'a> {
    tolerance: Nanos,
    target_duration: u64,
    with_init_sections: bool,
    knowledge: &'a Knowledge,
    store: &'a PodStore,
    entrances: Entrances<'a>,
    // None, which the segments without a mark own together.
    unmarked: SharedMark,
}

impl<'a> Model for Marker<'a> {
    ghost use Rattle.std.specs.Prelude.{◌≡◌, None};
    ghost use Rattle.break_finder.specs.Entrances.{entrances_in};
    ghost use Rattle.channel_spec.specs.Marking.{Moment};

    ghost Value = { Moment };

    ghost view = { λ a. record { tolerance = a.tolerance; target_duration = a.target_duration; with_init_sections = a.with_init_sections; breaks = a.knowledge.now; store = a.store.now } };

    ghost invariant = { λ a. (a.entrances ≡ record { tolerance = a.tolerance; found = entrances_in a.target_duration a.with_init_sections a.store.now a.knowledge.now }) × (a.unmarked ≡ None) };
}

// The break that was entered last.
fn last_entered_in_window<'a>(run: &'a Run) -> LastEntered<'a>
    ensures { (option_copied result.id ≡ run.now.entered) × (result.place ≡ run.now.place) }
{
    LastEntered {
        id: mark_text_in_window(&run.entered),
        place: run.place,
    }
}

// The mark of a segment, whether it goes on the run of the one before it, and how many places before it a segment stands that has
// this mark too, or 0.
#[derive(Drop)]
struct NextMark {
    mark: SharedMark,
    goes_on: bool,
    again: u32,
}

// The mark of one more segment of a run, or of one more without a mark.
fn same_window_mark(run: &Run) -> Result<NextMark, AllocError>
    ensures mark { IfOk result (λ next. next.mark ≡ run.now.before) }
    ensures same { IfOk result (λ next. next.goes_on ≡ is_some run.now.before) }
    ensures again { IfOk result (λ next. next.again ≡ 0) }
{
    let mark = run.before.clone()?;
    let goes_on = mark.is_some();
    Ok(NextMark {
        mark,
        goes_on,
        again: 0,
    })
}

fn window_segment_marked_with(
    segment: Member,
    instant: OptionalInstant,
    next: NextMark,
    in_common: InCommon,
) -> MarkedSegment
    ensures { result ≡ record { segment = segment; instant = instant; mark = next.mark; goes_on = next.goes_on; in_common = in_common; again = next.again } }
{
    MarkedSegment {
        segment,
        instant,
        mark: next.mark,
        goes_on: next.goes_on,
        in_common,
        again: next.again,
    }
}

impl<'a> Marker<'a> {
    /// What decides the marks of about `segments` new segments of the playlist that was `read`: the breaks of `knowledge`, which have their
    /// pods in `store`. A break is entered by `tolerance`. Fails only if an allocation fails.
    pub fn new(
        alloc: Global,
        tolerance: Nanos,
        read: &Read<'_>,
        knowledge: &'a Knowledge,
        store: &'a PodStore,
        segments: usize,
    ) -> Result<Marker<'a>, AllocError>
        ensures { IfOk result
            (λ marker. marker ≡ record { tolerance = tolerance; target_duration = read.now.playlist.target_duration; with_init_sections = has_init_sections (playlist_in read.now).segments; breaks = knowledge.now; store = store.now }) }
    {
        let target_duration = read.playlist.target_duration;
        let with_init_sections = successor_has_init_sections(read);
        Ok(Marker {
            tolerance,
            target_duration,
            with_init_sections,
            knowledge,
            store,
            entrances: knowledge.entrances(
                alloc,
                tolerance,
                target_duration,
                with_init_sections,
                store,
                segments,
            )?,
            unmarked: Shared::new(alloc, None)?,
        })
    }

    // The terms of the break of a mark, if it has a pod.
    fn look_up_terms(&self, mark: &Option<Shared<Text>>) -> Option<Terms>
        ensures { AreTerms self.now mark.now result }
    {
        let Some(id) = mark else {
            return None;
        };
        match self.store.pod_for(id.as_str()) {
            Some(pod) => Some(Terms {
                stay: self.knowledge.stay(id.as_str(), self.tolerance, pod),
                most: pod.total().0 + 1,
            }),
            None => None,
        }
    }

    #[tactic(auto, using(crate::proofs::Marked::none_entered))]
    // The first break that is entered at an instant, after the last one.
    fn find_entered(&mut self, run: &Run, instant: Option<Instant>) -> Option<EnteredBreak<'a>>
        requires { IsPlacedAt (window_entrances self.old) run.now.place run.now.entered }
        ensures entered { option_map entered_id result
            ≡ entered (limits self.old run.now.entered) self.old.store self.old.breaks instant }
        ensures placed { IsPlaced (window_entrances self.old) result }
        ensures kept { self.new ≡ self.old }
    {
        // Most playlists have no decided break and no fallback, and then each segment comes here.
        if self.store.is_empty() {
            return None;
        }
        self.entrances
            .find_entered(instant, last_entered_in_window(run))
    }

    #[tactic(auto, using(crate::proofs::KnownBreaks::terms_at_place))]
    // What is known of the break at a place, which marks a segment. Its terms are looked up where it is entered first.
    fn known_break(
        &self,
        run: &Run,
        place: usize,
        count: usize,
        mark: &Option<Shared<Text>>,
    ) -> KnownBreak
        requires place { IsAt (window_entrances self.now) place mark.now }
        requires terms { All (HasKnownTerms self.now) run.now.known.items }
        ensures place { result.place ≡ place }
        ensures terms { AreTerms self.now mark.now result.terms }
        ensures stood { (done : List Held) → length done ≡ count → All (HasStood self.now done) run.now.known.items
            → StoodAt done result.at mark.now }
    {
        if let Some(known) = known_break_at(run.known.as_slice(), place) {
            return known;
        }
        KnownBreak {
            place,
            terms: self.look_up_terms(mark),
            at: count,
        }
    }

    // Notes the break that is entered by the next segment, after so many, as the last one. Answers how many segments before
    // that one it began a run, or 0.
    fn enter(
        &self,
        run: &mut Run,
        count: usize,
        entered: EnteredBreak<'a>,
        mark: &SharedMark,
    ) -> Result<u32, AllocError>
        requires placed { IsPlacedAt (window_entrances self.now) entered.place mark.now }
        requires is { mark.now ≡ Some entered.id.now }
        requires terms { All (HasKnownTerms self.now) run.old.known.items }
        ensures noted { OnOk result (IsNoted self.now entered.entry.place mark.now run.old run.new) }
        ensures again { IfOk result
            (λ again. (done : List Held) → length done ≡ count → All (HasStood self.now done) run.old.known.items
            → IsMarkedAgain done again mark.now) }
        ensures stood { OnOk result
            ((done : List Held) (h : Held) → length done ≡ count → All (HasStood self.now done) run.old.known.items
            → h.mark ≡ mark.now → All (HasStood self.now (done ++ h ∷ [])) run.new.known.items) }
    {
        run.entered = Some(entered.id.clone()?);
        run.place = entered.place;
        let Some(place) = entered.place else {
            run.terms = self.look_up_terms(mark);
            return Ok(0);
        };
        let known = self.known_break(run, place, count, mark);
        run.terms = known.terms;
        let entered = KnownBreak {
            place,
            terms: known.terms,
            at: count,
        };
        note_known_break(&mut run.known, entered)?;
        Ok(segments_since_entered(count, known.at))
    }

    #[inline(always)]
    fn is_quiet(&self, instant: Option<Instant>) -> bool
        ensures { result ≡ true → (last : Option (List ℕ))
            → entered (limits self.now last) self.now.store self.now.breaks instant ≡ None }
    {
        self.entrances.is_quiet(instant)
    }

    #[tactic(auto, using(crate::proofs::Marked::none_next, crate::proofs::Marked::quiet_next))]
    // Whether it is seen at once that no break marks the next segment, at this instant.
    #[inline(always)]
    fn is_unmarked(&self, run: &Run, instant: OptionalInstant) -> bool
        requires { HasItsTerms self.now run.now }
        ensures before { result ≡ true → run.now.before ≡ None }
        ensures next { result ≡ true
            → next_id self.now run.now.before run.now.entered instant ≡ None }
    {
        if run.before.is_some() {
            return false;
        }
        self.is_quiet(instant.get()) || is_window_time_among(&run.quiet, instant.get())
    }

    #[tactic(auto, using(crate::proofs::Marked::quiet_then))]
    // Instants around this one at which no break is entered after the last one.
    fn quiet_around(&self, instant: Option<Instant>, run: &Run) -> Option<TimesWithin>
        requires { IsPlacedAt (window_entrances self.now) run.now.place run.now.entered }
        ensures { (i : Option ℤ) → is_window_time_among result i ≡ true
            → entered (limits self.now run.now.entered) self.now.store self.now.breaks i ≡ None }
    {
        self.entrances
            .quiet_around(instant, last_entered_in_window(run))
    }

    // The next segment, at this instant, has no mark, and its run is at an end.
    fn leave(&self, run: &mut Run, instant: OptionalInstant) -> Result<NextMark, AllocError>
        requires run { HasItsTerms self.now run.old }
        ensures mark { IfOk result (λ next. (next.mark ≡ None) × (next.goes_on ≡ false) × (next.again ≡ 0)) }
        ensures goes { OnOk result (IsExtended self.now.store 0 None run.old run.new) }
        ensures run { OnOk result (HasItsTerms self.now run.new) }
        ensures known { run.new.known.items ≡ run.old.known.items }
    {
        run.before = self.unmarked.clone()?;
        run.terms = None;
        run.quiet = self.quiet_around(instant.get(), run);
        run.so_far = Nanos(0);
        same_window_mark(run)
    }

    // The mark of a segment that begins a run, or has none, after so many segments; `run` is then as far as it.
    fn begin(
        &mut self,
        alloc: Global,
        run: &mut Run,
        count: usize,
        instant: OptionalInstant,
        duration: Nanos,
    ) -> Result<NextMark, AllocError>
        requires { HasItsTerms self.old run.old }
        ensures mark { IfOk result
            (λ next. next.mark ≡ entered (limits self.old run.old.entered) self.old.store self.old.breaks instant) }
        ensures same { IfOk result (λ next. next.goes_on ≡ is_same_stitched_run next.mark run.old.before) }
        ensures goes { IfOk result
            (λ next. IsExtended self.old.store duration next.mark run.old run.new) }
        ensures run { OnOk result (HasItsTerms self.old run.new) }
        ensures told { IfOk result (λ next. IsTold self.old count run.old run.new next.mark next.again) }
        ensures kept { self.new ≡ self.old }
    {
        let Some(entered) = self.find_entered(run, instant.get()) else {
            return self.leave(run, instant);
        };
        let mark: SharedMark = Shared::new(alloc, Some(entered.id.clone()?))?;
        let again = self.enter(run, count, entered, &mark)?;
        run.before = mark.clone()?;
        run.quiet = self.quiet_around(instant.get(), run);
        // A break that was entered isn't that of the run before.
        run.so_far = window_run_length_capped_at(&run.terms, duration, Nanos(0));
        Ok(NextMark {
            mark,
            goes_on: false,
            again,
        })
    }

    #[tactic(auto, using(crate::proofs::Extended::unmarked_on, crate::proofs::Extended::stays_on, crate::proofs::Extended::stays_next, crate::proofs::Extended::begins_next, crate::proofs::Extended::same_run))]
    // The mark of the next segment, after so many; `run` is then as far as it.
    fn next_mark(
        &mut self,
        alloc: Global,
        run: &mut Run,
        count: usize,
        segment: &Member,
        instant: OptionalInstant,
    ) -> Result<NextMark, AllocError>
        requires { HasItsTerms self.old run.old }
        ensures mark { IfOk result
            (λ next. next.mark ≡ next_id self.old run.old.before run.old.entered instant) }
        ensures same { IfOk result (λ next. next.goes_on ≡ is_same_stitched_run next.mark run.old.before) }
        ensures goes { IfOk result
            (λ next. IsExtended self.old.store segment.now.duration next.mark run.old run.new) }
        ensures run { OnOk result (HasItsTerms self.old run.new) }
        ensures told { IfOk result (λ next. IsTold self.old count run.old run.new next.mark next.again) }
        ensures kept { self.new ≡ self.old }
    {
        if self.is_unmarked(run, instant) {
            run.so_far = Nanos(0);
            return same_window_mark(run);
        }
        let duration = segment.get().duration();
        if window_segment_stays_in(&run.terms, instant.get()) {
            run.so_far = window_run_length_capped_at(&run.terms, duration, run.so_far);
            return same_window_mark(run);
        }
        self.begin(alloc, run, count, instant, duration)
    }

    // The next segment, after so many, with its mark, and with what it has in common with the one before it; `run` is then as far
    // as it.
    fn next(
        &mut self,
        alloc: Global,
        run: &mut Run,
        count: usize,
        segment: Member,
        instant: OptionalInstant,
        in_common: InCommon,
    ) -> Result<MarkedSegment, AllocError>
        requires { HasItsTerms self.old run.old }
        ensures marked { IfOk result
            (λ m. m ≡ record { segment = segment; instant = instant; mark = next_id self.old run.old.before run.old.entered instant; goes_on = is_same_stitched_run (next_id self.old run.old.before run.old.entered instant) run.old.before; in_common = in_common; again = m.again }) }
        ensures goes { IfOk result
            (λ m. IsExtended self.old.store segment.duration m.mark run.old run.new) }
        ensures run { OnOk result (HasItsTerms self.old run.new) }
        ensures told { IfOk result (λ m. IsTold self.old count run.old run.new m.mark m.again) }
        ensures kept { self.new ≡ self.old }
    {
        let mark = self.next_mark(alloc, run, count, &segment, instant)?;
        Ok(window_segment_marked_with(segment, instant, mark, in_common))
    }

    // Puts these segments, which begin at these instants, after those that are done, with their marks.
    fn all(
        &mut self,
        alloc: Global,
        run: &mut Run,
        segments: &mut Members<'_>,
        instants: &mut Beginnings<'_>,
        done: &mut Vec<MarkedSegment>,
    ) -> Result<(), AllocError>
        requires run { HasItsTerms self.old run.old }
        requires stood { All (HasStood self.old done.old.items) run.old.known.items }
        requires again { KnowAgainWithin done.old.items }
        ensures marked { OnOk result
            (AreMarked self.old run.old run.new segments.old instants.old done.old.items done.new.items) }
        ensures again { OnOk result (KnowAgainWithin done.new.items) }
    {
        let mut in_common = InCommon::nothing();
        loop {
            let next_in_common = segments.second_in_common();
            let Some(segment) = segments.next()? else {
                return Ok(());
            };
            let Some(instant) = instants.next()? else {
                return Ok(());
            };
            let count = done.len();
            done.push(self.next(alloc, run, count, segment, instant, in_common)?)?;
            in_common = next_in_common;
        }
    }

    // The place of the break of a mark among those that can be entered, if it is known.
    fn place_of(&self, mark: &Option<Shared<Text>>) -> Option<usize>
        ensures { IsPlacedAt (window_entrances self.now) result mark.now }
    {
        match mark {
            Some(id) => self.entrances.place_of(id.as_str()),
            None => None,
        }
    }

    // How far the marks are before the first new segment.
    fn run_after(&self, alloc: Global, shown: &Shown, newest: SharedMark) -> Result<Run, AllocError>
        requires { or_earlier newest shown.now.entered ≡ shown.now.entered }
        ensures run { IfOk result (HasItsTerms self.now) }
        ensures before { IfOk result (λ run. run.before ≡ newest) }
        ensures entered { IfOk result (λ run. run.entered ≡ shown.now.entered) }
        ensures so_far { IfOk result (λ run. run.so_far ≡ shown.now.so_far) }
        ensures known { IfOk result (λ run. run.known.items ≡ []) }
    {
        Ok(Run {
            terms: self.look_up_terms(&newest),
            before: newest,
            entered: copied_window_mark(&shown.entered)?,
            place: self.place_of(&shown.entered),
            quiet: None,
            so_far: shown.so_far,
            known: Vec::new(alloc),
        })
    }

    /// The new `segments`, which begin at the `instants`, with their marks, after those of `shown`, the newest of which
    /// has the mark `newest`. A segment enters a break, or stays in the break of the segment before it, or has no mark. Each knows
    /// what it has in common with the one before it, and the first says that it has nothing in common with any other. Each knows
    /// of one of them before it that has its mark, if it begins a run of a break that began one before.
    /// Fails only if an allocation fails.
    pub fn mark(
        self,
        alloc: Global,
        shown: &Shown,
        newest: SharedMark,
        segments: Members<'_>,
        instants: Beginnings<'_>,
    ) -> Result<Marks, AllocError>
        requires { or_earlier newest shown.now.entered ≡ shown.now.entered }
        ensures list { IfOk result
            (λ marks. (hints : List Hint) × (marks.list.items
            ≡ mark_on self.entry newest shown.now.entered hints segments.entry instants.entry)) }
        ensures common { IfOk result
            (λ marks. (before : Option Segment) → KnowCommon before marks.list.items) }
        ensures again { IfOk result (λ marks. KnowAgainWithin marks.list.items) }
        ensures entered { IfOk result
            (λ marks. marks.entered ≡ entered_after shown.now.entered marks.list.items) }
        ensures so_far { IfOk result
            (λ marks. marks.so_far ≡ length_after self.entry.store newest shown.now.so_far marks.list.items) }
    {
        let (mut marker, mut segments, mut instants) = (self, segments, instants);
        let mut run = marker.run_after(alloc, shown, newest)?;
        let mut list = Vec::with_capacity(alloc, segments.len())?;
        marker.all(alloc, &mut run, &mut segments, &mut instants, &mut list)?;
        Ok(Marks {
            list,
            entered: run.entered,
            so_far: run.so_far,
        })
    }
}
