//! The breaks in use.
ghost use Rattle.std.specs.Prelude.{◌≡◌, ◌<◌, ◌≤◌, ◌+◌, ◌++◌, ◌∷◌, [], ℕ, List, None, true, IfOk, OnOk};
ghost use Rattle.pod_store.specs.Store.{is_one_of};
ghost use Rattle.pod_store.specs.Inner.Store.{NameTheSame};
ghost use Rattle.channel_spec.specs.Live.{ids_of_option};
ghost use Rattle.stitcher.specs.StitchedSegments.{AreDecided, KnowPrevious, KnowsRun};
ghost use Rattle.live_channel.specs.Inner.Marks.{IsAmongMarks, IsSettledAgain, breaks_held, mark_held, marks_held, live_marks_and_last, rest_held};

use playlist_model::{Shared, Text};
use pod_store::PodStore;
use std::alloc::{AllocError, Global};
use stitcher::{MarkedSegment, Rest, stitched_run_goes_on};

#[tactic(auto, using(pod_store::proofs::Repeats::last_named))]
// Whether a break is the last of these: one that marks a segment mostly marks the one before.
fn is_last_live_mark(marks: &[Shared<Text>], id: &Text) -> bool
    ensures { result ≡ true → is_one_of marks.now id.now ≡ true }
{
    match marks.split_last() {
        Some((last, _)) => last.as_str() == id.as_str(),
        None => false,
    }
}

#[tactic(auto, using(crate::proofs::Marks::named_in_front))]
// Whether a break is one of the last two of these: segments that came by several refreshes may enter two breaks in turns.
fn is_recent_live_mark(marks: &[Shared<Text>], id: &Text) -> bool
    ensures { result ≡ true → is_one_of marks.now id.now ≡ true }
{
    match marks.split_last() {
        // In turns it is the one before the last.
        Some((_, before)) => is_last_live_mark(before, id) || is_last_live_mark(marks, id),
        None => false,
    }
}

#[tactic(auto, using(crate::proofs::Marks::put_once, crate::proofs::Marks::put_again))]
// Puts a break after others, if it isn't one of the last two of them.
fn push_live_mark_once(marks: &mut Vec<Shared<Text>>, id: &Shared<Text>) -> Result<(), AllocError>
    ensures { OnOk result (NameTheSame marks.new.items (marks.old.items ++ id.now ∷ [])) }
{
    if is_recent_live_mark(marks.as_slice(), id) {
        return Ok(());
    }
    marks.push(id.clone()?)?;
    Ok(())
}

#[tactic(auto, using(crate::proofs::Marks::put_none))]
// Puts a break, if there is one, after others.
fn push_live_mark(
    marks: &mut Vec<Shared<Text>>,
    mark: &Option<Shared<Text>>,
) -> Result<(), AllocError>
    ensures { OnOk result
        (NameTheSame marks.new.items (marks.old.items ++ ids_of_option mark.now)) }
{
    match mark {
        Some(id) => push_live_mark_once(marks, id),
        None => Ok(()),
    }
}

#[tactic(auto, using(crate::proofs::Marks::put_again, crate::proofs::Marks::put_none))]
// Puts the break that a segment enters after others. It is compared with the last two of them only if no segment before it is
// known to have its mark. A known one stands before those whose breaks are put, so its break is seldom one of the two.
fn push_entered_live_mark(
    marks: &mut Vec<Shared<Text>>,
    marked: &MarkedSegment,
) -> Result<(), AllocError>
    ensures { OnOk result
        (NameTheSame marks.new.items (marks.old.items ++ ids_of_option marked.now.mark)) }
{
    if marked.again == 0 {
        return push_live_mark(marks, &marked.mark);
    }
    if let Some(id) = &*marked.mark {
        marks.push(id.clone()?)?;
    }
    Ok(())
}

#[tactic(auto, using(crate::proofs::Marks::named_here))]
// Whether the break of a segment is known to be put, without a look at its ID. `settled` is how many segments directly before
// it have no mark or a break that is put, and `previous` is the mark of the last of them.
fn is_live_mark_settled(
    previous: &Option<Shared<Text>>,
    settled: u32,
    marked: &MarkedSegment,
) -> bool
    requires { KnowsRun previous.now marked.now }
    ensures { result ≡ true → (marks : List (List ℕ)) → (0 < settled → IsAmongMarks marks previous.now)
        → IsSettledAgain marks settled marked.now → IsAmongMarks marks marked.now.mark }
{
    let is_again = 0 < marked.again && marked.again <= settled;
    is_again || settled > 0 && stitched_run_goes_on(marked, previous)
}

// Puts the break of a segment after others, if it isn't known to be one of them.
fn push_unsettled_live_mark(
    marks: &mut Vec<Shared<Text>>,
    previous: &Option<Shared<Text>>,
    settled: u32,
    marked: &MarkedSegment,
) -> Result<(), AllocError>
    requires runs { KnowsRun previous.now marked.now }
    requires before { 0 < settled → IsAmongMarks marks.old.items previous.now }
    requires again { IsSettledAgain marks.old.items settled marked.now }
    ensures { OnOk result
        (NameTheSame marks.new.items (marks.old.items ++ ids_of_option marked.now.mark)) }
{
    if is_live_mark_settled(previous, settled, marked) {
        return Ok(());
    }
    push_entered_live_mark(marks, marked)
}

#[tactic(auto, using(crate::proofs::Marks::none_there, crate::proofs::Marks::none_among, crate::proofs::Marks::none_before, crate::proofs::Marks::one_there, crate::proofs::Marks::named_then))]
// Puts the break of a segment after others, if it has one and is numbered from this number on. `settled` is how many segments
// directly before it have no mark or one of the others, and `previous` is the mark of the last of them. Answers how many these
// are with this segment. So an ID is looked at only where a refresh enters its break first.
fn push_live_mark_of_segment(
    marks: &mut Vec<Shared<Text>>,
    number: u64,
    previous: &Option<Shared<Text>>,
    settled: u32,
    marked: &MarkedSegment,
) -> Result<u32, AllocError>
    requires runs { KnowsRun previous.now marked.now }
    requires before { 0 < settled → IsAmongMarks marks.old.items previous.now }
    requires again { IsSettledAgain marks.old.items settled marked.now }
    ensures same { OnOk result
        (NameTheSame marks.new.items (marks.old.items ++ mark_held number marked.now)) }
    ensures named { IfOk result (λ next. 0 < next → IsAmongMarks marks.new.items marked.now.mark) }
    ensures counted { IfOk result (λ next. next ≤ settled + 1) }
{
    // Most segments have no mark.
    if marked.mark.is_none() {
        return Ok(settled.saturating_add(1));
    }
    if marked.segment.get().media_sequence() < number {
        return Ok(0);
    }
    push_unsettled_live_mark(marks, previous, settled, marked)?;
    Ok(settled.saturating_add(1))
}

#[tactic(auto, using(crate::proofs::Marks::one_marked, crate::proofs::Marks::then_more, crate::proofs::Marks::none_settled))]
// The breaks that mark the segments from this number on, one for each run and in their order, and then the last one entered.
fn live_marks_and_last(
    alloc: Global,
    number: u64,
    list: &[MarkedSegment],
    entered: &Option<Shared<Text>>,
) -> Result<Vec<Shared<Text>>, AllocError>
    requires { KnowPrevious list.now }
    ensures { IfOk result
        (λ marks. NameTheSame marks.items (live_marks_and_last number list.now entered.now)) }
{
    let mut marks = Vec::new(alloc);
    let unmarked: Option<Shared<Text>> = None;
    let mut previous = &unmarked;
    let mut settled = 0;
    let mut rest = list;
    while let Some((marked, later)) = rest.split_first() {
        settled = push_live_mark_of_segment(&mut marks, number, previous, settled, marked)?;
        previous = &*marked.mark;
        rest = later;
    }
    push_live_mark(&mut marks, entered)?;
    Ok(marks)
}

#[tactic(auto, using(crate::proofs::Marks::put_none))]
// Puts the break of a rest, if there is one, after others.
fn push_live_rest(marks: &mut Vec<Shared<Text>>, rest: &Option<Rest>) -> Result<(), AllocError>
    ensures { OnOk result (NameTheSame marks.new.items (marks.old.items ++ rest_held rest.now)) }
{
    match rest {
        Some(rest) => push_live_mark_once(marks, &rest.id),
        None => Ok(()),
    }
}

#[tactic(auto, using(crate::proofs::Marks::none_held))]
// The segments that may have a mark: none of these, if no break has a pod and there is no fallback.
fn live_segments_to_mark<'a>(store: &PodStore, list: &'a [MarkedSegment]) -> &'a [MarkedSegment]
    requires decided { AreDecided store.now list.now }
    requires previous { KnowPrevious list.now }
    ensures same { (number : ℕ) → marks_held number result.now ≡ marks_held number list.now }
    ensures previous { KnowPrevious result.now }
{
    if store.is_empty() {
        return &[];
    }
    list
}

/// The breaks in use: those that mark the segments of `list` from the media sequence number `number` on, one for each
/// run and in their order; then the last one entered, `entered`; then the one of `rest`, the rest of a pod that
/// the window starts with. Each has a pod in `store`: if there is no pod, no segment is looked at. Fails only if an allocation
/// fails.
pub fn live_breaks_in_use(
    alloc: Global,
    store: &PodStore,
    number: u64,
    list: &[MarkedSegment],
    entered: &Option<Shared<Text>>,
    rest: &Option<Rest>,
) -> Result<Vec<Shared<Text>>, AllocError>
    requires decided { AreDecided store.now list.now }
    requires previous { KnowPrevious list.now }
    ensures { IfOk result
        (λ breaks. NameTheSame breaks.items (breaks_held number list.now entered.now rest.now)) }
{
    let marked = live_segments_to_mark(store, list);
    let mut marks = live_marks_and_last(alloc, number, marked, entered)?;
    push_live_rest(&mut marks, rest)?;
    Ok(marks)
}
