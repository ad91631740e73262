//! The place of a run in the stitched list, and how many items stand for the rest of a pod.
ghost use Rattle.std.specs.Prelude.{◌≡◌, ◌<◌, ◌≤◌, ◌^◌, map, sum, None, IfOk};
ghost use Rattle.pod_store.specs.Pods.{segment_count};
ghost use Rattle.stitcher.specs.RunPods.{AreLeftOf};
ghost use Rattle.stitcher.specs.StitchedSegments.{KnowAgain, KnowRuns};
ghost use Rattle.channel_window.specs.Marking.{place_on};
ghost use Rattle.channel_window.specs.Inner.Placing.{window_items_of_first, window_rest_count};

use playlist_model::{Shared, Text};
use pod_store::{Ad, PodStore};
use std::alloc::{AllocError, Global};
use stitcher::{MarkedSegment, Rest, RunPods, stitched_run_goes_on};

fn window_ad_segments_in(ads: &[Ad]) -> usize
    requires { sum (map segment_count ads.now) < 2 ^ 64 }
    ensures { result ≡ sum (map segment_count ads.now) }
{
    let mut count = 0;
    let mut rest = ads;
    while let Some((ad, later)) = rest.split_first() {
        count += ad.segments.len();
        rest = later;
    }
    count
}

// How many items stand for a whole run that begins with the first of these segments.
fn window_items_of(pods: &mut RunPods<'_>, left: &[MarkedSegment]) -> Result<usize, AllocError>
    requires { AreLeftOf pods.old.marked left.now }
    ensures value { IfOk result (λ count. count ≡ window_items_of_first pods.old.store left.now) }
    ensures few { IfOk result (λ count. count ≤ 500) }
    ensures kept { pods.new ≡ pods.old }
{
    let Some(first) = left.first() else {
        return Ok(0);
    };
    if first.mark.is_none() {
        return Ok(1);
    }
    match pods.pod_of_first(left)? {
        Some(pod) => Ok(window_ad_segments_in(pod.ads())),
        None => Ok(0),
    }
}

/// The place, from 0, of the first item of the newest run of `held` in their stitched list, whose pods are in
/// `store`: the window starts there (RFC 8216, section 6.2.2). Fails only if an allocation fails.
pub fn newest_run_place(
    alloc: Global,
    store: &PodStore,
    held: &[MarkedSegment],
) -> Result<usize, AllocError>
    requires room { place_on store.now None 0 0 held.now < 2 ^ 64 }
    requires runs { KnowRuns None held.now }
    requires again { KnowAgain held.now }
    ensures { IfOk result (λ place. place ≡ place_on store.now None 0 0 held.now) }
{
    let unmarked: Option<Shared<Text>> = None;
    let mut pods = RunPods::new(alloc, held, store);
    let mut previous = &unmarked;
    let mut start = 0;
    let mut items = 0;
    let mut rest = held;
    while let Some((here, later)) = rest.split_first() {
        if !stitched_run_goes_on(here, previous) {
            start += items;
            items = window_items_of(&mut pods, rest)?;
        }
        previous = &*here.mark;
        rest = later;
    }
    Ok(start)
}

/// How many items there are for `rest`, the rest of a pod in `store`.
pub fn window_rest_count(store: &PodStore, rest: &Option<Rest>) -> usize
    ensures value { result ≡ window_rest_count store.now rest.now }
    ensures few { result ≤ 500 }
{
    let Some(rest) = rest else {
        return 0;
    };
    match store.pod_for(rest.id.as_str()) {
        Some(pod) => window_ad_segments_in(pod.ads()).saturating_sub(rest.place),
        None => 0,
    }
}
