//! The segments of an ad.
ghost use Rattle.std.specs.Prelude.{◌≡◌, ◌≤◌, ◌+◌, ◌<◌, map, length, codes, [], Some, IfOk, OnOk};
ghost use Rattle.serde_json.specs.View.{view};
ghost use Rattle.spec_words.specs.Outcomes.{each_after, Tells};
ghost use Rattle.pod_store.specs.Outcome.{GivesOrDecisionFault, fault_at};
ghost use Rattle.decision_files.specs.Json.{json_list_in_decision_file};
ghost use Rattle.decision_files.specs.Decided.{segment_texts_in_decision_file, segment_said_by_decision_file, next_segment_of_decision_file, segments_said_by_decision_file};

use crate::keys::part_of_resource_in_decision_file;
use crate::members::{json_list_in_decision_file, json_text_in_decision_file};
use fixed_duration::Nanos;
use playlist_model::Shared;
use pod_store::{DecisionFault, DecisionKind, MAX_POD_SEGMENTS, Place, PodSegment};
use serde_json::Value;
use std::alloc::Global;

fn segment_texts_in_decision_file(
    alloc: Global,
    place: Place,
    uri: &str,
    duration: &str,
    value: &Value,
) -> Result<PodSegment, DecisionFault>
    ensures said { GivesOrDecisionFault (λ s. s) result
        (segment_texts_in_decision_file place uri.now duration.now (view value.now)) }
    ensures told { Tells result (segment_texts_in_decision_file place uri.now duration.now (view value.now)) }
{
    let byte_range = part_of_resource_in_decision_file(place, uri, value)?;
    let Ok(duration) = Nanos::read(duration) else {
        return Err(place.fault(DecisionKind::BadDuration));
    };
    Ok(PodSegment {
        uri: Shared::copy_of(alloc, uri)?,
        byte_range,
        duration,
    })
}

fn segment_said_by_decision_file(
    alloc: Global,
    place: Place,
    value: &Value,
) -> Result<PodSegment, DecisionFault>
    ensures said { GivesOrDecisionFault (λ s. s) result (segment_said_by_decision_file place (view value.now)) }
    ensures told { Tells result (segment_said_by_decision_file place (view value.now)) }
{
    let uri = json_text_in_decision_file(value, "uri").ok_or(place.fault(DecisionKind::Shape))?;
    let duration = json_text_in_decision_file(value, "duration").ok_or(place.fault(
        DecisionKind::Shape,
    ))?;
    segment_texts_in_decision_file(alloc, place, uri, duration, value)
}

// The segment after these of the ad at a place, if so many of its pod stand in the ads before.
fn next_segment_of_decision_file(
    alloc: Global,
    ad: Place,
    before: usize,
    done: &Vec<PodSegment>,
    value: &Value,
) -> Result<PodSegment, DecisionFault>
    requires { before ≤ MAX_POD_SEGMENTS }
    ensures said { GivesOrDecisionFault (λ s. s) result
        (next_segment_of_decision_file ad before done.now.items (view value.now)) }
    ensures told { Tells result
        (next_segment_of_decision_file ad before done.now.items (view value.now)) }
    ensures room { OnOk result (before + length done.now.items < MAX_POD_SEGMENTS) }
{
    let place = ad.in_segment(done.len());
    if done.len() >= MAX_POD_SEGMENTS - before {
        return Err(place.fault(DecisionKind::TooMany));
    }
    segment_said_by_decision_file(alloc, place, value)
}

// The segments of these objects.
fn segments_of_decision_file(
    alloc: Global,
    ad: Place,
    before: usize,
    list: &[Value],
) -> Result<Vec<PodSegment>, DecisionFault>
    requires { before ≤ MAX_POD_SEGMENTS }
    ensures said { GivesOrDecisionFault (λ v. v.items) result
        (each_after (next_segment_of_decision_file ad before) [] (map view list.now)) }
    ensures most { IfOk result (λ v. before + length v.items ≤ MAX_POD_SEGMENTS) }
{
    let mut done = Vec::with_capacity(alloc, list.len().min(MAX_POD_SEGMENTS))?;
    let mut rest = list;
    while let Some((value, later)) = rest.split_first() {
        let segment = next_segment_of_decision_file(alloc, ad, before, &done, value)?;
        done.push(segment)?;
        rest = later;
    }
    Ok(done)
}

/// The segments that `value` states, the ad at the place `ad`. `before` segments of its pod come before it, which
/// counts towards the most that a pod may have. The faults, in this order: `Shape`, `EmptyPod`, then those of each
/// segment in turn; `OutOfMemory` only if an allocation fails.
pub fn segments_said_by_decision_file(
    alloc: Global,
    ad: Place,
    before: usize,
    value: &Value,
) -> Result<Vec<PodSegment>, DecisionFault>
    requires { before ≤ MAX_POD_SEGMENTS }
    ensures said { GivesOrDecisionFault (λ v. v.items) result (segments_said_by_decision_file ad before (view value.now)) }

    // That there are none is answered whatever memory there is.
    ensures told { json_list_in_decision_file (codes "segments") (view value.now) ≡ Some []
        → result ≡ Err (fault_at ad DecisionKind.EmptyPod) }
    ensures most { IfOk result (λ v. before + length v.items ≤ MAX_POD_SEGMENTS) }
{
    let list = json_list_in_decision_file(value, "segments").ok_or(ad.fault(DecisionKind::Shape))?;
    if list.is_empty() {
        return Err(ad.fault(DecisionKind::EmptyPod));
    }
    segments_of_decision_file(alloc, ad, before, list)
}
