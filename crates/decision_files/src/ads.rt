//! The ads of a break.
ghost use Rattle.std.specs.Prelude.{◌≡◌, ◌≤◌, ◌+◌, IfOk, map, codes, option_map, sum, []};
ghost use Rattle.serde_json.specs.View.{view};
ghost use Rattle.serde_json.specs.Find.{get};
ghost use Rattle.spec_words.specs.Outcomes.{each_after, optional};
ghost use Rattle.pod_store.specs.Outcome.{GivesOrDecisionFault, fault_at};
ghost use Rattle.pod_store.specs.Pods.{segment_count};
ghost use Rattle.decision_files.specs.Decided.{init_section_said_by_decision_file, key_said_by_decision_file, ad_said_by_decision_file, next_ad, pod_said_by_decision_file, ad_of_decision_file};
ghost use Rattle.decision_files.specs.Inner.Views.{view_of_part};

use crate::keys::{
    Part, init_section_said_by_decision_file, init_section_with_decision_file_keys,
    key_said_by_decision_file, keys_of_decision_file,
};
use crate::segments::segments_said_by_decision_file;
use playlist_model::{Items, Key};
use pod_store::{Ad, DecisionFault, DecisionKind, MAX_POD_SEGMENTS, Place, Pod, PodSegment};
use serde_json::Value;
use std::alloc::{AllocError, Global};

fn init_section_in_decision_file(
    alloc: Global,
    place: Place,
    value: &Value,
) -> Result<Option<Part>, DecisionFault>
    ensures { GivesOrDecisionFault (option_map view_of_part) result
        (optional (init_section_said_by_decision_file place) (get (codes "map") (view value.now))) }
{
    match value.get("map") {
        Some(map) => Ok(Some(init_section_said_by_decision_file(alloc, place, map)?)),
        None => Ok(None),
    }
}

fn key_in_decision_file(
    alloc: Global,
    place: Place,
    value: &Value,
) -> Result<Option<Key>, DecisionFault>
    ensures { GivesOrDecisionFault (λ key. key) result
        (optional (key_said_by_decision_file place) (get (codes "key") (view value.now))) }
{
    match value.get("key") {
        Some(key) => Ok(Some(key_said_by_decision_file(alloc, place, key)?)),
        None => Ok(None),
    }
}

fn ad_of_decision_file(
    alloc: Global,
    part: Option<Part>,
    key: Option<Key>,
    segments: Vec<PodSegment>,
) -> Result<Ad, AllocError>
    ensures { IfOk result (λ ad. ad ≡ ad_of_decision_file (option_map view_of_part part) key segments.items) }
{
    let keys = keys_of_decision_file(alloc, key)?;
    let init_section = match part {
        Some(part) => Some(init_section_with_decision_file_keys(&keys, part)?),
        None => None,
    };
    Ok(Ad {
        init_section,
        keys,
        segments: Items::from_vec(segments),
    })
}

// The ad at a place, whose pod has so many segments in the ads before.
fn ad_said_by_decision_file(
    alloc: Global,
    place: Place,
    before: usize,
    value: &Value,
) -> Result<Ad, DecisionFault>
    requires { before ≤ MAX_POD_SEGMENTS }
    ensures said { GivesOrDecisionFault (λ a. a) result (ad_said_by_decision_file place before (view value.now)) }
    ensures most { IfOk result (λ a. before + segment_count a ≤ MAX_POD_SEGMENTS) }
{
    let part = init_section_in_decision_file(alloc, place, value)?;
    let key = key_in_decision_file(alloc, place, value)?;
    let segments = segments_said_by_decision_file(alloc, place, before, value)?;
    Ok(ad_of_decision_file(alloc, part, key, segments)?)
}

// The ads of these objects, of the pod at a place.
fn ads_of_decision_file(alloc: Global, pod: Place, list: &[Value]) -> Result<Vec<Ad>, DecisionFault>
    ensures said { GivesOrDecisionFault (λ v. v.items) result (each_after (next_ad pod) [] (map view list.now)) }
    ensures most { IfOk result (λ v. sum (map segment_count v.items) ≤ MAX_POD_SEGMENTS) }
{
    let mut done: Vec<Ad> = Vec::with_capacity(alloc, list.len().min(MAX_POD_SEGMENTS))?;
    let mut before: usize = 0;
    let mut rest = list;
    while let Some((value, later)) = rest.split_first() {
        let ad = ad_said_by_decision_file(alloc, pod.in_ad(done.len()), before, value)?;
        before += ad.segments.len();
        done.push(ad)?;
        rest = later;
    }
    Ok(done)
}

/// The pod that `ads` state, which stand at `place`: in a break, or in none. `EmptyPod` if there are none; then the
/// faults of each ad in turn; `OutOfMemory` only if an allocation fails.
pub fn pod_said_by_decision_file(
    alloc: Global,
    place: Place,
    ads: &[Value],
) -> Result<Pod, DecisionFault>
    ensures said { GivesOrDecisionFault (λ p. p) result (pod_said_by_decision_file place (map view ads.now)) }

    // That there are none is answered whatever memory there is.
    ensures told { ads.now ≡ [] → result ≡ Err (fault_at place DecisionKind.EmptyPod) }
{
    if ads.is_empty() {
        return Err(place.fault(DecisionKind::EmptyPod));
    }
    let ads = ads_of_decision_file(alloc, place, ads)?;
    Ok(Pod::new(Items::from_vec(ads)))
}
