//! Calls of a store of pods that no program makes.
use decision_files::read_decisions;
use playlist_model::{Shared, Text};
use pod_store::{DecisionFault, PodStore};
use std::alloc::{AllocError, Global};
use std::hash::RandomState;

const POD: &[u8] =
    b"{\"breaks\":[{\"id\":\"b1\",\"ads\":[{\"segments\":[{\"uri\":\"http://ads.example/a0.ts\",\"duration\":\"8\"}]}]}]}";

fn store_of(alloc: Global, hashing: RandomState, file: &[u8]) -> Result<PodStore, DecisionFault> {
    let mut store = PodStore::new(alloc, hashing);
    store.decide(read_decisions(alloc, hashing, file)?)?;
    Ok(store)
}

fn one_id(alloc: Global, id: &str) -> Result<Vec<Shared<Text>>, AllocError> {
    let mut ids = Vec::new(alloc);
    ids.push(Shared::new(alloc, Text::copy_of(alloc, id)?)?)?;
    Ok(ids)
}

fn is_kept_in_use(store: &mut PodStore, ids: &[Shared<Text>]) -> Result<bool, DecisionFault> {
    store.keep_in_use(ids)?;
    Ok(store.is_used("b1") && !store.is_used("b2"))
}

fn is_dropped_then(store: &mut PodStore) -> Result<bool, DecisionFault> {
    store.keep_in_use(&[])?;
    Ok(store.get("b1").is_none())
}

fn is_used_and_dropped(alloc: Global, hashing: RandomState) -> Result<bool, DecisionFault> {
    let mut store = store_of(alloc, hashing, POD)?;
    let ids = one_id(alloc, "b1")?;
    Ok(is_kept_in_use(&mut store, ids.as_slice())? && is_dropped_then(&mut store)?)
}

#[test]
fn a_pod_goes_with_the_use_of_its_break(rt: HostRuntime) {
    let hashing = RandomState::new(&rt).expect(&rt, "random bytes");
    assert!(rt; matches!(is_used_and_dropped(rt.alloc(), hashing), Ok(true)));
}

const FALLBACK: &[u8] =
    b"{\"fallback\":{\"ads\":[{\"segments\":[{\"uri\":\"http://ads.example/x0.ts\",\"duration\":\"10\"}]}]}}";

const NO_FALLBACK: &[u8] = b"{\"fallback\":null}";

fn has_fallback(store: &PodStore) -> bool {
    !store.is_empty() && store.get("b1").is_none() && store.pod_for("b1").is_some()
}

fn is_adopted(store: &mut PodStore) -> Result<bool, DecisionFault> {
    Ok(store.adopt("b1")? && store.get("b1").is_some() && store.is_used("b1"))
}

fn is_kept(
    alloc: Global,
    hashing: RandomState,
    store: &mut PodStore,
) -> Result<bool, DecisionFault> {
    store.decide(read_decisions(alloc, hashing, NO_FALLBACK)?)?;
    Ok(store.pod_for("b1").is_some() && !store.adopt("b2")?)
}

fn is_lent_and_kept(alloc: Global, hashing: RandomState) -> Result<bool, DecisionFault> {
    let mut store = store_of(alloc, hashing, FALLBACK)?;
    Ok(has_fallback(&store) && is_adopted(&mut store)? && is_kept(alloc, hashing, &mut store)?)
}

#[test]
fn a_copy_of_the_fallback_is_kept(rt: HostRuntime) {
    let hashing = RandomState::new(&rt).expect(&rt, "random bytes");
    assert!(rt; matches!(is_lent_and_kept(rt.alloc(), hashing), Ok(true)));
}

fn is_own_adopted(alloc: Global, hashing: RandomState) -> Result<bool, DecisionFault> {
    let mut store = store_of(alloc, hashing, POD)?;
    Ok(store.adopt("b1")? && store.is_used("b1") && !store.adopt("b2")?)
}

#[test]
fn a_pod_of_its_own_is_adopted(rt: HostRuntime) {
    let hashing = RandomState::new(&rt).expect(&rt, "random bytes");
    assert!(rt; matches!(is_own_adopted(rt.alloc(), hashing), Ok(true)));
}
