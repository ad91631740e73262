//! A decision file.
ghost use Rattle.std.specs.Prelude.{◌≡◌, false, ◌∷◌, ◌++◌, [], map, IfOk};
ghost use Rattle.serde_json.specs.View.{view};
ghost use Rattle.std.specs.Str.{is_utf8};
ghost use Rattle.spec_words.specs.Outcomes.{each_after, GivesExactly, Tells};
ghost use Rattle.pod_store.specs.Outcome.{GivesOrDecisionFault, nowhere, fault_at};
ghost use Rattle.decision_files.specs.Inner.Members.{says_breaks_alone};
ghost use Rattle.decision_files.specs.Decided.{id_said_by_decision_file, pod_said_by_decision_file, decision_said, next_break, breaks_said_by_decision_file, withdrawal_said_by_decision_file, fallback_pod_of_decision_file, fallback_said_by_decision_file, decisions_said_by_json, json_of_decision_file, decisions_of};

use crate::ads::pod_said_by_decision_file;
use crate::ids::BreakIdsSaid;
use crate::members::{
    json_list_in_decision_file, json_text_in_decision_file, owned_json_member_of_decision_file,
    owned_json_values_of_decision_file,
};
use crate::texts::is_decision_file_id;
use playlist_model::{Items, Text, playlist_text_of};
use pod_store::{Decision, DecisionFault, DecisionKind, Decisions, MAX_BREAKS, Place};
use serde_json::Value;
use std::alloc::Global;
use std::hash::RandomState;

fn id_said_by_decision_file(pod: usize, value: &Value) -> Result<&str, DecisionFault>
    ensures { GivesExactly (λ id. id.now) result (id_said_by_decision_file pod (view value.now)) }
{
    let place = Place::in_break(pod);
    let id = json_text_in_decision_file(value, "id").ok_or(place.fault(DecisionKind::Shape))?;
    if !is_decision_file_id(id) {
        return Err(place.fault(DecisionKind::Shape));
    }
    Ok(id)
}

// The break of this value, which stands after those whose IDs came before.
fn break_said_by_decision_file(
    alloc: Global,
    pod: usize,
    before: &mut BreakIdsSaid,
    value: &Value,
) -> Result<Decision, DecisionFault>
    ensures said { GivesOrDecisionFault (λ d. d) result
        (decision_said pod before.old (view value.now)) }
    ensures ids { IfOk result (λ d. before.new ≡ before.old ++ d.0 ∷ []) }
{
    let place = Place::in_break(pod);
    let id = id_said_by_decision_file(pod, value)?;
    let ads = json_list_in_decision_file(value, "ads").ok_or(place.fault(DecisionKind::Shape))?;
    if !before.insert(alloc, id)? {
        return Err(place.fault(DecisionKind::Shape));
    }
    let said = pod_said_by_decision_file(alloc, place, ads)?;
    let id = Text::copy_of(alloc, id)?;
    Ok((id, said))
}

// Each value is dropped once its break is read: a value takes several times the memory of what it says, and what later
// breaks say goes into its place.
fn breaks_of_decision_file(
    alloc: Global,
    hashing: RandomState,
    list: Vec<Value>,
) -> Result<Vec<Decision>, DecisionFault>
    ensures { GivesOrDecisionFault (λ v. v.items) result
        (each_after next_break [] (map view list.items)) }
{
    let mut done: Vec<Decision> = Vec::with_capacity(alloc, list.len().min(MAX_BREAKS))?;
    let mut ids = BreakIdsSaid::new(alloc, hashing);
    for value in list {
        let decision = break_said_by_decision_file(alloc, done.len(), &mut ids, &value)?;
        done.push(decision)?;
    }
    Ok(done)
}

fn breaks_said_by_decision_file(
    alloc: Global,
    hashing: RandomState,
    value: Value,
) -> Result<Decisions, DecisionFault>
    ensures { GivesOrDecisionFault (λ d. d) result (breaks_said_by_decision_file (view value)) }
{
    let list = owned_json_values_of_decision_file(value).ok_or(Place::nowhere().fault(
        DecisionKind::Shape,
    ))?;
    let breaks = breaks_of_decision_file(alloc, hashing, list)?;
    Ok(Decisions::Breaks(Items::from_vec(breaks)))
}

fn withdrawal_said_by_decision_file(
    alloc: Global,
    value: &Value,
) -> Result<Decisions, DecisionFault>
    ensures said { GivesOrDecisionFault (λ d. d) result (withdrawal_said_by_decision_file (view value.now)) }
    ensures told { Tells result (withdrawal_said_by_decision_file (view value.now)) }
{
    let id = value
        .as_str()
        .ok_or(Place::nowhere().fault(DecisionKind::Shape))?;
    if !is_decision_file_id(id) {
        return Err(Place::nowhere().fault(DecisionKind::Shape));
    }
    Ok(Decisions::Withdraw(Text::copy_of(alloc, id)?))
}

fn fallback_pod_of_decision_file(alloc: Global, value: &Value) -> Result<Decisions, DecisionFault>
    ensures { GivesOrDecisionFault (λ d. d) result (fallback_pod_of_decision_file (view value.now)) }
{
    let nowhere = Place::nowhere();
    let ads = json_list_in_decision_file(value, "ads").ok_or(nowhere.fault(DecisionKind::Shape))?;
    let pod = pod_said_by_decision_file(alloc, nowhere, ads)?;
    Ok(Decisions::Fallback(pod))
}

fn fallback_said_by_decision_file(alloc: Global, value: &Value) -> Result<Decisions, DecisionFault>
    ensures { GivesOrDecisionFault (λ d. d) result (fallback_said_by_decision_file (view value.now)) }
{
    if value.is_null() {
        return Ok(Decisions::NoFallback);
    }
    fallback_pod_of_decision_file(alloc, value)
}

// What an object says that has a member beside its breaks, or no breaks.
fn other_decisions_said_by_json(alloc: Global, value: &Value) -> Result<Decisions, DecisionFault>
    requires { says_breaks_alone (view value.now) ≡ false }
    ensures { GivesOrDecisionFault (λ d. d) result (decisions_said_by_json (view value.now)) }
{
    let breaks = value.get("breaks");
    let withdraw = value.get("withdraw");
    let fallback = value.get("fallback");
    match (breaks, withdraw, fallback) {
        (None, Some(id), None) => withdrawal_said_by_decision_file(alloc, id),
        (None, None, Some(pod)) => fallback_said_by_decision_file(alloc, pod),
        _ => Err(Place::nowhere().fault(DecisionKind::Shape)),
    }
}

fn says_breaks_alone(value: &Value) -> bool
    ensures { result ≡ says_breaks_alone (view value.now) }
{
    value.get("breaks").is_some()
        && value.get("withdraw").is_none()
        && value.get("fallback").is_none()
}

fn decisions_said_by_json(
    alloc: Global,
    hashing: RandomState,
    value: Value,
) -> Result<Decisions, DecisionFault>
    ensures { GivesOrDecisionFault (λ d. d) result (decisions_said_by_json (view value)) }
{
    if !says_breaks_alone(&value) {
        return other_decisions_said_by_json(alloc, &value);
    }
    match owned_json_member_of_decision_file(value, "breaks") {
        Some(breaks) => breaks_said_by_decision_file(alloc, hashing, breaks),
        None => Err(Place::nowhere().fault(DecisionKind::Shape)),
    }
}

// The JSON value of these bytes.
fn json_of_decision_file(alloc: Global, bytes: &[u8]) -> Result<Value, DecisionFault>
    ensures said { GivesOrDecisionFault view result (json_of_decision_file bytes.now) }
    ensures told { is_utf8 bytes.now ≡ false
        → result ≡ Err (fault_at nowhere DecisionKind.NotJson) }
{
    let not_json = Place::nowhere().fault(DecisionKind::NotJson);
    let Ok(text) = playlist_text_of(bytes) else {
        return Err(not_json);
    };
    match Value::from_str(alloc, text) {
        Ok(value) => Ok(value),
        Err(e) => {
            if e.is_memory() {
                return Err(Place::nowhere().fault(DecisionKind::OutOfMemory));
            }
            Err(not_json)
        }
    }
}

/// What `bytes`, a decision file, say. The faults, in this order: `NotJson`; `Shape` for the whole; then those of
/// each break in turn, with its place; `OutOfMemory` only if an allocation fails. `hashing`: the keys for a table of
/// the file's IDs.
///
/// ```text
/// read_decisions(alloc, hashing, b"{\"withdraw\": \"b1\"}")    Ok(Decisions::Withdraw(id)), and `id` is "b1"
/// read_decisions(alloc, hashing, b"[")                       Err: J1 NotJson
/// ```
pub fn read_decisions(
    alloc: Global,
    hashing: RandomState,
    bytes: &[u8],
) -> Result<Decisions, DecisionFault>
    ensures said { GivesOrDecisionFault (λ d. d) result (decisions_of bytes.now) }

    // Bytes that are no text are refused whatever memory there is.
    ensures told { is_utf8 bytes.now ≡ false
        → result ≡ Err (fault_at nowhere DecisionKind.NotJson) }
{
    let value = json_of_decision_file(alloc, bytes)?;
    decisions_said_by_json(alloc, hashing, value)
}
