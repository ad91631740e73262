//! The body of a request that makes a channel.
ghost use Rattle.std.specs.Prelude.{◌≡◌, ◌≤◌, length, Ok, Err, Some, None, IfOk, IfErr, MatchResult, option_map, option_and_then, codes};
ghost use Rattle.serde_json.specs.View.{view};
ghost use Rattle.serde_json.specs.Find.{get, as_str};
ghost use Rattle.fixed_duration.specs.Duration.{duration_of};
ghost use Rattle.channel_api.specs.ChannelBody.{json_said, wanted_channel_said, body_said, tolerance_said_by_channel_body, nanos_or_most, RefusesBody};

use channel_spec::DEFAULT_TOLERANCE;
use fixed_duration::Nanos;
use playlist_model::{Text, playlist_text_of};
use pod_store::DecisionKind;
use serde_json::Value;
use std::alloc::Global;

/// Why a body is none of a channel.
#[derive(Clone, Copy, Debug, PartialEq, Eq)]
pub enum BodyFault {
    /// J1: it is no JSON.
    NotJson,
    /// J2: it isn't an object with a base that is a text, or its tolerance is no text.
    Shape,
    /// An allocation failed.
    OutOfMemory,
}

impl BodyFault {
    ghost use Rattle.channel_api.specs.FaultTexts.{body_fault_text};

    /// The code and the name, as those of a decision file.
    pub fn text(self) -> &'static str
        ensures text { result.now ≡ body_fault_text self }
        ensures short { length result.now ≤ 14 }
    {
        match self {
            BodyFault::NotJson => DecisionKind::NotJson.name(),
            BodyFault::Shape => DecisionKind::Shape.name(),
            BodyFault::OutOfMemory => DecisionKind::OutOfMemory.name(),
        }
    }
}

/// What a body says.
#[derive(Drop)]
pub struct Wanted {
    pub base: Text,
    pub tolerance: Nanos,
}

// The text at a name, if there is one.
fn channel_body_text_at<'a>(value: &'a Value, name: &str) -> Option<&'a str>
    ensures { option_map (λ text. text.now) result
        ≡ option_and_then as_str (get name.now (view value.now)) }
{
    match value.get(name) {
        Some(found) => found.as_str(),
        None => None,
    }
}

// A text that is no duration is longer than any tolerance.
fn tolerance_nanos_of(text: &str) -> Nanos
    ensures { result ≡ nanos_or_most (duration_of text.now) }
{
    match Nanos::read(text) {
        Ok(nanos) => nanos,
        Err(_) => Nanos(u64::MAX),
    }
}

// The tolerance that a value says.
fn tolerance_said_by_channel_body(value: &Value) -> Option<Nanos>
    ensures { result ≡ tolerance_said_by_channel_body (get (codes "tolerance") (view value.now)) }
{
    match value.get("tolerance") {
        Some(tolerance) => match tolerance.as_str() {
            Some(text) => Some(tolerance_nanos_of(text)),
            None => None,
        },
        None => Some(Nanos(DEFAULT_TOLERANCE)),
    }
}

// The JSON value of a body.
fn json_of_channel_body(alloc: Global, body: &[u8]) -> Result<Value, BodyFault>
    ensures ok { IfOk result (λ value. json_said body.now ≡ Some (view value)) }
    ensures none { result ≡ Err BodyFault.NotJson → json_said body.now ≡ None }
    ensures kind { result ≡ Err BodyFault.Shape → ⊥ }
{
    let Ok(text) = playlist_text_of(body) else {
        return Err(BodyFault::NotJson);
    };
    match Value::from_str(alloc, text) {
        Ok(value) => Ok(value),
        Err(e) => {
            if e.is_memory() {
                return Err(BodyFault::OutOfMemory);
            }
            Err(BodyFault::NotJson)
        }
    }
}

// What a JSON value says.
fn wanted_channel_said(alloc: Global, value: &Value) -> Result<Wanted, BodyFault>
    ensures { MatchResult result (λ w. wanted_channel_said (view value.now) ≡ Ok (w.base, w.tolerance))
        (λ e. RefusesBody e (wanted_channel_said (view value.now))) }
{
    let Some(base) = channel_body_text_at(value, "base") else {
        return Err(BodyFault::Shape);
    };
    let Some(tolerance) = tolerance_said_by_channel_body(value) else {
        return Err(BodyFault::Shape);
    };
    let Ok(base) = Text::copy_of(alloc, base) else {
        return Err(BodyFault::OutOfMemory);
    };
    Ok(Wanted { base, tolerance })
}

/// What `body` says, with which a request makes a channel: its base, and its tolerance in nanoseconds. A tolerance
/// that is no duration is answered as one that is too long. `NotJson` if `body` is no JSON; `Shape` if it isn't an
/// object with a base that is a text, or its tolerance is no text; `OutOfMemory` only if an allocation fails.
pub fn read_wanted(alloc: Global, body: &[u8]) -> Result<Wanted, BodyFault>
    ensures ok { IfOk result (λ w. body_said body.now ≡ Ok (w.base, w.tolerance)) }
    ensures err { IfErr result (λ e. RefusesBody e (body_said body.now)) }
{
    let value = json_of_channel_body(alloc, body)?;
    wanted_channel_said(alloc, &value)
}
