//! One input, one playlist: the order of a run.
ghost use Rattle.std.specs.Prelude.{◌≡◌, ◌≢◌, Err, Some, None, [], OnOk, OnErr, IfOk, IfErr, IsErrOf, unwrap_or};
ghost use Rattle.std.specs.Option.{option_copied};
ghost use Rattle.playlist_model.specs.Uri.{base_of};
ghost use Rattle.playlist_model.specs.Reading.{Fault};
ghost use Rattle.channel_spec.specs.declared.fault.RefreshFault.TheVariants.{NumberRange};
ghost use Rattle.pod_store.specs.declared.fault.DecisionFault.{DecisionFault};
ghost use Rattle.vod_run.specs.Events.{events_of};
ghost use Rattle.vod_run.specs.Given.{IsGivenAll};
ghost use Rattle.vod_run.specs.Inner.Given.{IsGivenFile, IsOfBeginning, RefreshesFrom, RefusesFrom};
ghost use Rattle.vod_run.specs.Vod.{IsInOrder, IsOfVod, HasJudged, HasRead, Writes, WritesFront};
ghost use Rattle.byte_streams.specs.Stands.{TookAll, FailedAfterFront};
ghost use Rattle.byte_streams.specs.Fair.{IsFairToSource, IsFairToSink, GaveAtEachButLast};
ghost use Rattle.vod_run.specs.Runs.{OnEnd};

use crate::fault::VodFault;
use crate::input::read_vod_input;
use byte_streams::{Sink, Source, hand_out};
use channel_spec::DEFAULT_TOLERANCE;
use fixed_duration::Nanos;
use live_channel::Channel;
use std::alloc::Global;
use std::hash::RandomState;

// The channel of a base, which was given the decision file, if there is one.
fn decided_vod_channel(
    alloc: Global,
    hashing: RandomState,
    base: &str,
    decisions: Option<&[u8]>,
) -> Result<Channel, VodFault>
    ensures ok { IfOk result (IsGivenFile base.now (option_copied decisions.entry)) }
    ensures kind { IfErr result IsOfBeginning }
    ensures order { IfErr result (λ e. IsInOrder e base.now (option_copied decisions.entry)) }
{
    let mut channel = Channel::new(alloc, hashing, base, Nanos(DEFAULT_TOLERANCE))?;
    let Some(file) = decisions else {
        return Ok(channel);
    };
    channel.decide(alloc, file)?;
    Ok(channel)
}

// Gives a channel the input of a source, read to its end, as its one refresh: its memory is given back before the text is
// written.
fn refresh_vod_channel_from<S: Source>(
    alloc: Global,
    source: &mut S,
    channel: &mut Channel,
) -> Result<(), VodFault>
    ensures ok { OnOk result (RefreshesFrom (S.stand source.old) (S.stand source.new)
        channel.old channel.new) }
    ensures err { IfErr result (λ e. RefusesFrom e (S.stand source.old) (S.stand source.new)
        channel.old) }
    ensures source { IsFairToSource VodFault.Read VodFault.TooManyReads result
        (S.stand source.old) (S.stand source.new) }
    ensures to_end { OnEnd result (GaveAtEachButLast (S.stand source.old) (S.stand source.new)) }
{
    let input = read_vod_input(alloc, source)?;
    channel.refresh(alloc, input.as_slice())?;
    Ok(())
}

// The bytes of a channel's text, if there is one; else none.
fn bytes_of_vod_text(channel: &Channel) -> &[u8]
    ensures { result.now ≡ unwrap_or channel.now.text [] }
{
    match channel.playlist() {
        Some(text) => text,
        None => &[],
    }
}

// Hands out the text that a channel writes.
fn hand_out_vod_text<K: Sink>(channel: &Channel, sink: &mut K) -> Result<(), VodFault>
    ensures ok { OnOk result (TookAll (K.stand sink.old) (K.stand sink.new)
        (unwrap_or channel.now.text [])) }
    ensures err { OnErr result (FailedAfterFront (K.stand sink.old) (K.stand sink.new)
        (unwrap_or channel.now.text [])) }
    ensures kind { IfErr result (λ e. e ≡ VodFault.Write) }
    ensures sink { IsFairToSink VodFault.Write result (K.stand sink.old) (K.stand sink.new) }
{
    Ok(hand_out(bytes_of_vod_text(channel), sink)?)
}

#[tactic(auto, using(crate::proofs::Known::known_bytes))]
/// Reads a playlist from `source` and writes it to `sink` with its breaks filled: each run of segments that a break
/// of the decision file `decisions` marks is replaced by the pod that the file gives it. Without a decision file no
/// break is filled. References are resolved against the URL `base`.
///
/// The faults come in this order: the base, the decision file, reading, the playlist, `NumberRange`, writing. After
/// `Write` the `sink` has taken a front of the text, and after any other fault nothing. The channel that wrote the text
/// is the answer, so that a program that ends then needn't give its memory back. `hashing`: the keys for its tables of IDs.
///
/// ```text
/// vod(alloc, hashing, &mut source, &mut sink, "http://origin.example/ch/index.m3u8", Some(decisions))
/// ```
pub fn vod<S: Source, K: Sink>(
    alloc: Global,
    hashing: RandomState,
    source: &mut S,
    sink: &mut K,
    base: &str,
    decisions: Option<&[u8]>,
) -> Result<Channel, VodFault>
    ensures ok { OnOk result (Writes base.now (option_copied decisions.entry)
        (S.stand source.old) (S.stand source.new) (K.stand sink.old) (K.stand sink.new)) }
    ensures channel { IfOk result (IsGivenAll base.now (option_copied decisions.entry)
        (S.stand source.old) (S.stand source.new)) }

    // If the sink failed it took a front of the text, and else nothing.
    ensures write { IsErrOf result VodFault.Write →
        WritesFront base.now (option_copied decisions.entry)
        (S.stand source.old) (S.stand source.new) (K.stand sink.old) (K.stand sink.new) }
    ensures nothing { IfErr result (λ e. e ≢ VodFault.Write → sink.new ≡ sink.old) }

    ensures kind { IfErr result IsOfVod }

    // The base is judged first and the decision file next, before anything is read.
    ensures order { IfErr result (λ e. IsInOrder e base.now (option_copied decisions.entry)) }
    ensures unread { base_of base.now ≡ None → source.new ≡ source.old }
    ensures undecided { (fault : DecisionFault) →
        events_of (option_copied decisions.entry) ≡ Err fault → source.new ≡ source.old }

    // The whole input is judged before anything is written.
    ensures playlist { IfErr result (λ e. (fault : Fault) → e ≡ VodFault.Playlist fault →
        HasRead base.now (S.stand source.old) (S.stand source.new) (Err fault)) }
    ensures number_range { IsErrOf result VodFault.NumberRange →
        HasJudged base.now (option_copied decisions.entry)
        (S.stand source.old) (S.stand source.new) (Some NumberRange) }

    // A device is blamed exactly if it failed, and is left alone then; the source is at its end too.
    ensures source { IsFairToSource VodFault.Read VodFault.TooManyReads result
        (S.stand source.old) (S.stand source.new) }
    ensures to_end { OnEnd result (GaveAtEachButLast (S.stand source.old) (S.stand source.new)) }
    ensures sink { IsFairToSink VodFault.Write result (K.stand sink.old) (K.stand sink.new) }
{
    let mut channel = decided_vod_channel(alloc, hashing, base, decisions)?;
    refresh_vod_channel_from(alloc, source, &mut channel)?;
    hand_out_vod_text(&channel, sink)?;
    Ok(channel)
}
