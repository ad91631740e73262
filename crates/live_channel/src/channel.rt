//! A live channel: what it keeps, and what holds of it whatever it was given.
ghost use Rattle.std.specs.Prelude.{◌≡◌, ◌<◌, ◌≤◌, [], Some, None, IfOk, IsErrOf, IsSome, length, option_map, slice_get};
ghost use Rattle.std.specs.Option.{option_copied};
ghost use Rattle.playlist_model.specs.Uri.{base_of};
ghost use Rattle.live_channel.specs.Channel.{decided, withdrawn, ChangesStore, ChangesStoreExactly, after_bytes, StandsOn, AlwaysStandsOn, Represents, Decides, Withdraws, WritesWhatIsOwed, Refreshes, Knows, Explains, explained};
ghost use Rattle.channel_window.specs.Listed.{window_segments_in};
ghost use Rattle.pod_store.specs.Store.{withdrawn as without_break};
ghost use Rattle.pod_store.specs.Store.{is_used};
ghost use Rattle.break_finder.specs.Entering.{id_of_break, why};
ghost use Rattle.channel_spec.specs.Successor.{has_init_sections};
ghost use Rattle.channel_spec.specs.Limits.{max_tolerance};

use crate::refresh::{accept_live_refresh, live_playlist_after};
use break_finder::Why;
use channel_spec::{MAX_TOLERANCE, RefreshFault};
use channel_window::{ChannelState, Shown, WindowRow, shown_have_init_sections};
use decision_files::read_decisions;
use fixed_duration::Nanos;
use playlist_kept::LastPlaylist;
use playlist_model::{Shared, Text};
use playlist_write::resumed::WrittenText;
use pod_store::{DecisionFault, PodStore};
use std::alloc::{AllocError, Global};
use std::error::Error;
use std::fmt;
use std::hash::RandomState;
use std::marker::Model;
use uri_resolver::{Base, BaseFault};

/// What an accepted refresh did. `adsplice` drops it: the test driver prints it, and so may a program of one's own
/// (docs/LIBRARY.md).
#[derive(Clone, Copy, PartialEq, Eq, Debug)]
pub struct Refreshed {
    /// The first media sequence number that is written.
    pub media_sequence: u64,
    /// How many segments are written.
    pub segments: usize,
    /// How many segments of the origin were shown for the first time.
    pub fresh: usize,
}

/// A live channel. It keeps one window and a few numbers, and no history.
#[derive(Drop)]
pub struct Channel {
    base: Base,
    tolerance: Nanos,
    state: ChannelState,
    // What was written last.
    written: Option<WrittenText>,
    // What is kept of the playlist that was read last, so that the next one is read by what they have in common.
    source: Option<LastPlaylist>,
}

impl Model for Channel {
    ghost use Rattle.live_channel.specs.Channel.{Channel, WasGivenSomething, IsListed, channel_with, text_in};
    ghost use Rattle.playlist_kept.specs.Kept.{IsKeptUnderBase};

    ghost Value = { Channel };

    ghost view = { λ a. channel_with a.base a.tolerance a.state (text_in a.written) };

    ghost use Rattle.channel_window.specs.Showing.{AreKept, kept_in};
    ghost use Rattle.channel_window.specs.Checked.{AreContiguous};
    ghost use Rattle.channel_window.specs.Listed.{window_segments_in};
    ghost use Rattle.live_channel.specs.LastText.{IsLaidOut};

    ghost invariant = { λ a. WasGivenSomething (channel_with a.base a.tolerance a.state (text_in a.written)) × AreKept a.state.store a.state × (IsListed a.source a.state.list × AreContiguous (window_segments_in a.state.list)) × IsLaidOut (kept_in a.state) a.written × IsKeptUnderBase a.base a.source };
}

/// Why a channel can't be made.
#[derive(Clone, Copy, PartialEq, Eq, Debug)]
pub enum ChannelFault {
    /// C1: the base isn't an absolute http or https URL.
    BadBase,
    /// C2: the tolerance is over 10 s.
    BadTolerance,
    /// C3: an allocation failed.
    OutOfMemory,
}

impl ChannelFault {
    ghost use Rattle.live_channel.specs.FaultTexts.{channel_fault_text};

    /// The code and the name, as `C1 BadBase`.
    pub fn text(self) -> &'static str
        ensures text { result.now ≡ channel_fault_text self }
        ensures short { length result.now ≤ 15 }
    {
        match self {
            ChannelFault::BadBase => "C1 BadBase",
            ChannelFault::BadTolerance => "C2 BadTolerance",
            ChannelFault::OutOfMemory => "C3 OutOfMemory",
        }
    }
}

/// The fault's code and name.
impl fmt::Display for ChannelFault {
    ghost use Rattle.live_channel.specs.FaultTexts.{channel_fault_text};

    ghost output = { λ fault. Some (channel_fault_text fault) };

    fn fmt<W: fmt::Write>(&self, f: &mut fmt::Formatter<W>) -> fmt::Result {
        f.write_str(self.text())
    }
}

impl Error for ChannelFault {}

// Why a break is filled or not, if a playlist of this target duration was accepted last.
fn why_after_live_refresh(state: &ChannelState, target_duration: u64, id: &str) -> Why
    ensures { result ≡ why state.now.shown.knowledge id.now target_duration
        (has_init_sections (window_segments_in state.now.list)) state.now.store (is_used state.now.store id.now) }
{
    let with_init_sections = shown_have_init_sections(state.list.as_slice());
    let store = &state.store;
    let is_used = store.is_used(id);
    let known = &state.shown.knowledge;
    known.why(id, target_duration, with_init_sections, store, is_used)
}

impl Channel {
    /// A channel that was given nothing. Its playlists are under the URL `base`, and a segment is near a break's
    /// start if it begins at most `tolerance` from it. `BadBase` if `base` isn't an absolute http or https URL (RFC
    /// 8216, section 4.1); then `BadTolerance` if `tolerance` is over 10 s; `OutOfMemory` only if an allocation
    /// fails. `hashing`: the keys for its tables of IDs, which strangers choose.
    pub fn new(
        alloc: Global,
        hashing: RandomState,
        base: &str,
        tolerance: Nanos,
    ) -> Result<Channel, ChannelFault>
        ensures ok { IfOk result
            (λ c. (base_of base.now ≡ Some c.base) × (c.tolerance ≡ tolerance)
            × (tolerance ≤ max_tolerance) × Represents c []) }
        ensures base { IsErrOf result ChannelFault.BadBase → base_of base.now ≡ None }
        ensures tolerance { IsErrOf result ChannelFault.BadTolerance → IsSome (base_of base.now)
            × (max_tolerance < tolerance) }
    {
        let base = match Base::new(alloc, base) {
            Ok(base) => base,
            Err(BaseFault::BadBase) => return Err(ChannelFault::BadBase),
            Err(_) => return Err(ChannelFault::OutOfMemory),
        };
        if tolerance.0 > MAX_TOLERANCE {
            return Err(ChannelFault::BadTolerance);
        }
        let Ok(shown) = Shown::new(alloc, hashing) else {
            return Err(ChannelFault::OutOfMemory);
        };
        Ok(Channel {
            base,
            tolerance,
            state: ChannelState {
                store: PodStore::new(alloc, hashing),
                last: None,
                list: WindowRow::new(alloc),
                shown,
            },
            written: None,
            source: None,
        })
    }

    /// Takes `bytes`, the origin's playlist as it is now. Either it is accepted, and the text that is written is the
    /// one owed then; or it is refused with its first fault, and the channel is as it was. The order of faults: those
    /// of reading it (P1 to P24), whether it may follow the last one (N1 to N9; RFC 8216, sections 6.2.1 and 6.2.2),
    /// `NumberRange`; `OutOfMemory` only if an allocation fails. What `bytes` have in common with the text of the
    /// last refresh is not read again, and the lines of segments that were written last are copied.
    ///
    /// ```text
    /// let mut channel = Channel::new(alloc, hashing, "http://origin.example/ch/index.m3u8", Nanos(100_000_000))?;
    /// channel.decide(alloc, decisions)?;
    /// channel.refresh(alloc, playlist)?;
    /// channel.playlist()    Some: the text of the stitched playlist
    /// ```
    pub fn refresh(&mut self, alloc: Global, bytes: &[u8]) -> Result<Refreshed, RefreshFault>
        ensures { Refreshes self.old bytes.now result self.new }
    {
        let read = live_playlist_after(alloc, bytes, &self.base, &self.source)?;
        let (state, written) = (&mut self.state, &mut self.written);
        let refreshed = accept_live_refresh(alloc, self.tolerance, state, written, &read)?;
        let step = read.step();
        self.source = step.after(alloc, self.source.take());
        Ok(refreshed)
    }

    /// Takes `bytes`, a decision file. The faults, in this order: those of reading it (J1 to J7), then those of
    /// `PodStore::decide`; `OutOfMemory` only if an allocation fails. After a fault the channel is as it was.
    pub fn decide(&mut self, alloc: Global, bytes: &[u8]) -> Result<(), DecisionFault>
        ensures changes { ChangesStore self.old self.new result
            (after_bytes self.old.kept.store bytes.now) }
        ensures answer { Decides self.old bytes.now result }
        ensures stands { StandsOn self.old (decided bytes.now) result self.new }
    {
        let decisions = read_decisions(alloc, self.state.store.hashing(), bytes)?;
        self.state.store.decide(decisions)
    }

    /// Takes the pod of the break `id` away. `Unknown` if it has none of its own, `Used` if it is in use; the channel
    /// is then as it was. Takes no memory.
    pub fn withdraw(&mut self, id: &str) -> Result<(), DecisionFault>
        ensures changes { ChangesStoreExactly self.old self.new result
            (without_break self.old.kept.store id.now) }
        ensures answer { Withdraws self.old id.now result }
        ensures stands { AlwaysStandsOn self.old (withdrawn id.now) self.new }
    {
        self.state.store.withdraw(id)
    }

    #[tactic(auto, using(crate::proofs::Steps::live_writes))]
    /// The text that is written: none before the first accepted refresh.
    pub fn playlist(&self) -> Option<&[u8]>
        ensures text { option_copied result ≡ self.now.text }

        // It denotes what is owed, under every base.
        ensures owed { WritesWhatIsOwed self.now }
    {
        match &self.written {
            Some(written) => Some(written.text.as_str().as_bytes()),
            None => None,
        }
    }

    /// The same text, of which the caller is then an owner too: no byte is copied. Fails only if an allocation fails.
    pub fn shared_playlist(&self) -> Result<Option<Shared<Text>>, AllocError>
        ensures { IfOk result (λ text. text ≡ self.now.text) }
    {
        match &self.written {
            Some(written) => Ok(Some(written.text.clone()?)),
            None => Ok(None),
        }
    }

    #[tactic(auto, using(crate::proofs::Owed::knows))]
    /// The ID of the known break at `place`, from 0, in the order in which they became known. `None` past the last.
    pub fn known(&self, place: usize) -> Option<&str>
        ensures place { option_map (λ id. id.now) result
            ≡ option_map id_of_break (slice_get self.now.kept.breaks place) }
        ensures owed { Knows self.now place (option_map (λ id. id.now) result) }
    {
        self.state.shown.knowledge.ids(place)
    }

    #[tactic(auto, using(crate::proofs::Owed::explains, crate::proofs::Owed::explained_so))]
    /// Why the break `id` is filled or not, by the last accepted refresh and the pods that are decided now:
    /// `NotKnown` before the first refresh. Takes no memory.
    pub fn explain(&self, id: &str) -> Why
        ensures why { result ≡ explained self.now.kept id.now }
        ensures owed { Explains self.now id.now result }
    {
        match &self.state.last {
            Some(last) => why_after_live_refresh(&self.state, last.target_duration, id),
            None => Why::NotKnown,
        }
    }
}
