//! Why no playlist was written, or not the whole of it.
ghost use Rattle.std.specs.Prelude.{◌≡◌, Some};
ghost use Rattle.vod_run.specs.FaultTexts.{vod_fault_text};
ghost use Rattle.vod_run.specs.Events.{fault_of_decisions};

use byte_streams::SinkFailed;
use channel_spec::short_text;
use live_channel::{ChannelFault, RefreshFault};
use playlist_model::PlaylistFault;
use pod_store::{DecisionFault, DecisionFaultText, DecisionKind};
use std::alloc::{AllocError, AllocFailed};
use std::error::Error;
use std::fmt;

/// Why `vod` wrote no playlist, or not the whole of it.
#[derive(Clone, Copy, Debug, PartialEq, Eq)]
pub enum VodFault {
    /// C1: the base is no absolute http or https URL.
    BadBase,
    /// J1 to J7: the first fault of the decision file. J11: it withdraws a break.
    Decision(DecisionFault),
    /// The first fault of the playlist.
    Playlist(PlaylistFault),
    /// N10: a media or discontinuity sequence number would pass 2^64 - 1.
    NumberRange,
    /// E1: a read failed.
    Read,
    /// E3: the 65,536th read still gave bytes.
    TooManyReads,
    /// E2: a write failed, or took nothing.
    Write,
    /// E5: an allocation failed.
    OutOfMemory,
}

impl From<AllocError> for VodFault {
    ghost use Rattle.vod_run.specs.declared.fault.VodFault.TheVariants.{OutOfMemory};

    ghost from_gives = { λ _ e. e ≡ OutOfMemory };

    fn from(_: AllocError) -> VodFault {
        VodFault::OutOfMemory
    }
}

impl<T: Drop> From<AllocFailed<T>> for VodFault {
    ghost use Rattle.vod_run.specs.declared.fault.VodFault.TheVariants.{OutOfMemory};

    ghost from_gives = { λ _ e. e ≡ OutOfMemory };

    fn from(_: AllocFailed<T>) -> VodFault {
        VodFault::OutOfMemory
    }
}

/// Why no channel is made: its tolerance is the default, so that it is made for its base alone or not.
impl From<ChannelFault> for VodFault {
    ghost use Rattle.vod_run.specs.Given.{fault_of_channel};

    ghost from_gives = { λ fault e. e ≡ fault_of_channel fault };

    fn from(fault: ChannelFault) -> VodFault {
        match fault {
            ChannelFault::OutOfMemory => VodFault::OutOfMemory,
            _ => VodFault::BadBase,
        }
    }
}

impl From<SinkFailed> for VodFault {
    ghost use Rattle.vod_run.specs.declared.fault.VodFault.TheVariants.{Write};

    ghost from_gives = { λ _ e. e ≡ Write };

    fn from(_: SinkFailed) -> VodFault {
        VodFault::Write
    }
}

/// Why decisions say nothing or are not taken; every failed allocation is one fault.
impl From<DecisionFault> for VodFault {
    ghost use Rattle.vod_run.specs.Events.{fault_of_decisions};

    ghost from_gives = { λ fault e. e ≡ fault_of_decisions fault };

    fn from(fault: DecisionFault) -> VodFault {
        if fault.kind == DecisionKind::OutOfMemory {
            return VodFault::OutOfMemory;
        }
        VodFault::Decision(fault)
    }
}

/// Why a channel's one refresh is refused. There is no playlist before it that it has to follow, so what can be read is
/// refused for its numbers alone.
impl From<RefreshFault> for VodFault {
    ghost use Rattle.vod_run.specs.Given.{fault_of_refresh};

    ghost from_gives = { λ fault e. e ≡ fault_of_refresh fault };

    fn from(fault: RefreshFault) -> VodFault {
        match fault {
            RefreshFault::Playlist(fault) => VodFault::Playlist(fault),
            RefreshFault::OutOfMemory => VodFault::OutOfMemory,
            _ => VodFault::NumberRange,
        }
    }
}

impl VodFault {
    /// What the program prints of the fault, without its line feed.
    pub fn text(self) -> DecisionFaultText
        ensures { result.bytes ≡ vod_fault_text self }
    {
        match self {
            VodFault::BadBase => short_text(ChannelFault::BadBase.text()),
            VodFault::Decision(fault) => fault.text(),
            VodFault::Playlist(fault) => short_text(fault.text().as_str()),
            VodFault::NumberRange => short_text(RefreshFault::NumberRange.text().as_str()),
            VodFault::Read => short_text("cannot read input"),
            VodFault::TooManyReads => short_text("E3 TooManyReads"),
            VodFault::Write => short_text("cannot write output"),
            VodFault::OutOfMemory => short_text("E5 OutOfMemory"),
        }
    }
}

/// The fault's text, as the program prints it.
impl fmt::Display for VodFault {
    ghost output = { λ fault. Some (vod_fault_text fault) };

    fn fmt<W: fmt::Write>(&self, f: &mut fmt::Formatter<W>) -> fmt::Result {
        f.write_str(self.text().as_str())
    }
}

impl Error for VodFault {}
