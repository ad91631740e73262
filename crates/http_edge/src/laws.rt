//! Laws on what requests are answered.
ghost use Rattle.std.specs.Prelude.{ℕ, List};
ghost use Rattle.http_messages.specs.declared.message.Request.{Request as Asked};
ghost use Rattle.http_edge.specs.Isolation.{IsIsolated, RunsAreIsolated, PathsAreOnTheirChannels, PathsLeadToTheirChannels};

/// The requests on a channel are answered as they alone would be, if none of them is answered 503.
pub fn channels_are_isolated()
    ensures { (name : List ℕ) (requests : List Asked) → IsIsolated name requests }
{}

/// The same of every run of [`Edge::answer`](crate::Edge::answer) from an edge that stands for no request, in which an allocation
/// failed or there were too many channels at any time: what was answered 503 counts for nothing, whosever request it was.
pub fn runs_are_isolated()
    ensures { RunsAreIsolated }
{}

/// A request whose path is one of a channel's name, of up to 32 bytes, is on this channel, and does what it names of it.
pub fn paths_are_of_their_channels()
    ensures on { PathsAreOnTheirChannels }
    ensures lead { PathsLeadToTheirChannels }
{}
