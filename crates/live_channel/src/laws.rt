//! Laws of channels. Each function's contract is its law; calling it does nothing.
ghost use Rattle.live_channel.specs.ChannelLaws.{StepFollows, StepsRefresh, DecideFollows, UndecidedFollows, WithdrawFollows, ChannelWrites, AcceptanceIsExact, StitchedListGrows, OwedPlaylistsSucceed};
ghost use Rattle.live_channel.specs.GivenLaws.{GivenIsSound};

/// A refresh of what is kept answers what is owed for all that was given.
pub fn live_step_follows()
    ensures step { StepFollows }
    ensures refresh { StepsRefresh }
{}

/// Decisions change the store alone.
pub fn live_decisions_follow()
    ensures decided { DecideFollows }
    ensures refused { UndecidedFollows }
    ensures withdrawn { WithdrawFollows }
{}

/// What a channel writes denotes what is owed.
pub fn live_writes()
    ensures { ChannelWrites }
{}

/// A refresh is accepted exactly if its bytes are read as a playlist, that may follow the last one, if there is one,
/// and every number of the stitched list fits 64 bits.
pub fn live_acceptance_is_exact()
    ensures { AcceptanceIsExact }
{}

/// The stitched list only grows, whatever is given: a segment that was written keeps its place, and its media and
/// discontinuity numbers (RFC 8216, section 6.2.1).
pub fn live_stitched_list_grows()
    ensures { StitchedListGrows }
{}

/// Each owed playlist is the one before it, or may follow it by RFC 8216, 6.2.1 and 6.2.2: so its window never moves back,
/// and no segment that was written changes.
pub fn live_playlists_succeed()
    ensures { OwedPlaylistsSucceed }
{}

/// All that a channel was given makes sense: the laws of `channel_spec` take no other events.
pub fn given_to_live_channel_is_sound()
    ensures { GivenIsSound }
{}
