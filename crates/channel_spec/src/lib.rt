//! What is owed for a live playlist whose breaks are filled, after all decisions and refreshes so far, and the laws of
//! it. The definitions look back over the whole history; what is kept between refreshes is proved to follow it. Each
//! function's contract is its law; calling it does nothing.
#![tactic(auto)]

ghost use Rattle.channel_spec.specs.BreakLaws.{InUseIsWritten, RunsKeepTheirPods, FallbackFills, WrittenEndIsNear, WindowsFollow};
ghost use Rattle.channel_spec.specs.KeptLaws.{KeptFollows, KeptHavePods};
ghost use Rattle.channel_spec.specs.LastWindow.{ItemsGoOn};
ghost use Rattle.channel_spec.specs.OwedLaws.{HeaderIsTheLast, DateRangesAreTheOrigins, WindowIsStitched, UnmarkedStandOnce, SegmentsPlayTheWindow, NothingDecidedNothingChanged, PodsAreKept, StoreStaysSmall};
ghost use Rattle.channel_spec.specs.LiveLaws.{OnlyGrows, EachSucceeds, MarksFollow, HistoriesAreLinked, MarksAreKnown, NoFaultSucceeds, NewestFits, MarksHavePods, UsedAreInUse};
ghost use Rattle.channel_spec.specs.ListedLaws.{ShownAreListed};
ghost use Rattle.std.specs.Prelude.{◌≡◌};
ghost use Rattle.channel_spec.specs.Limits.{default_tolerance, max_tolerance};

mod fault;
mod heading;

pub use fault::{RefreshFault, short_text};
pub use heading::{Heading, owed_heading_of};

/// How far from the start of a break an instant may lie and still enter it, and how far before its end it must lie, if
/// nothing else is asked: 100 ms, in nanoseconds.
pub const DEFAULT_TOLERANCE: u64 = 100_000_000;

/// The most that may be asked: 10 s, in nanoseconds.
pub const MAX_TOLERANCE: u64 = 10_000_000_000;

/// These constants are the tolerances of the definitions.
pub fn owed_tolerances_are_the_limits()
    ensures default { default_tolerance ≡ DEFAULT_TOLERANCE }
    ensures most { max_tolerance ≡ MAX_TOLERANCE }
{}

/// The stitched list only grows, whatever events come.
pub fn owed_stitched_list_only_grows()
    ensures { OnlyGrows }
{}

/// Each written playlist succeeds the one written before it.
pub fn each_owed_playlist_succeeds()
    ensures { EachSucceeds }
{}

/// A segment's instant and mark follow from the refresh, the segment before and the last break entered.
pub fn owed_marks_follow()
    ensures { MarksFollow }
{}

/// A segment that goes on a run has its pod.
pub fn owed_histories_are_linked()
    ensures { HistoriesAreLinked }
{}

/// A mark that a refresh carries was known before it.
pub fn owed_marks_are_known()
    ensures { MarksAreKnown }
{}

/// A playlist succeeds another exactly if it has no fault.
pub fn playlist_without_refresh_fault_succeeds()
    ensures { NoFaultSucceeds }
{}

/// A number passes its range only if the newest item's does.
pub fn newest_owed_item_fits()
    ensures { NewestFits }
{}

/// The store has the pod of each mark of a shown segment, of the last break entered, and of the rest of a pod that the
/// window starts with, used.
pub fn owed_marks_have_pods()
    ensures { MarksHavePods }
{}

/// A break is used in the store exactly if it marks a shown segment, was entered last, or the window starts with the
/// rest of its pod.
pub fn breaks_used_are_owed_in_use()
    ensures { UsedAreInUse }
{}

/// A break is in use exactly if a segment of its pod is written, or if it is the last one entered.
pub fn breaks_in_use_are_owed_written()
    ensures { InUseIsWritten }
{}

/// A run keeps the pod that it was entered with, whatever comes later.
pub fn owed_runs_keep_their_pods()
    ensures { RunsKeepTheirPods }
{}

/// A signalled break that begins at a segment and has no pod of its own is filled with the fallback, if that fits: the
/// segment begins within the tolerance of START-DATE, the run before ends there, and no earlier break is entered.
pub fn owed_fallback_fills()
    ensures { FallbackFills }
{}

/// While a run is open, the written end is later than the end of the run's own segments by at most one segment of its pod.
pub fn owed_end_is_near()
    ensures { WrittenEndIsNear }
{}

/// A window follows from the window before, the store, what is known of breaks, the shown segments with their marks, the break
/// that was entered last, the length of the newest run, the rest of a pod, and the refresh.
pub fn owed_windows_follow()
    ensures { WindowsFollow }
{}

/// The header of the owed playlist is that of the one that was accepted last, of version 6 at least.
pub fn owed_header_is_the_last()
    ensures { HeaderIsTheLast }
{}

/// A date range of the origin is written word for word exactly if its break isn't played and a written segment states a time.
pub fn owed_date_ranges_are_the_origins()
    ensures { DateRangesAreTheOrigins }
{}

/// The window is what stands for the shown segments, of the pod of an open run as much as is due, after the rest of one pod.
pub fn owed_window_is_stitched()
    ensures { WindowIsStitched }
{}

/// The origin's segments in the window are the unmarked ones of those that are shown, each once and in their order.
pub fn owed_unmarked_segments_stand_once()
    ensures { UnmarkedStandOnce }
{}

/// The owed segments play what the window's pieces play, one for one.
pub fn owed_segments_play_the_window()
    ensures { SegmentsPlayTheWindow }
{}

/// Without decisions a first refresh is owed as it was read, except that each segment states the instant at which it begins, if
/// it has one.
pub fn nothing_decided_owed_as_read()
    ensures { NothingDecidedNothingChanged }
{}

/// After an accepted refresh a break has a pod of its own exactly if it is in use and was filled, or if a decision gave it
/// one and it wasn't entered.
pub fn owed_pods_are_kept()
    ensures { PodsAreKept }
{}

/// No break stands twice in the store, and at most 256 have pods that decisions gave them.
pub fn owed_store_stays_small()
    ensures { StoreStaysSmall }
{}

/// What is kept of all events, and what is owed, follow from what was kept before.
pub fn kept_and_owed_follow()
    ensures { KeptFollows }
{}

/// The store has the pod of each mark that is kept, used.
pub fn kept_and_owed_have_pods()
    ensures { KeptHavePods }
{}

/// The items of the window that is written next go on those of the one that was written last: no item of it has changed.
pub fn owed_items_go_on()
    ensures { ItemsGoOn }
{}

/// The segments that are shown from the first number of the playlist that was accepted last on are those that it lists,
/// one for one, each the same in all but title, time and steps.
pub fn owed_segments_shown_are_listed()
    ensures { ShownAreListed }
{}
