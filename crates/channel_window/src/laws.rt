//! Laws of marks and of windows. Each function's contract is its law; calling it does nothing.
ghost use Rattle.channel_window.specs.MarkingLaws.{LengthsAreKept, MarksAreShown, PlaceIsCounted};
ghost use Rattle.channel_window.specs.WindowLaws.{WindowIsRestOfStitched, NumberRangeIsStitched};

/// The segments that are marked after others are those that are shown after them.
pub fn marks_in_window_are_shown()
    ensures { MarksAreShown }
{}

/// The newest run has lasted as long with them.
pub fn run_lengths_in_window_are_kept()
    ensures { LengthsAreKept }
{}

/// The place of the newest segment is counted from the oldest on.
pub fn place_in_window_is_counted()
    ensures { PlaceIsCounted }
{}

/// The window is the rest of the stitched list from a place on.
pub fn window_is_rest_of_stitched_list()
    ensures window { WindowIsRestOfStitched }
    ensures number_range { NumberRangeIsStitched }
{}
