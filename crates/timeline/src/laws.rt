//! Laws of instants. Each function's contract is its law; calling it does nothing.
ghost use Rattle.timeline.specs.Laws.{SaidAreInRange, BegunAreInRange};

/// The instants that a text says, and those at which segments begin, are in range.
pub fn instants_are_in_range()
    ensures said { SaidAreInRange }
    ensures begun { BegunAreInRange }
{}
