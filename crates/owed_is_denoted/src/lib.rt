//! What is written for a live playlist, or for one that stands alone: it is well formed, and its text denotes what is
//! owed, under every base. Each function's contract is its law; calling it does nothing.
#![tactic(auto)]

ghost use Rattle.owed_is_denoted.specs.Laws.{OwedIsWellFormed, OwedIsDenoted, TextDenotesOwed, AlwaysDenotes};

/// What is owed after an accepted refresh can be written.
pub fn owed_is_well_formed()
    ensures { OwedIsWellFormed }
{}

/// What is written denotes what is owed.
pub fn owed_is_denoted()
    ensures { OwedIsDenoted }
{}

/// The text denotes what is owed, under every base.
pub fn text_denotes_owed()
    ensures { TextDenotesOwed }
{}

/// After any events the text of what is owed denotes it, under every base.
pub fn always_denotes()
    ensures { AlwaysDenotes }
{}
