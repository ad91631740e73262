//! Laws of key tags. Each function's contract is its law; calling it does nothing.
ghost use Rattle.stitcher.specs.Laws.{TagsLead};

/// The key tags between two sets of keys lead from the one to the other (RFC 8216, section 4.3.2.4).
pub fn transition_leads()
    ensures { TagsLead }
{}
