//! Laws of known breaks. Each function's contract is its law; calling it does nothing.
ghost use Rattle.break_finder.specs.Laws.{KnowledgeIsCarried};

/// What is known after a refresh, by looking back over all accepted refreshes, is what the refresh makes of
/// what was known before it.
pub fn knowledge_is_carried()
    ensures { KnowledgeIsCarried }
{}
