//! Laws of what is read. Each function's contract is its law; calling it does nothing.
#![tactic(auto)]

ghost use Rattle.read_is_writable.specs.Laws.{ReadCanBeWritten, ReadsWithinLimits};

/// What is read, by whatever reader and under whatever base, can be written again.
pub fn read_can_be_written()
    ensures { ReadCanBeWritten }
{}

/// A playlist is read within the limits exactly if it is denoted and keeps them: at most 4,194,304 bytes, 64
/// attributes in a tag, 16 key formats in force and 10,000 segments.
pub fn reads_within_limits()
    ensures { ReadsWithinLimits }
{}
