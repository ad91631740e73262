//! Laws of the definitions. Each function's contract is its law; calling it does nothing.
ghost use Rattle.std.specs.Prelude.{◌≡◌, Some};
ghost use Rattle.playlist_model.specs.Laws.{KeysAreTheLast, KeysAreSorted, ReadsWhatIsDenoted, LinesAreSlices};
ghost use Rattle.playlist_model.specs.Reading.{limited};

use crate::limits::{MAX_BYTES, MAX_FORMATS, MAX_SEGMENTS};
use attr_list::MAX_ATTRIBUTES;

/// The key in force of a format is the last one since METHOD=NONE.
pub fn keys_in_force_are_the_last()
    ensures { KeysAreTheLast }
{}

/// The keys in force are sorted by the bytes of their format, with one key for each.
pub fn keys_in_force_are_sorted()
    ensures { KeysAreSorted }
{}

/// What a reader with limits reads is what the bytes denote.
pub fn what_is_read_is_denoted()
    ensures { ReadsWhatIsDenoted }
{}

/// The lines of a text are slices of it.
pub fn lines_are_slices()
    ensures { LinesAreSlices }
{}

/// The reader's limits are these constants.
pub fn limits_are_the_readers()
    ensures bytes { limited.bytes ≡ Some MAX_BYTES }
    ensures attributes { limited.attributes ≡ Some MAX_ATTRIBUTES }
    ensures formats { limited.formats ≡ Some MAX_FORMATS }
    ensures segments { limited.segments ≡ Some MAX_SEGMENTS }
{}
