//! Laws of splice sections. Each function's contract is its law; calling it does nothing.

ghost use Rattle.std.specs.Prelude.{◌≡◌, ◌≤◌, ◌↔◌, ◌++◌, ℕ, List, length, IsTrue, Ok};
ghost use Rattle.std.specs.Int.{bytes_high_first};
ghost use Rattle.scte35_codec.specs.Layout.{IsBytes};
ghost use Rattle.scte35_codec.specs.Section.{Section, IsSection};
ghost use Rattle.scte35_codec.specs.Reading.{reading};
ghost use Rattle.scte35_codec.specs.Writing.{has_splice_section};
ghost use Rattle.scte35_codec.specs.Crc.{crc_of};

/// Reading finds what the layout says, no more and no less.
pub fn reads_the_splice_section_layout()
    ensures { (bytes : List ℕ) (s : Section) → IsBytes bytes → (reading bytes ≡ Ok s)
        ↔ IsSection s bytes }
{}

/// No bytes have two values.
pub fn splice_section_has_one_value()
    ensures { (bytes : List ℕ) (s t : Section) → IsBytes bytes → IsSection s bytes
        → IsSection t bytes → s ≡ t }
{}

/// A value is refused only if no section of at most 4,096 bytes says it, so that section_length is at
/// most 4093.
pub fn refuses_what_has_no_splice_section()
    ensures { (s : Section) (bytes : List ℕ) → IsBytes bytes → length bytes ≤ 4096
        → IsSection s bytes
        → IsTrue (has_splice_section s) }
{}

/// The CRC_32 of bytes with their CRC_32 after them is 0, as ISO/IEC 13818-1, Annex A, has it.
pub fn crc_of_splice_section_is_zero()
    ensures { (bytes : List ℕ) → crc_of (bytes ++ bytes_high_first 4 (crc_of bytes)) ≡ 0 }
{}
