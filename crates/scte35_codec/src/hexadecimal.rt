//! Reading sections from hexadecimal text.

ghost use Rattle.std.specs.Prelude.{◌≡◌, ◌≢◌, ◌↔◌, ◌*◌, ◌≤◌, ℕ, List, IsTrue, false, true, Ok, Err, IfOk, IfErr, MatchResult, length, drop};
ghost use Rattle.std.specs.List.{list_all};
ghost use Rattle.std.specs.Char.{is_ascii_hexdigit};
ghost use Rattle.hex.specs.Hex.{decode_of};
ghost use Rattle.scte35_codec.specs.Section.{Section, section_of, IsSection};
ghost use Rattle.scte35_codec.specs.Reading.{GivesOrSpliceFault};
ghost use Rattle.scte35_codec.specs.declared.fault.SpliceFault.{SpliceFault};
ghost use Rattle.scte35_codec.specs.declared.fault.SpliceFault.TheVariants.{NotHex, CommandLength, TooLarge};
ghost use Rattle.scte35_codec.specs.Hexadecimal.{are_pairs, begins_with_0x, is_hex_text, hex_bytes, reading_hex};
ghost use Rattle.scte35_codec.specs.Inner.Hexadecimal.{reading_digits};

use crate::fault::SpliceFault;
use crate::info::SpliceInfo;
use crate::reading::read;
use std::alloc::Global;

// One byte more than the longest section has.
const TOO_MANY: usize = 4099;

fn are_section_digits(text: &[u8]) -> bool
    ensures { result ≡ list_all is_ascii_hexdigit text.now }
{
    text.iter().all(|c| c.is_ascii_hexdigit())
}

// What stands after `0x` or `0X`.
fn section_text_after_0x(text: &[u8]) -> Result<&[u8], SpliceFault>
    ensures { MatchResult result
        (λ digits. (begins_with_0x text.now ≡ true) × (digits.now ≡ drop 2 text.now))
        (λ e. (e ≡ NotHex) × (begins_with_0x text.now ≡ false)) }
{
    let [b'0', b'x' | b'X', digits @ ..] = text else {
        return Err(SpliceFault::NotHex);
    };
    Ok(digits)
}

// Fills a buffer with the bytes of pairs of digits.
fn decode_section_digits(digits: &[u8], out: &mut [u8])
    requires pairs { IsTrue (are_pairs digits.now) }
    requires len { length digits.now ≡ 2 * length out.old }
    ensures { decode_of digits.now ≡ Ok out.new }
{
    hex::decode_to_slice(digits, out).unwrap();
}

// Most sections have at most so many bytes.
const FEW: usize = 256;

#[tactic(auto, using(crate::proofs::DecodedOnce::short_says))]
// The section of pairs of digits, as most are: they are decoded into a small buffer, since it is cleared each time. Whether each is a
// digit is seen while they are decoded.
fn read_short_section_digits(alloc: Global, digits: &[u8]) -> Result<SpliceInfo, SpliceFault>
    requires { length digits.now ≤ 512 }
    ensures exact { GivesOrSpliceFault section_of result (reading_digits digits.now) }
    ensures told { (e : SpliceFault) → reading_digits digits.now ≡ Err e → e ≢ CommandLength
        → result ≡ Err e }
{
    let mut buffer = [0u8; FEW];
    let few = &mut buffer[..digits.len() / 2];
    match hex::decode_to_slice(digits, few) {
        Ok(()) => read(alloc, few),
        Err(_) => Err(SpliceFault::NotHex),
    }
}

// The same of any number of digits. No more bytes are decoded than show that there are too many.
fn read_long_section_digits(alloc: Global, digits: &[u8]) -> Result<SpliceInfo, SpliceFault>
    requires { IsTrue (are_pairs digits.now) }
    ensures exact { GivesOrSpliceFault section_of result (reading_digits digits.now) }
    ensures told { (e : SpliceFault) → reading_digits digits.now ≡ Err e → e ≢ CommandLength
        → result ≡ Err e }
{
    let count = (digits.len() / 2).min(TOO_MANY);
    let mut buffer = [0u8; TOO_MANY];
    let bytes = &mut buffer[..count];
    decode_section_digits(&digits[..2 * count], bytes);
    read(alloc, bytes)
}

#[tactic(auto, using(crate::proofs::DecodedOnce::not_pairs))]
// The section of pairs of digits, if they are some.
fn read_section_digits(alloc: Global, digits: &[u8]) -> Result<SpliceInfo, SpliceFault>
    ensures exact { GivesOrSpliceFault section_of result (reading_digits digits.now) }
    ensures told { (e : SpliceFault) → reading_digits digits.now ≡ Err e → e ≢ CommandLength
        → result ≡ Err e }
{
    if digits.len() <= 2 * FEW {
        return read_short_section_digits(alloc, digits);
    }
    if digits.len() % 2 != 0 || !are_section_digits(digits) {
        return Err(SpliceFault::NotHex);
    }
    read_long_section_digits(alloc, digits)
}

#[tactic(auto, using(crate::proofs::DecodedOnce::digits_say, crate::proofs::DecodedOnce::no_digits))]
fn splice_section_of_text(alloc: Global, text: &str) -> Result<SpliceInfo, SpliceFault>
    ensures exact { GivesOrSpliceFault section_of result (reading_hex text.now) }
    ensures told { (e : SpliceFault) → reading_hex text.now ≡ Err e → e ≢ CommandLength
        → result ≡ Err e }
{
    let digits = section_text_after_0x(text.as_bytes())?;
    read_section_digits(alloc, digits)
}

/// The splice_info_section (SCTE 35, section 9.6) that `text` holds in hexadecimal, as the SCTE35 attributes of
/// EXT-X-DATERANGE are written (RFC 8216, section 4.3.2.7.1): `0x` or `0X`, and two digits in either case for each
/// byte.
///
/// `NotHex` if `text` is not of this form; else the answer is that of [`read`] for the bytes.
pub fn read_hex(alloc: Global, text: &str) -> Result<SpliceInfo, SpliceFault>
    // What is read is what the text's bytes say.
    ensures found { IfOk result
        (λ info. (bytes : List ℕ) × (hex_bytes text.now ≡ Ok bytes)
        × IsSection (section_of info) bytes) }

    // What the text's bytes say is read, unless memory runs out.
    ensures only { (bytes : List ℕ) (s : Section) → hex_bytes text.now ≡ Ok bytes
        → IsSection s bytes → GivesOrSpliceFault section_of result (Ok s) }

    // Which fault it is. All but CommandLength are told whatever memory there is.
    ensures exact { GivesOrSpliceFault section_of result (reading_hex text.now) }
    ensures told { (e : SpliceFault) → reading_hex text.now ≡ Err e → e ≢ CommandLength
        → result ≡ Err e }
    ensures not_hex { (result ≡ Err NotHex) ↔ (is_hex_text text.now ≡ false) }
    ensures fault { IfErr result (λ e. e ≢ TooLarge) }
{
    splice_section_of_text(alloc, text)
}
