//! Decimal numbers and hexadecimal sequences.
ghost use Rattle.std.specs.Prelude.{◌≡◌, ◌+◌, ◌-◌, ◌*◌, ◌^◌, ◌<◌, ◌≤◌, length, drop, true, false, MatchOption, MatchResult};
ghost use Rattle.std.specs.Option.{ok_or, SomeIff, IfSome};
ghost use Rattle.std.specs.List.{list_all};
ghost use Rattle.std.specs.Str.Parse.{digits_value};
ghost use Rattle.std.specs.Char.{is_ascii_digit, is_ascii_hexdigit, digit_value};
ghost use Rattle.attr_list.specs.Numbers.{decimal_of, hex_of, has_hex_prefix};

use crate::AttrFault;

const MAX_DECIMAL_DIGITS: usize = 20;

// So many digits write a number below 2^64, whatever they are.
const DIGITS_WITH_ROOM: usize = 19;

const MAX_HEX_DIGITS: usize = 32;

/// The number that `text` states as a decimal integer (RFC 8216, section 4.2): 1 to 20 digits, below 2^64.
/// `BadNumber` for anything else. Takes no memory.
pub fn read_decimal(text: &str) -> Result<u64, AttrFault>
    ensures { result ≡ ok_or (decimal_of text.now) AttrFault.BadNumber }
{
    let digits = text.as_bytes();
    if digits.is_empty() || digits.len() > MAX_DECIMAL_DIGITS {
        return Err(AttrFault::BadNumber);
    }
    let (front, last) = digits.split_at(digits.len().min(DIGITS_WITH_ROOM));
    let value = number_of_decimal_digits(front)?;
    match last.first() {
        None => Ok(value),
        Some(digit) => with_decimal_digit(value, *digit).ok_or(AttrFault::BadNumber),
    }
}

// The number that these digits write. `BadNumber` if one is none.
fn number_of_decimal_digits(digits: &[u8]) -> Result<u64, AttrFault>
    requires { length digits.now ≤ DIGITS_WITH_ROOM }
    ensures { MatchResult result
        (λ value. (value ≡ digits_value 10 digits.now) × (list_all is_ascii_digit digits.now ≡ true))
        (λ e. (e ≡ AttrFault.BadNumber) × (list_all is_ascii_digit digits.now ≡ false)) }
{
    let mut value: u64 = 0;
    for digit in digits {
        if !digit.is_ascii_digit() {
            return Err(AttrFault::BadNumber);
        }
        value = value * 10 + u64::from(*digit - b'0');
    }
    Ok(value)
}

// A number with one more digit behind it, below 2^64.
fn with_decimal_digit(number: u64, digit: u8) -> Option<u64>
    ensures { SomeIff result ((is_ascii_digit digit ≡ true)
        × (number * 10 + (digit - 48) < 2 ^ 64)) (number * 10 + (digit - 48)) }
{
    if !digit.is_ascii_digit() {
        return None;
    }
    number.checked_mul(10)?.checked_add(u64::from(digit - b'0'))
}

/// The number that `text` states as a hexadecimal sequence (RFC 8216, section 4.2): `0x` or `0X` and 1 to 32 digits
/// of either case. `BadNumber` for anything else. Takes no memory.
pub fn read_hex_u128(text: &str) -> Result<u128, AttrFault>
    ensures { result ≡ ok_or (hex_of text.now) AttrFault.BadNumber }
{
    let Some(digits) = after_hexadecimal_prefix(text) else {
        return Err(AttrFault::BadNumber);
    };
    let digits = digits.as_bytes();
    if digits.is_empty() || digits.len() > MAX_HEX_DIGITS {
        return Err(AttrFault::BadNumber);
    }
    let mut value: u128 = 0;
    for digit in digits {
        let Some(number) = hexadecimal_digit_number(*digit) else {
            return Err(AttrFault::BadNumber);
        };
        value = value * 16 + u128::from(number);
    }
    Ok(value)
}

// What follows `0x` or `0X`.
fn after_hexadecimal_prefix(text: &str) -> Option<&str>
    ensures { MatchOption result (has_hex_prefix text.now ≡ false)
        (λ digits. (has_hex_prefix text.now ≡ true) × (digits.now ≡ drop 2 text.now)) }
{
    match text.as_bytes() {
        [b'0', b'x' | b'X', ..] => Some(&text[2..]),
        _ => None,
    }
}

// The number that a hexadecimal digit stands for.
fn hexadecimal_digit_number(digit: u8) -> Option<u8>
    ensures value { SomeIff result (is_ascii_hexdigit digit ≡ true) (digit_value digit) }
    ensures below { IfSome result (λ number. number < 16) }
{
    match digit {
        b'0'..=b'9' => Some(digit - b'0'),
        b'a'..=b'f' => Some(digit - b'a' + 10),
        b'A'..=b'F' => Some(digit - b'A' + 10),
        _ => None,
    }
}
