//! Initialisation vectors as they are written (RFC 8216, section 4.3.2.4).
ghost use Rattle.std.specs.Prelude.{◌≡◌, ◌++◌, ◌<◌, true, codes};
ghost use Rattle.std.specs.Fmt.{digit_glyph};
ghost use Rattle.date_times.specs.Digits.{fixed_digits};
ghost use Rattle.fixed_duration.specs.Appended.{Appends};

use std::alloc::AllocError;
use std::str;

fn written_iv_digit(digit: u8) -> u8
    requires { digit < 16 }
    ensures { result ≡ digit_glyph true digit }
{
    if digit < 10 {
        b'0' + digit
    } else {
        b'A' + (digit - 10)
    }
}

// The 32 hexadecimal digits of an initialisation vector. Most vectors are the numbers of segments (RFC 8216, section 5.2), so
// that most digits are zeros in front.
fn written_iv_digits(iv: u128) -> [u8; 32]
    ensures { result ≡ fixed_digits 16 32 iv }
{
    let mut digits = [b'0'; 32];
    let (mut at, mut left) = (32, iv);
    while left > 0 && at > 0 {
        at -= 1;
        digits[at] = written_iv_digit((left % 16) as u8);
        left /= 16;
    }
    digits
}

/// Appends to `out` the closing quote of a value, and IV of a key tag (RFC 8216, section 4.3.2.4) with the 32
/// hexadecimal digits of `iv`. Fails only if an allocation fails.
pub fn write_quote_and_iv(out: &mut String, iv: u128) -> Result<(), AllocError>
    ensures { Appends result out.old out.new (codes "\",IV=0x" ++ fixed_digits 16 32 iv) }
{
    out.push_str("\",IV=0x")?;
    let digits = written_iv_digits(iv);
    // What is written is ASCII.
    out.push_str(unsafe { str::from_utf8_unchecked(&digits) })
}
