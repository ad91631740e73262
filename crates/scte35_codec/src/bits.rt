//! Numbers of some bytes, the first byte the highest, and their bits.

ghost use Rattle.std.specs.Prelude.{◌≡◌, ◌+◌, ◌^◌, ◌<◌, ◌≤◌, length, IfOk};
ghost use Rattle.scte35_codec.specs.Layout.{big_endian_splice_number};
ghost use Rattle.scte35_codec.specs.Reading.{GivesOrSpliceFault, number_at, bytes_at, splice_number_in, splice_bit};

use crate::fault::SpliceFault;

/// The number that `bytes` hold, at most eight of them, the highest byte first.
pub fn big_endian_splice_number(bytes: &[u8]) -> u64
    requires { length bytes.now ≤ 8 }
    ensures value { result ≡ big_endian_splice_number bytes.now }
    ensures below { result < 256 ^ length bytes.now }
{
    let mut number = 0;
    for byte in bytes {
        number = number * 256 + u64::from(*byte);
    }
    number
}

/// The number in the `count` bytes of `bytes` from the place `start` on, from 0: at most eight, the highest first.
pub fn splice_number_in(bytes: &[u8], start: usize, count: usize) -> u64
    requires few { count ≤ 8 }
    requires within { start + count ≤ length bytes.now }
    ensures value { result ≡ splice_number_in start count bytes.now }
    ensures below { result < 256 ^ count }
{
    big_endian_splice_number(&bytes[start..start + count])
}

/// The bit of `number` at `place`: the lowest is at place 0.
pub fn splice_bit(number: u64, place: u32) -> bool
    requires { place < 64 }
    ensures { result ≡ splice_bit place number }
{
    (number >> place) % 2 == 1
}

/// The number in the first `count` of `bytes`, at most eight, and the bytes after them. `CommandLength` if there are
/// fewer.
pub fn take_splice_number(bytes: &[u8], count: usize) -> Result<(u64, &[u8]), SpliceFault>
    requires { count ≤ 8 }
    ensures value { GivesOrSpliceFault (λ x. (x.0, x.1.now)) result (number_at count bytes.now) }
    ensures below { IfOk result (λ x. x.0 < 256 ^ count) }
{
    let (front, rest) = take_splice_bytes(bytes, count)?;
    Ok((big_endian_splice_number(front), rest))
}

/// The first `count` of `bytes`, and those after them. `CommandLength` if there are fewer.
pub fn take_splice_bytes(bytes: &[u8], count: usize) -> Result<(&[u8], &[u8]), SpliceFault>
    ensures value { GivesOrSpliceFault (λ x. (x.0.now, x.1.now)) result (bytes_at count bytes.now) }
    ensures len { IfOk result (λ x. length x.0.now ≡ count) }
{
    if bytes.len() < count {
        return Err(SpliceFault::CommandLength);
    }
    Ok(bytes.split_at(count))
}
