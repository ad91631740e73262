//! CRC_32, the check of a section's bytes.

ghost use Rattle.std.specs.Prelude.{◌≡◌, fold};
ghost use Rattle.scte35_codec.specs.Crc.{crc_after_bit, crc_of, lowest_bits};

// The powers of the polynomial below the highest, a bit for each.
const POLYNOMIAL: u32 = 0x04C1_1DB7;

/// CRC_32 of `bytes` (SCTE 35, section 9.6): the one of MPEG-2 (ISO/IEC 13818-1, Annex A), of polynomial 0x04C11DB7
/// with all ones at first, which nothing reflects or inverts. That of a whole section with its CRC_32 is 0. Takes no
/// memory.
#[tactic(auto, using(crate::proofs::Registers::crc_by_bytes))]
pub fn crc_of(bytes: &[u8]) -> u32
    ensures { result ≡ crc_of bytes.now }
{
    bytes
        .iter()
        .fold(u32::MAX, |register, byte| crc_after_byte(register, *byte))
}

// The register after the bits of a byte.
#[tactic(auto, using(crate::proofs::Registers::bit_goes, crate::proofs::Registers::no_bits))]
fn crc_after_byte(register: u32, byte: u8) -> u32
    ensures { result ≡ fold crc_after_bit register (lowest_bits 8 byte) }
{
    let mut register = register;
    let mut left: u32 = 8;
    while left > 0 {
        left -= 1;
        register = crc_after_bit(register, (byte >> left) % 2 == 1);
    }
    register
}

// The register after a bit.
#[tactic(auto, unfolding(crate::specs::Crc::crc_after_bit))]
fn crc_after_bit(register: u32, comes: bool) -> u32
    ensures { result ≡ crc_after_bit register comes }
{
    let leaves = register >> 31 == 1;
    let moved_up = register << 1;
    if leaves == comes {
        return moved_up;
    }
    moved_up ^ POLYNOMIAL
}
