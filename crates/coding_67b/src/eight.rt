ghost use Rattle.std.specs.Prelude.{◌≡◌, ◌+◌, ◌≤◌, ◌++◌, length, take};
ghost use Rattle.std.specs.Int.{w64, to_be_bytes};
ghost use Rattle.lk_base.specs.Checksum.{bits_of, bits_of_bytes};

use crate::writer::BitWriter;
use lane_model::CODE_BITS;

/// The bytes of eight codes: as many as a code has bits.
pub const EIGHT_CODES_BYTES: usize = CODE_BITS as usize;

/// Puts the eight bytes of a number at the place `at`, the highest first.
pub fn put_number(bytes: &mut [u8], at: usize, number: u64)
    requires { at + 8 ≤ length bytes.old }
    ensures { take (at + 8) bytes.new ≡ take at bytes.old ++ to_be_bytes w64 number }
{
    bytes[at..at + 8].copy_from_slice(&number.to_be_bytes());
}

// Takes the next byte of the bits that wait, 8 of them or more.
fn next_byte(bits: &mut BitWriter) -> u8
    requires { 8 ≤ length bits.old }
    ensures bits { bits.old ≡ bits_of 8 result ++ bits.new }
    ensures count { length bits.old ≡ length bits.new + 8 }
{
    match bits.take() {
        Some(byte) => byte,
        None => unreachable!(),
    }
}

/// Puts the bits that wait, 24 of them, at the place `at`.
pub fn put_rest(bytes: &mut [u8], at: usize, bits: &mut BitWriter)
    requires count { length bits.old ≡ 24 }
    requires room { at + 3 ≤ length bytes.old }
    ensures { bits_of_bytes (take (at + 3) bytes.new) ≡ bits_of_bytes (take at bytes.old) ++ bits.old }
{
    for place in at..at + 3 {
        bytes[place] = next_byte(bits);
    }
}
