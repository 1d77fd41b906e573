ghost use Rattle.std.specs.Prelude.{◌≡◌, ◌<◌, ◌≤◌, ◌+◌, ◌-◌, ◌*◌, ◌/◌, ◌%◌, ◌^◌, get_or, length, take, drop};
ghost use Rattle.lk_base.specs.Checksum.{bits_of, bits_of_bytes};
ghost use Rattle.lane_lock.specs.Run.{are_codes};

use lane_model::CODE_BITS;
use lk_base::{eight_at, head, tail};

/// Returns the number of the bits of at most seven bytes, the first of them highest.
pub fn number_of(piece: &[u8]) -> u64
    requires { length piece.now ≤ 7 }
    ensures bits { bits_of (8 * length piece.now) result ≡ bits_of_bytes piece.now }
    ensures below { result < 2 ^ (8 * length piece.now) }
{
    let mut bits = 0;
    for byte in piece {
        bits = bits * 256 + *byte as u64;
    }
    bits
}

/// Returns the number of the bits of `count` bytes, 1 to 7, from the place `at` on, the first of them highest.
#[inline(always)]
pub fn number_at(bytes: &[u8], at: usize, count: usize) -> u64
    requires some { 1 ≤ count }
    requires most { count ≤ 7 }
    requires there { at + count ≤ length bytes.now }
    ensures bits { bits_of (8 * count) result ≡ bits_of_bytes (take count (drop at bytes.now)) }
    ensures below { result < 2 ^ (8 * count) }
{
    if bytes.len() - at < 8 {
        return number_of(head(tail(bytes, at), count));
    }
    first_of(eight_at(bytes, at), count as u32)
}

// Returns the number of the first bits of eight bytes: those of `count` bytes.
#[inline(always)]
fn first_of(bits: u64, count: u32) -> u64
    requires some { 1 ≤ count }
    requires most { count ≤ 7 }
    ensures value { result ≡ bits / 2 ^ (64 - 8 * count) }
    ensures below { result < 2 ^ (8 * count) }
{
    bits >> (64 - 8 * count)
}

/// Returns the last 128 bits after `count` bits more, the latest in bit 0.
pub fn pushed(window: u128, bits: u64, count: u32) -> u128
    requires most { count ≤ 56 }
    requires bits { bits < 2 ^ count }
    ensures { result ≡ (window * 2 ^ count + bits) % 2 ^ 128 }
{
    // The remainder is the count; with it the shift is known to be below 64.
    window << (count % 64) | bits as u128
}

/// Returns the code whose last bit is the one before the last `after` bits.
pub fn code_in(window: u128, after: u32) -> u128
    requires { after ≤ 55 }
    ensures value { result ≡ window / 2 ^ after % 2 ^ 67 }
    ensures below { result < 2 ^ 67 }
{
    window >> (after % 64) & ((1 << CODE_BITS) - 1)
}

/// Returns the last 128 bits of eight codes, the latest in bit 0.
pub fn last_of(codes: &[u128; 8]) -> u128
    requires { are_codes codes.now }
    ensures { result ≡ (get_or codes.now 6 0 * 2 ^ 67 + get_or codes.now 7 0) % 2 ^ 128 }
{
    codes[6] << CODE_BITS | codes[7]
}
