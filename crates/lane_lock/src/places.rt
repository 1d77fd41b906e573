ghost use Rattle.std.specs.Prelude.{◌≡◌, ◌<◌, ◌≤◌, ◌+◌, ◌*◌, ◌^◌, drop, false, length, map, take, true, IfSome};
ghost use Rattle.lk_base.specs.Checksum.{bits_of, bits_of_bytes};
ghost use Rattle.lane_model.specs.Coding.{is_legal, word_of_code};
ghost use Rattle.lane_model.specs.LaneBits.{bits_of_codes};
ghost use Rattle.lane_lock.specs.Run.{AreCodesOf, all_legal, are_codes};

use crate::words::last_bits;
use coding_67b::{EIGHT_CODES_BYTES, header_of};
use lane_model::CODE_BITS;
use lk_base::eight_at;

/// Reads `width` bits of bytes from bit `at` on as a number, the first of them highest. There are at least eight bytes.
pub fn bits_at(bytes: &[u8], at: usize, width: u32) -> u64
    requires long { 8 ≤ length bytes.now }
    requires size { 8 * length bytes.now ≤ 2 ^ 60 }
    requires some { 1 ≤ width }
    requires most { width ≤ 56 }
    requires there { at + width ≤ 8 * length bytes.now }
    ensures bits { bits_of width result ≡ take width (drop at (bits_of_bytes bytes.now)) }
    ensures below { result < 2 ^ width }
{
    // If fewer than eight bytes follow, the last eight contain these bits.
    let place = (at / 8).min(bytes.len() - 8);
    let after = 64 - width - (at - 8 * place) as u32;
    last_bits(eight_at(bytes, place) >> after, width)
}

/// Reads the 67 bits of bytes from bit `at` on as a number, the first of them highest. There are at least 16 bytes.
#[inline(always)]
pub fn code_at(bytes: &[u8], at: usize) -> u128
    requires long { 16 ≤ length bytes.now }
    requires size { 8 * length bytes.now ≤ 2 ^ 60 }
    requires there { at + 67 ≤ 8 * length bytes.now }
    ensures bits { bits_of 67 result ≡ take 67 (drop at (bits_of_bytes bytes.now)) }
    ensures below { result < 2 ^ 67 }
{
    // If fewer than 16 bytes follow, the last 16 contain these bits.
    let place = (at / 8).min(bytes.len() - 16);
    let after = 61 - (at - 8 * place) as u32;
    let high = eight_at(bytes, place);
    let low = eight_at(bytes, place + 8);
    // The remainder is the count; with it the shift is known to be below 64.
    ((high as u128) << 64 | low as u128) >> (after % 64) & ((1 << CODE_BITS) - 1)
}

/// Returns the eight codes that begin with bit `at` of bytes, as eight calls of `code_at` do, if that is the first bit of a byte
/// and each header is legal.
#[inline(always)]
pub fn legal_codes(bytes: &[u8], at: usize) -> Option<[u128; 8]>
    requires there { at + 536 ≤ 8 * length bytes.now }
    ensures { IfSome result (λ codes. (length codes ≡ 8) × AreCodesOf codes (drop at (bits_of_bytes bytes.now))) }
{
    if at % 8 > 0 {
        return None;
    }
    let codes = eight_codes(&bytes[at / 8..at / 8 + EIGHT_CODES_BYTES]);
    if are_legal(&codes) { Some(codes) } else { None }
}

/// Reads the codes of 67 bytes, the first bit of each highest.
#[inline(always)]
pub fn eight_codes(bytes: &[u8]) -> [u128; 8]
    requires { length bytes.now ≡ 67 }
    ensures bits { bits_of_codes result ≡ bits_of_bytes bytes.now }
    ensures below { are_codes result }
{
    let mut codes = [0; 8];
    for place in 0..8 {
        codes[place] = code_at(bytes, CODE_BITS as usize * place);
    }
    codes
}

/// True if each of eight codes has a legal header.
#[inline(always)]
pub fn are_legal(codes: &[u128; 8]) -> bool
    requires { are_codes codes.now }
    ensures legal { result ≡ true → all_legal (map word_of_code codes.now) }
    ensures illegal { result ≡ false → all_legal (map word_of_code codes.now) → ⊥ }
{
    // All are looked at, without a branch for each.
    let mut legal = true;
    for place in 0..8 {
        legal &= is_legal(codes[place]);
    }
    legal
}

// True if the two bits of a code's header differ.
#[inline(always)]
fn is_legal(code: u128) -> bool
    requires { code < 2 ^ 67 }
    ensures { result ≡ is_legal code }
{
    let header = header_of(code);
    header & 1 != header >> 1
}
