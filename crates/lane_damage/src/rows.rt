//! Damage of bytes by rows.
ghost use Rattle.std.specs.Prelude.{◌≡◌, ◌+◌, ◌-◌, ◌*◌, ◌^◌, ◌≤◌, ◌<◌, length, filter, map, nat_le, nat_lt};
ghost use Rattle.lk_base.specs.Checksum.{bits_of_bytes};
ghost use Rattle.lane_damage.specs.Bits.{IsChanged, damaged_from, darkened_by, turned_by};
ghost use Rattle.lane_damage.specs.Stretches.{damage_of, dark_bits};

use crate::marks::{clear, invert};

/// A dark stretch: the bits `first..end`, none if `end` is not above `first`.
#[derive(Clone, Copy, Debug, PartialEq, Eq)]
pub struct Stretch {
    pub first: u64,
    pub end: u64,
}

// Inverts each bit that flips name, in bytes whose first bit is number `start` of the lane. Leaves out bits that do not exist.
fn invert_all(bytes: &mut [u8], start: u64, flips: &[u64])
    requires { length bytes.old < 2 ^ 40 }
    ensures { IsChanged (turned_by flips.now) start bytes.old bytes.new }
{
    for flip in flips {
        if *flip >= start && *flip - start < 8 * bytes.len() as u64 {
            invert(bytes, (*flip - start) as usize);
        }
    }
}

// Makes each bit 0 that a stretch covers, in bytes whose first bit is number `start` of the lane. Leaves out bits that do not exist.
fn darken(bytes: &mut [u8], start: u64, darks: &[Stretch])
    requires bytes { length bytes.old < 2 ^ 40 }
    requires start { start < 2 ^ 44 }
    ensures { IsChanged (darkened_by (map dark_bits darks.now)) start bytes.old bytes.new }
{
    let end = start + 8 * bytes.len() as u64;
    for dark in darks {
        let from = dark.first.max(start);
        let to = dark.end.min(end);
        if from < to {
            clear(bytes, (from - start) as usize, (to - start) as usize);
        }
    }
}

/// Damages bytes whose first bit is number `start` of the lane: each bit is 0 if a stretch covers it, otherwise inverted if an odd
/// number of flips names it.
pub fn damage(bytes: &mut [u8], start: u64, flips: &[u64], darks: &[Stretch])
    requires bytes { length bytes.old < 2 ^ 40 }
    requires start { start < 2 ^ 44 }
    ensures { bits_of_bytes bytes.new ≡ damaged_from (damage_of flips.now darks.now) start (bits_of_bytes bytes.old) }
{
    invert_all(bytes, start, flips);
    darken(bytes, start, darks);
}

/// Keeps the flips of the bit `next` and later ones.
pub fn keep_flips(flips: &mut Vec<u64>, next: u64)
    ensures { flips.new.items ≡ filter (λ bit. nat_le next bit) flips.old.items }
{
    flips.retain(|bit| next <= *bit);
}

/// Keeps the stretches that have the bit `next` or later ones.
pub fn keep_darks(darks: &mut Vec<Stretch>, next: u64)
    ensures { map dark_bits darks.new.items ≡ filter (λ d. nat_lt next (d.first + d.count)) (map dark_bits darks.old.items) }
{
    darks.retain(|dark| next < dark.first.max(dark.end));
}
