//! The parts of bytes of all lanes of a link.
ghost use Rattle.std.specs.Prelude.{◌≡◌, ◌≤◌, ◌-◌, ◌*◌, ◌%◌, ◌^◌, ◌==◌, ◌++◌, ◌↔◌, Bool, List, [], true, length, map, set, if◌then◌else◌};
ghost use Rattle.lk_base.specs.Checksum.{bits_of};
ghost use Rattle.c_bits.specs.Bits.{IsCut, IsGiven, bytes_for, no_parts, part_of};
ghost use Rattle.c_bits.specs.PartBits.{bits_in};

use crate::cut::Cut;
use crate::part::Part;
use std::marker::Model;

/// Of each lane of a link the part of a byte that is left: of 64 lanes, as a link may have.
#[derive(Debug, Drop)]
pub struct LaneParts {
    parts: [Part; 64],
}

/// Bits of a lane: the lowest `count` bits of a number, the first of them highest.
#[derive(Clone, Copy, Debug)]
pub struct Given {
    pub bits: u64,
    pub count: u32,
}

impl Model for LaneParts {
    ghost use Rattle.std.specs.Prelude.{◌≡◌, Bool, List, length, map};
    ghost use Rattle.c_bits.specs.PartBits.{bits_in};

    ghost Value = { List (List Bool) };

    ghost view = { λ a. map bits_in a.parts };

    ghost invariant = { λ a. length a.parts ≡ 64 };
}

// The part of a lane, of these; no bit if there is no such lane.
#[tactic(auto, using(crate::proofs::PartsHold::none_past))]
fn part_at(parts: &[Part], lane: u32) -> Part
    ensures { bits_in result ≡ part_of lane (map bits_in parts.now) }
{
    let at = lane as usize;
    if at >= parts.len() {
        return Part::empty();
    }
    parts[at]
}

impl LaneParts {
    /// No lane has a part of a byte.
    pub fn new() -> LaneParts
        ensures { result ≡ no_parts }
    {
        LaneParts {
            parts: [Part::empty(); 64],
        }
    }

    // The part of a lane; no bit if there is no such lane.
    fn of(&self, lane: u32) -> Part
        ensures { bits_in result ≡ part_of lane self.now }
    {
        part_at(&self.parts, lane)
    }

    // Gives a lane another part.
    #[tactic(auto, using(crate::proofs::PartsHold::one_set))]
    fn put(&mut self, lane: u32, part: Part)
        ensures { self.new ≡ set self.old lane (bits_in part) }
    {
        let at = lane as usize;
        if at < self.parts.len() {
            self.parts[at] = part;
        }
    }

    /// True if a lane has only whole bytes.
    pub fn is_whole(&self, lane: u32) -> bool
        ensures { (result ≡ true) ↔ (part_of lane self.now ≡ []) }
    {
        let part = self.of(lane);
        part.count == 0
    }

    /// The part of a lane, and then the lowest `count` bits of a number, as whole bytes and a part.
    pub fn cut(&self, lane: u32, bits: u64, count: u32) -> Cut
        requires { count ≤ 64 }
        ensures { IsCut (part_of lane self.now ++ bits_of count bits) result.bytes result.part }
    {
        let part = self.of(lane);
        Cut::of(&part, bits, count)
    }

    /// Keeps what is left of a lane after it took the first `bytes` bytes of a cut, and returns how many of its `count` new bits it took.
    pub fn settle(&mut self, lane: u32, cut: &Cut, count: u32, bytes: usize) -> u32
        requires { bytes ≤ length cut.now.bytes }
        ensures within { bytes ≤ length cut.now.bytes }
        ensures taken { result ≡ (if bytes == length cut.now.bytes then count else 8 * bytes - length (part_of lane self.old)) }
        ensures left { self.new ≡ set self.old lane (if bytes == length cut.now.bytes then cut.now.part else if bytes == 0 then part_of lane self.old else []) }
    {
        let old = self.of(lane);
        if bytes == cut.bytes().len() {
            self.put(lane, cut.part());
            return count;
        }
        if bytes == 0 {
            self.put(lane, old);
            return 0;
        }
        self.put(lane, Part::empty());
        8 * bytes as u32 - old.count
    }

    /// How many bytes of a lane complete `count` bits, after its part.
    pub fn bytes_for(&self, lane: u32, count: u32) -> usize
        requires { count ≤ 64 }
        ensures count { result ≡ bytes_for (part_of lane self.now) count }
        ensures few { result ≤ 8 }
    {
        let part = self.of(lane);
        (count.saturating_sub(part.count) as usize + 7) / 8
    }

    /// Gives `count` bits, or all that the part of a lane and these bytes have, and keeps what is left.
    pub fn give(&mut self, lane: u32, bytes: &[u8], count: u32) -> Given
        requires count { count ≤ 64 }
        requires bytes { length bytes.now ≤ bytes_for (part_of lane self.old) count }
        ensures { (part : List Bool) × IsGiven (part_of lane self.old) part bytes.now count result.bits result.count × (self.new ≡ set self.old lane part) }
    {
        let old = self.of(lane);
        let number = old.then(bytes);
        let available = old.count + 8 * bytes.len() as u32;
        let taken = count.min(available);
        let rest = available - taken;
        self.put(lane, Part::low(number, rest));
        Given {
            bits: low_bits(number >> rest, taken),
            count: taken,
        }
    }
}

// The lowest bits of a number, 64 at most.
fn low_bits(number: u128, count: u32) -> u64
    requires { count ≤ 64 }
    ensures { result ≡ number % 2 ^ count }
{
    (number & (1u128 << count) - 1) as u64
}
