//! Damage of one lane while its bytes pass.
ghost use Rattle.std.specs.Prelude.{◌≡◌, ◌*◌};
ghost use Rattle.lane_damage.specs.OnWay.{IsApply, IsDark, IsFlip, dark_refusal, flip_refusal, from_bit, piece_refusal, untouched};

use crate::refused::Refused;
use crate::rows::{Stretch, damage, keep_darks, keep_flips};
use lane_model::LANE_BYTES_LIMIT;
use std::alloc::Global;
use std::marker::Model;

// Every bit of a lane is below this, and no stretch ends after it.
const BITS_LIMIT: u64 = 1 << 44;

/// Damages a lane of which some bytes have passed, by the rows that name later bits of it.
#[derive(Drop)]
pub struct LaneOnWay {
    passed: usize,
    flips: Vec<u64>,
    darks: Vec<Stretch>,
}

impl Model for LaneOnWay {
    ghost use Rattle.std.specs.Prelude.{◌^◌, ◌<◌};
    ghost use Rattle.lane_damage.specs.OnWay.{OnWay};
    ghost use Rattle.lane_damage.specs.Stretches.{damage_of};

    ghost Value = { OnWay };

    ghost view = { λ a. record { passed = a.passed; damage = damage_of a.flips.items a.darks.items } };

    ghost invariant = { λ a. a.passed < 2 ^ 41 };
}

impl LaneOnWay {
    /// Creates a lane without damage of which no byte has passed.
    pub fn new(alloc: Global) -> LaneOnWay
        ensures { result ≡ untouched }
    {
        LaneOnWay {
            passed: 0,
            flips: Vec::new(alloc),
            darks: Vec::new(alloc),
        }
    }

    // Returns the number of the first bit that has not passed.
    fn next_bit(&self) -> u64
        ensures { result ≡ 8 * self.now.passed }
    {
        8 * self.passed as u64
    }

    // Returns why a flip is refused, if it is.
    fn flip_refusal(&self, bit: u64) -> Option<Refused>
        ensures { result ≡ flip_refusal self.now bit }
    {
        if bit >= BITS_LIMIT {
            return Some(Refused::OutOfRange);
        }
        if bit < self.next_bit() {
            return Some(Refused::Passed);
        }
        None
    }

    /// Inverts a bit of the lane, counted from 0, once more.
    pub fn flip(&mut self, bit: u64) -> Result<(), Refused>
        ensures { IsFlip self.old self.new bit result }
    {
        if let Some(why) = self.flip_refusal(bit) {
            return Err(why);
        }
        self.flips.push(bit)?;
        Ok(())
    }

    // Returns why a dark stretch is refused, if it is.
    fn dark_refusal(&self, first: u64, count: u64) -> Option<Refused>
        ensures { result ≡ dark_refusal self.now first count }
    {
        if first > BITS_LIMIT || count > BITS_LIMIT - first {
            return Some(Refused::OutOfRange);
        }
        if first + count <= self.next_bit() {
            return Some(Refused::Passed);
        }
        None
    }

    /// Makes `count` bits 0, from bit `first` on, as far as they have not passed.
    pub fn dark(&mut self, first: u64, count: u64) -> Result<(), Refused>
        ensures { IsDark self.old self.new first count result }
    {
        if let Some(why) = self.dark_refusal(first, count) {
            return Err(why);
        }
        let stretch = Stretch {
            first: first.max(self.next_bit()),
            end: first + count,
        };
        self.darks.push(stretch)?;
        Ok(())
    }

    // Returns why a piece of this many bytes is refused, if it is.
    fn piece_refusal(&self, count: usize) -> Option<Refused>
        ensures { result ≡ piece_refusal self.now count }
    {
        if self.passed >= LANE_BYTES_LIMIT || count >= LANE_BYTES_LIMIT {
            return Some(Refused::TooMany);
        }
        None
    }

    // Removes the rows of which all bits have passed.
    fn forget(&mut self)
        ensures { self.new ≡ record self.old { damage = from_bit (8 * self.old.passed) self.old.damage } }
    {
        let next = self.next_bit();
        keep_flips(&mut self.flips, next);
        keep_darks(&mut self.darks, next);
    }

    /// Damages the next bytes of the lane.
    pub fn apply(&mut self, bytes: &mut [u8]) -> Result<(), Refused>
        ensures { IsApply self.old self.new bytes.old bytes.new result }
    {
        if let Some(why) = self.piece_refusal(bytes.len()) {
            return Err(why);
        }
        damage(bytes, self.next_bit(), &self.flips, &self.darks);
        self.passed += bytes.len();
        self.forget();
        Ok(())
    }
}
