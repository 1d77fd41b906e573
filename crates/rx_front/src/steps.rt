ghost use Rattle.std.specs.Prelude.{◌≡◌, ◌<◌, ◌≤◌, ◌+◌, ◌*◌, ◌/◌, ◌^◌, Bool, List, [], ℕ, false, get_or, length, replicate, true, IfOk};
ghost use Rattle.std.specs.Int.{bit_at};
ghost use Rattle.lk_base.specs.Checksum.{bits_of, bits_of_bytes};
ghost use Rattle.lk_base.specs.Link.{Settings};
ghost use Rattle.lock_model.specs.declared.types.LaneStep.TheVariants as variants;
ghost use Rattle.lock_model.specs.Low.{is_low};
ghost use Rattle.lane_lock.specs.Bytes.{Brings, BringsBatch};
ghost use Rattle.lane_lock.specs.Found.{found_steps};
ghost use Rattle.lane_lock.specs.Search.{IsFar};
ghost use Rattle.lane_lock.specs.Standing.{IsReport, IsState, Stands};
ghost use Rattle.lane_lock.specs.Taken.{bits_to_end};

use crate::shown::{Shown, shown_of};
use lane_lock::{LaneLock, StepList};
use lk_base::{Link, OutOfMemory};
use lock_model::{LaneReport, LaneState, LaneStep};
use std::alloc::Global;
use std::marker::Model;

/// The locks of one lane, which takes its bytes one by one, several at once or many at once, and the steps of the bits of the last
/// ones. Of many bytes only the steps that show something are wanted.
#[derive(Drop)]
pub struct LaneSteps {
    lock: LaneLock,
    /// What the last bytes show; before the first byte the end.
    last_shown: Shown,
    /// The number of their bits, at most 56; 0 if the steps of the last bytes were appended to a list.
    width: u32,
}

impl Model for LaneSteps {
    ghost use Rattle.std.specs.Prelude.{◌≤◌};
    ghost use Rattle.rx_front.specs.Shows.{IsWithin, steps_shown};
    ghost use Rattle.rx_front.specs.Steps.{StepsState};

    ghost Value = { StepsState };

    ghost view = { λ a. record { lock = a.lock; shown = steps_shown a.width a.last_shown } };

    ghost invariant = { λ a. (a.width ≤ 56) × IsWithin a.width a.last_shown };
}

impl LaneSteps {
    /// Creates a lane of which no byte came. It takes memory here, and none after.
    pub fn new(alloc: Global, link: &Link) -> Result<LaneSteps, OutOfMemory>
        ensures { IfOk result (λ v. Stands v.lock link.now [] × (v.lock.taken ≡ 0) × (length v.shown ≡ 8)) }
    {
        let lock = LaneLock::new(alloc, link)?;
        Ok(LaneSteps {
            lock,
            last_shown: Shown::End,
            width: 8,
        })
    }

    /// Takes its next byte, the highest bit first. At most 2^60 - 8 bits came before.
    pub fn byte(&mut self, byte: u8)
        requires { self.old.lock.taken + 8 ≤ 2 ^ 60 }
        ensures taken { self.new.lock.taken ≡ self.old.lock.taken + 8 }
        ensures count { length self.new.shown ≡ 8 }
        ensures stands { Brings self.old.lock self.new.lock (bits_of 8 byte) self.new.shown }
    {
        self.last_shown = shown_of(self.lock.byte(byte), 8);
        self.width = 8;
    }

    /// Finds it at its end: it has ended at each of the next eight bits.
    pub fn end(&mut self)
        ensures lock { self.new.lock ≡ self.old.lock }
        ensures shown { self.new.shown ≡ replicate 8 variants.Ended }
    {
        self.last_shown = Shown::End;
        self.width = 8;
    }

    /// Takes `count` bytes at once: `bits` is the number of their bits, the first of them highest. At most 2^60 bits come in all.
    pub fn take(&mut self, bits: u64, count: u32)
        requires some { 1 ≤ count }
        requires most { count ≤ 7 }
        requires bits { bits < 2 ^ (8 * count) }
        requires few { self.old.lock.taken + 8 * count ≤ 2 ^ 60 }
        ensures taken { self.new.lock.taken ≡ self.old.lock.taken + 8 * count }
        ensures count { length self.new.shown ≡ 8 * count }
        ensures stands { Brings self.old.lock self.new.lock (bits_of (8 * count) bits) self.new.shown }
    {
        self.last_shown = shown_of(self.lock.take_bytes(bits, count), 8 * count);
        self.width = 8 * count;
    }

    /// Takes bytes at once, and appends the steps that their bits complete to `found`, in order, without those that show nothing.
    /// The steps are those of as many calls of `byte`; after it no bit's step is kept. At most 2^60 bits come in all. It takes no
    /// memory.
    pub fn take_batch(&mut self, bytes: &[u8], found: &mut StepList)
        requires few { self.old.lock.taken + 8 * length bytes.now ≤ 2 ^ 60 }
        requires room { length (found_steps found.old) + 8 * length bytes.now / 67 + 1 ≤ found.old.room }
        ensures taken { self.new.lock.taken ≡ self.old.lock.taken + 8 * length bytes.now }
        ensures shown { self.new.shown ≡ [] }
        ensures room { found.new.room ≡ found.old.room }
        ensures stands { BringsBatch self.old.lock self.new.lock (bits_of_bytes bytes.now) (found_steps found.old) (found_steps found.new) }
    {
        self.lock.take_batch(bytes, found);
        self.last_shown = Shown::Quiet;
        self.width = 0;
    }

    /// True if it is far from a declared lock: no word lock goes on, and no position of its search has more than 32 words with legal
    /// headers in a row up to the last bit; or no lock is declared of the word lock, and at no place of its metaframes more than
    /// one word in a row, up to the last, was Sync. Then the bits of 64 words, whatever they are, declare none.
    pub fn is_far(&self) -> bool
        ensures far { result ≡ true → IsFar self.now.lock }
        ensures near { result ≡ false → IsFar self.now.lock → ⊥ }
    {
        self.lock.is_far()
    }

    /// Returns the step of bit k of the last bytes, counted from the highest of the first byte; after them it has ended.
    pub fn step(&self, k: u32) -> LaneStep
        ensures value { result ≡ get_or self.now.shown k variants.Ended }
        ensures low { is_low result }
    {
        self.last_shown.step(k, self.width)
    }

    /// Returns the number of bits up to the end of the next word of a word lock, at most 67: 0 if no word lock goes on.
    pub fn bits_left(&self) -> u64
        ensures value { result ≡ bits_to_end self.now.lock }
        ensures most { result ≤ 67 }
    {
        self.lock.bits_left()
    }

    /// Returns the bits of the last bytes at which it may show something: if bit k of the number is 0, bit k of the bytes, counted from
    /// the first, shows nothing.
    pub fn shows(&self) -> u64
        ensures { (k : ℕ) → k < length self.now.shown → bit_at result k ≡ 0 → get_or self.now.shown k variants.Ended ≡ variants.Nothing }
    {
        match self.last_shown {
            Shown::End => u64::MAX,
            Shown::Quiet => 0,
            Shown::Step(place, _) => 1 << place,
        }
    }

    /// Returns the report over the bytes so far.
    pub fn report(&self) -> LaneReport
        ensures { (s : Settings) (bits : List Bool) → Stands self.now.lock s bits → IsReport s bits result }
    {
        self.lock.report()
    }

    /// Returns how far the search for locks is after the bytes so far.
    pub fn state(&self) -> LaneState
        ensures { (s : Settings) (bits : List Bool) → Stands self.now.lock s bits → IsState s bits result }
    {
        self.lock.state()
    }
}
