ghost use Rattle.std.specs.Prelude.{◌≡◌, ◌<◌, ◌≤◌, ◌+◌, ◌-◌, ◌*◌, ◌^◌, true, false, List, ℕ, min, length, take, drop, slice_index, IfOk, IfSome};
ghost use Rattle.circular_buffer.specs.Buffer.{buffer};
ghost use Rattle.lk_base.specs.Checksum.{bits_of, bits_of_bytes};
ghost use Rattle.lk_base.specs.Link.{Settings};
ghost use Rattle.lock_model.specs.declared.types.LaneStep.{LaneStep as Step};
ghost use Rattle.lock_model.specs.Low.{is_low};
ghost use Rattle.lane_lock.specs.Search.{IsFar};
ghost use Rattle.lane_lock.specs.Standing.{IsReport, IsState};
ghost use Rattle.lane_lock.specs.Taken.{bits_to_end};
ghost use Rattle.event_model.specs.Fed.{Fed, first_bits};
ghost use Rattle.rx_front.specs.Batches.{IsBatchOf};
ghost use Rattle.rx_front.specs.Locks.{lock_of};
ghost use Rattle.rx_front.specs.Lanes.{Covers, HasBytes, IsFresh, IsTaken, LaneStands, fed_lane, finished_lane, is_empty as has_no_byte, is_ready as can_take, step_at};

use crate::batch::Batch;
use crate::steps::LaneSteps;
use circular_buffer::HeapCircularBuffer;
use deskew::Deskew;
use lk_base::{Link, OutOfMemory, eight_at};
use lock_model::{LaneReport, LaneState, LaneStep};
use std::alloc::Global;
use std::marker::Model;

/// The bytes that a lane's ring has room for.
const ROOM: usize = 4096;

/// A lane of a receiver, to which bytes are fed: those that no round took, and the locks of those that rounds took.
#[derive(Drop)]
pub struct FedLane {
    /// The bytes that no round took yet.
    ring: HeapCircularBuffer<u8>,
    /// True if no further byte comes.
    finished: bool,
    /// The number of bytes that were fed: below 2^57.
    fed: u64,
    /// The locks of the bytes that rounds took, and what the last rounds found.
    steps: LaneSteps,
}

impl Model for FedLane {
    ghost use Rattle.std.specs.Prelude.{◌≡◌, ◌<◌, ◌+◌, ◌*◌, ◌^◌, length};
    ghost use Rattle.rx_front.specs.States.{Lane};

    ghost Value = { Lane };

    ghost view = { λ a. record { ring = a.ring.items; finished = a.finished; fed = a.fed; lock = a.steps.lock; steps = a.steps.shown } };

    ghost invariant = { λ a. (a.ring.capacity ≡ 4096) × (a.fed < 2 ^ 57) × (a.steps.lock.taken + 8 * length a.ring.items ≡ 8 * a.fed) };
}

// Takes the next byte of a ring.
fn next_byte(ring: &mut HeapCircularBuffer<u8>) -> u8
    requires { 0 < length ring.old.items }
    ensures value { result ≡ slice_index ring.old.items 0 }
    ensures ring { ring.new ≡ buffer (drop 1 ring.old.items) ring.old.capacity }
{
    match ring.pop_front() {
        Some(byte) => byte,
        None => unreachable!(),
    }
}

// Returns the number of the bits of the first `count` bytes of a ring, if its first eight lie together.
fn bits_ahead(ring: &HeapCircularBuffer<u8>, count: u32) -> Option<u64>
    requires some { 1 ≤ count }
    requires most { count ≤ 7 }
    ensures bits { IfSome result (λ bits. bits_of (8 * count) bits ≡ bits_of_bytes (take count ring.now.items)) }
    ensures below { IfSome result (λ bits. bits < 2 ^ (8 * count)) }
{
    let (front, _rest) = ring.as_slices();
    if front.len() < 8 {
        return None;
    }
    Some(eight_at(front, 0) >> (64 - 8 * count))
}

// Takes `count` bytes from a ring, and returns the number of their bits, the first of them highest.
fn take_bits(ring: &mut HeapCircularBuffer<u8>, count: u32) -> u64
    requires some { 1 ≤ count }
    requires most { count ≤ 7 }
    requires there { count ≤ length ring.old.items }
    ensures ring { ring.new ≡ buffer (drop count ring.old.items) ring.old.capacity }
    ensures bits { bits_of (8 * count) result ≡ bits_of_bytes (take count ring.old.items) }
    ensures below { result < 2 ^ (8 * count) }
{
    match bits_ahead(ring, count) {
        Some(bits) => {
            let rest = ring.len() - count as usize;
            ring.truncate_front(rest);
            bits
        }
        None => gathered(ring, count),
    }
}

// Takes `count` bytes from a ring one by one, and returns the number of their bits, the first of them highest.
fn gathered(ring: &mut HeapCircularBuffer<u8>, count: u32) -> u64
    requires most { count ≤ 7 }
    requires there { count ≤ length ring.old.items }
    ensures ring { ring.new ≡ buffer (drop count ring.old.items) ring.old.capacity }
    ensures bits { bits_of (8 * count) result ≡ bits_of_bytes (take count ring.old.items) }
    ensures below { result < 2 ^ (8 * count) }
{
    let mut bits = 0;
    for k in 0..count {
        bits = bits * 256 + next_byte(ring) as u64;
    }
    bits
}

// Passes over `count` bytes of a ring.
fn pass_bytes(ring: &mut HeapCircularBuffer<u8>, count: usize)
    requires { count ≤ length ring.old.items }
    ensures { ring.new ≡ buffer (drop count ring.old.items) ring.old.capacity }
{
    let rest = ring.len() - count;
    ring.truncate_front(rest);
}

/// Returns the bit position of the lock that a step declares, if it declares one: below 2^60.
pub fn lock_of(step: LaneStep) -> Option<u64>
    requires { is_low step }
    ensures value { result ≡ lock_of step }
    ensures low { IfSome result (λ at. at < 2 ^ 60) }
{
    match step {
        LaneStep::Locked(at) => Some(at),
        LaneStep::Nothing => None,
        LaneStep::Word(_, _, _) => None,
        LaneStep::Lost(_, _) => None,
        LaneStep::Ended => None,
    }
}

impl FedLane {
    /// Creates a lane of which no byte came.
    pub fn new(alloc: Global, link: &Link) -> Result<FedLane, OutOfMemory>
        ensures { IfOk result (λ v. IsFresh link.now v × (length v.steps ≡ 8)) }
    {
        let ring = HeapCircularBuffer::with_capacity(alloc, ROOM)?;
        let steps = LaneSteps::new(alloc, link)?;
        Ok(FedLane {
            ring,
            finished: false,
            fed: 0,
            steps,
        })
    }

    /// Takes as many bytes as its ring has room for, and returns their number. Fewer than 2^57 bytes come in all.
    pub fn feed(&mut self, piece: &[u8]) -> usize
        requires { self.old.fed + length piece.now < 2 ^ 57 }
        ensures count { result ≡ min (length piece.now) (4096 - length self.old.ring) }
        ensures lane { self.new ≡ fed_lane (take result piece.now) self.old }
    {
        let count = self.ring.fill_from_slice(piece);
        self.fed += count as u64;
        count
    }

    /// Ends the lane: no further byte comes.
    pub fn finish(&mut self)
        ensures { self.new ≡ finished_lane self.old }
    {
        self.finished = true;
    }

    /// True if a round can take a byte of it, or finds it at its end.
    pub fn is_ready(&self) -> bool
        ensures { result ≡ can_take self.now }
    {
        let empty = self.ring.is_empty();
        self.finished || !empty
    }

    /// True if a round finds no byte.
    pub fn is_empty(&self) -> bool
        ensures { result ≡ has_no_byte self.now }
    {
        self.ring.is_empty()
    }

    /// Makes a round: takes its next byte, or finds it at its end.
    pub fn take(&mut self)
        requires { can_take self.old ≡ true }
        ensures { IsTaken 1 self.old self.new }
    {
        match self.ring.pop_front() {
            Some(byte) => self.steps.byte(byte),
            None => self.steps.end(),
        }
    }

    /// Counts the rounds that find a byte of it each.
    pub fn bytes_there(&self) -> usize
        ensures { (n : ℕ) → n ≤ result → HasBytes n self.now }
    {
        self.ring.len()
    }

    /// True if it is far from a declared lock: then rounds that take at most 536 bytes of it, whatever they are, show none.
    pub fn is_far(&self) -> bool
        ensures far { result ≡ true → IsFar self.now.lock }
        ensures near { result ≡ false → IsFar self.now.lock → ⊥ }
    {
        self.steps.is_far()
    }

    /// Returns the number of bits up to the end of the next word of a word lock, at most 67: 0 if no word lock goes on.
    pub fn bits_left(&self) -> u64
        ensures value { result ≡ bits_to_end self.now.lock }
        ensures most { result ≤ 67 }
    {
        self.steps.bits_left()
    }

    /// Makes `count` rounds, each of which takes a byte of it. Returns the bits at which it may show something: if bit k of the number
    /// is 0, bit k of the rounds shows nothing.
    pub fn take_bytes(&mut self, count: u32) -> u64
        requires some { 1 ≤ count }
        requires most { count ≤ 7 }
        requires there { HasBytes count self.old }
        ensures taken { IsTaken count self.old self.new }
        ensures shown { Covers result self.new }
    {
        let bits = take_bits(&mut self.ring, count);
        self.steps.take(bits, count);
        self.steps.shows()
    }

    /// Makes `count` rounds, at most 536, each of which takes a byte of it. Gives the deskew the steps that their bits show, as those
    /// of lane `lane`. No step is kept.
    pub fn take_batch(&mut self, lane: u32, count: usize, batch: &mut Batch, deskew: &mut Deskew)
        requires some { 1 ≤ count }
        requires most { count ≤ 536 }
        requires there { HasBytes count self.old }
        requires lane { lane < deskew.old.settings.lanes }
        ensures { IsBatchOf count lane self.old self.new deskew.old deskew.new }
    {
        batch.take(&mut self.steps, &self.ring, count);
        pass_bytes(&mut self.ring, count);
        batch.give(lane, deskew);
    }

    /// Returns the step of bit k of the last rounds.
    pub fn step(&self, k: u32) -> LaneStep
        ensures value { result ≡ step_at k self.now }
        ensures low { is_low result }
    {
        self.steps.step(k)
    }

    /// Returns the report over the bytes that rounds took.
    pub fn report(&self) -> LaneReport
        ensures { (s : Settings) (rounds : ℕ) (fed : Fed) (column : List Step) → LaneStands self.now s rounds fed column →
            IsReport s (first_bits (8 * rounds) fed) result }
    {
        self.steps.report()
    }

    /// Returns how far the search for locks is after the bytes that rounds took.
    pub fn state(&self) -> LaneState
        ensures { (s : Settings) (rounds : ℕ) (fed : Fed) (column : List Step) → LaneStands self.now s rounds fed column →
            IsState s (first_bits (8 * rounds) fed) result }
    {
        self.steps.state()
    }
}
