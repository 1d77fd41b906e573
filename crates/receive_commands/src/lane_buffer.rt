//! The bytes that were read of a lane at once, and are given in pieces.
ghost use Rattle.std.specs.Prelude.{◌≡◌, ◌<◌, ◌≤◌, ◌+◌, ◌-◌, ◌^◌, ℕ, List, Some, length, min, IfOk, IfSome, OnOk};
ghost use Rattle.lk_base.specs.Limits.{lane_limit};
ghost use Rattle.lk_outside.specs.Files.{file};
ghost use Rattle.run_stops.specs.Stops.{StopCount};
ghost use Rattle.receive_commands.specs.ReadLanes.{FillsBuffer, HoldsOf, IsBuffer, IsFresh, ReadsFront, held_from, holds_at};

use lane_receipts::piece_of;
use lk_base::{LANE_LIMIT, OutOfMemory};
use lk_outside::Store;
use run_stops::{Stop, read_piece};
use std::alloc::Global;

/// The most bytes that are read of a lane at once.
const CHUNK: usize = 65536;

/// What is held of a lane.
#[derive(Drop)]
pub struct LaneBuffer {
    /// Where in the lane the first byte that is held stands.
    pub start: u64,
    /// How many bytes are held.
    pub count: usize,
    /// Room for the bytes, which stand at its front.
    pub bytes: Vec<u8>,
}

// Reads at most this many bytes of the file of this name, from the offset on, to the front of the bytes, and reports how many.
fn read_front<S: Store>(
    alloc: Global,
    store: &mut S,
    name: &str,
    offset: u64,
    bytes: &mut [u8],
    most: u64,
) -> Result<usize, Stop>
    requires { S.faults store.old < 2 ^ 60 }
    ensures cause { StopCount result (S.faults store.old) (S.faults store.new) }
    ensures unchanged { S.files store.new ≡ S.files store.old }
    ensures room { length bytes.new ≡ length bytes.old }
    ensures few { IfOk result (λ n. n ≤ min (length bytes.old) most) }
    ensures reads { IfSome (S.files store.old) (ReadsFront result name.now offset most bytes.new) }
{
    let count = most.min(bytes.len() as u64) as usize;
    read_piece(alloc, store, name, offset, &mut bytes[..count])
}

// Reads bytes of the file of this name, from the offset on, to the front of a vector, and reports how many. No byte past the
// limit of a lane is read.
fn read_chunk<S: Store>(
    alloc: Global,
    store: &mut S,
    name: &str,
    offset: u64,
    bytes: &mut Vec<u8>,
) -> Result<usize, Stop>
    requires { S.faults store.old < 2 ^ 60 }
    ensures cause { StopCount result (S.faults store.old) (S.faults store.new) }
    ensures unchanged { S.files store.new ≡ S.files store.old }
    ensures room { length bytes.new.items ≡ length bytes.old.items }
    ensures few { IfOk result (λ n. n ≤ min (length bytes.old.items) (lane_limit - offset)) }
    ensures reads { IfSome (S.files store.old) (ReadsFront result name.now offset (lane_limit - offset) bytes.new.items) }
{
    let most = LANE_LIMIT.saturating_sub(offset);
    read_front(alloc, store, name, offset, bytes, most)
}

impl LaneBuffer {
    /// A buffer in which nothing is held yet.
    pub fn new(alloc: Global) -> Result<LaneBuffer, OutOfMemory>
        ensures { IfOk result IsFresh }
    {
        let bytes = vec![in alloc; 0u8; CHUNK]?;
        Ok(LaneBuffer {
            start: 0,
            count: 0,
            bytes,
        })
    }

    /// Has bytes of the lane from the offset on held, unless it ends there: bytes of the file of this name, which is read where none
    /// are held. The file is as it was.
    pub fn read_on<S: Store>(
        &mut self,
        alloc: Global,
        store: &mut S,
        name: &str,
        offset: u64,
    ) -> Result<(), Stop>
        requires count { S.faults store.old < 2 ^ 60 }
        requires within { offset ≤ 2 ^ 56 }
        requires buffer { IsBuffer self.old }
        ensures cause { StopCount result (S.faults store.old) (S.faults store.new) }
        ensures unchanged { S.files store.new ≡ S.files store.old }
        ensures buffer { OnOk result (IsBuffer self.new) }
        ensures reads { IfSome (S.files store.old) (λ files. (bytes : List ℕ) → file files name.now ≡ Some bytes → length bytes ≤ lane_limit → HoldsOf bytes self.old → FillsBuffer name.now bytes offset result self.new) }
    {
        if self.holds(offset) {
            return Ok(());
        }
        self.refill(alloc, store, name, offset)
    }

    /// What is held from the offset on, at most 4,096 bytes.
    pub fn piece(&self, offset: u64) -> &[u8]
        requires { IsBuffer self.now }
        ensures held { result.now ≡ held_from self.now offset }
        ensures few { length result.now ≤ 4096 }
        ensures within { offset ≤ 2 ^ 56 → offset + length result.now ≤ 2 ^ 56 }
    {
        let held = &self.bytes[..self.count];
        piece_of(held, offset.saturating_sub(self.start) as usize)
    }

    // Whether the byte at the offset is held.
    fn holds(&self, offset: u64) -> bool
        requires { IsBuffer self.now }
        ensures { result ≡ holds_at self.now offset }
    {
        self.start <= offset && offset < self.start + self.count as u64
    }

    // Reads bytes of the lane from the offset on, as many as there is room for, but none past the limit.
    fn refill<S: Store>(
        &mut self,
        alloc: Global,
        store: &mut S,
        name: &str,
        offset: u64,
    ) -> Result<(), Stop>
        requires count { S.faults store.old < 2 ^ 60 }
        requires within { offset ≤ 2 ^ 56 }
        requires buffer { IsBuffer self.old }
        ensures cause { StopCount result (S.faults store.old) (S.faults store.new) }
        ensures unchanged { S.files store.new ≡ S.files store.old }
        ensures buffer { OnOk result (IsBuffer self.new) }
        ensures reads { IfSome (S.files store.old) (λ files. (bytes : List ℕ) → file files name.now ≡ Some bytes → length bytes ≤ lane_limit → FillsBuffer name.now bytes offset result self.new) }
    {
        let count = read_chunk(alloc, store, name, offset, &mut self.bytes)?;
        self.start = offset;
        self.count = count;
        Ok(())
    }
}
