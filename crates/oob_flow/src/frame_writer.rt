ghost use Rattle.std.specs.Prelude.{◌≡◌, ◌+◌, ◌≤◌, ◌<◌, ℕ, Bool, List, ◌++◌, length, map, take, slice_index_or, vec_len, vec_capacity};
ghost use Rattle.stream_model.specs.declared.rows.LocalRow.{LocalRow};
ghost use Rattle.calendar.specs.Outgoing.{last_local};
ghost use Rattle.oob_flow.specs.Frames.{frame_length, frame_samples};
ghost use Rattle.oob_flow.specs.Sending.{StandsOut};

use crate::outgoing::OobOut;
use lk_base::OutOfMemory;
use std::alloc::Global;
use stream_model::LocalRow;

// why: FrameWriter::next takes the room of the frame before it sets a row: if memory runs out, the writer and the caller's
// samples are unchanged. OobOut takes memory when it is made, and at no other call.
/// A writer of the frames of a calendar and of local rows, one after another.
#[derive(Drop)]
pub struct FrameWriter {
    out: OobOut,
    // How many of the rows are set.
    taken: usize,
    // The number of the first sample of the next frame.
    begin: u64,
    // The samples of a frame.
    size: u32,
}

// How many samples a frame of n entries has.
fn frame_length(entries: u32) -> u32
    requires low { 1 ≤ entries }
    requires high { entries ≤ 1024 }
    ensures value { result ≡ frame_length entries }
    ensures bound { result ≤ 2176 }
{
    2 * (entries + 4 * ((entries + 63) / 64))
}

// Sets the rows from a place on whose slot is at most that of a frame's first sample. Returns the place of the first row
// that is not set.
fn set_rows(out: &mut OobOut, local: &[LocalRow], taken: usize, begin: u64) -> usize
    requires within { taken ≤ length local.now }
    requires stands { (entries : List ℕ) × (shown : List Bool) × StandsOut out.old entries (last_local (take taken local.now)) shown 0 }
    ensures within { result ≤ length local.now }
    ensures further { taken ≤ result }
    ensures stands { (entries : List ℕ) (shown : List Bool) → StandsOut out.old entries (last_local (take taken local.now)) shown 0 → StandsOut out.new entries (last_local (take result local.now)) shown 0 }
    ensures early { (i : ℕ) (d : LocalRow) → taken ≤ i → i < result → (slice_index_or local.now i d).slot ≤ begin }
    ensures late { result < length local.now → (d : LocalRow) → begin < (slice_index_or local.now result d).slot }
{
    let mut next = taken;
    while next < local.len() {
        let row = local[next];
        if row.slot > begin {
            return next;
        }
        out.set(row.channel, row.on);
        next += 1;
    }
    next
}

// Appends the samples of a whole frame, for which there is room.
fn append_frame(out: &mut OobOut, samples: &mut Vec<u8>, size: u32)
    requires room { vec_len samples.old + size ≤ vec_capacity samples.old }
    requires stands { (entries : List ℕ) × (states : ℕ → Bool) × (shown : List Bool) × StandsOut out.old entries states shown 0 × (size ≡ frame_length (length entries)) }
    ensures samples { (entries : List ℕ) (states : ℕ → Bool) (shown : List Bool) → StandsOut out.old entries states shown 0 → size ≡ frame_length (length entries) → samples.new.items ≡ samples.old.items ++ frame_samples (map states entries) }
    ensures stands { (entries : List ℕ) (states : ℕ → Bool) (shown : List Bool) → StandsOut out.old entries states shown 0 → size ≡ frame_length (length entries) → StandsOut out.new entries states (map states entries) 0 }
{
    for _place in 0..size {
        samples.push_reserved(out.sample());
    }
}

impl FrameWriter {
    ghost use Rattle.std.specs.Prelude.{◌≡◌, ◌↔◌, ◌+◌, ◌^◌, ◌≤◌, ◌<◌, ℕ, List, ◌++◌, length, All, IsTrue, IfOk, OnOk, OnErr};
    ghost use Rattle.std.specs.List.Sorted.{IsNonDecreasingBy};
    ghost use Rattle.stream_model.specs.declared.rows.LocalRow.{LocalRow};
    ghost use Rattle.oob_flow.specs.Written.{frame_begin, written_frame, BeginsAfterRows};
    ghost use Rattle.oob_flow.specs.WritingFrames.{StandsAt};

    /// A writer of the frames of a calendar, 1 to 1,024 entries, before the first.
    ///
    /// # Errors
    ///
    /// `OutOfMemory` where memory ran out.
    pub fn new(alloc: Global, entries: &[u16]) -> Result<FrameWriter, OutOfMemory>
        requires low { 1 ≤ length entries.now }
        requires high { length entries.now ≤ 1024 }
        ensures { IfOk result (λ writer. (local : List LocalRow) → StandsAt writer entries.now local 0) }
    {
        let out = OobOut::new(alloc, entries)?;
        Ok(FrameWriter {
            out,
            taken: 0,
            begin: 0,
            size: frame_length(entries.len() as u32),
        })
    }

    /// Appends the samples of the next frame, and says whether it is the last: whether it begins at or after the slot of each
    /// row. The rows are in order of slot, and the same in each call.
    ///
    /// # Errors
    ///
    /// `OutOfMemory` where memory ran out. The writer and `samples` are as they were then, and the call can be made again.
    pub fn next(&mut self, local: &[LocalRow], samples: &mut Vec<u8>) -> Result<bool, OutOfMemory>
        requires order { IsNonDecreasingBy (λ (row : LocalRow). row.slot) local.now }
        requires stands { (entries : List ℕ) × (k : ℕ) × StandsAt self.old entries local.now k × (frame_begin entries k < 2 ^ 32) }
        ensures samples { OnOk result ((entries : List ℕ) (k : ℕ) → StandsAt self.old entries local.now k → samples.new.items ≡ samples.old.items ++ written_frame entries local.now k) }
        ensures stands { OnOk result ((entries : List ℕ) (k : ℕ) → StandsAt self.old entries local.now k → StandsAt self.new entries local.now (k + 1)) }
        ensures unchanged { OnErr result ((self.new ≡ self.old) × (samples.new.items ≡ samples.old.items)) }
        ensures last { IfOk result (λ last. (entries : List ℕ) (k : ℕ) → StandsAt self.old entries local.now k → IsTrue last ↔ BeginsAfterRows entries local.now k) }
    {
        samples.reserve(self.size as usize)?;
        self.taken = set_rows(&mut self.out, local, self.taken, self.begin);
        append_frame(&mut self.out, samples, self.size);
        self.begin += self.size as u64;
        Ok(self.taken == local.len())
    }

    /// How many samples were given.
    pub fn given(&self) -> u64
        ensures { (entries : List ℕ) (local : List LocalRow) (k : ℕ) → StandsAt self.now entries local k → result ≡ frame_begin entries k }
    {
        self.begin
    }
}
