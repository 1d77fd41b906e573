ghost use Rattle.std.specs.Prelude.{◌≡◌, ◌<◌, ◌≤◌, ◌+◌, ◌++◌, ℕ, List, [], true, false, length, take, drop, min, IfOk};
ghost use Rattle.lk_base.specs.Link.{Settings};
ghost use Rattle.lk_base.specs.declared.word.Word.{Word as SentWord};
ghost use Rattle.metaframe.specs.Writing.{wants_payload};
ghost use Rattle.tx_end.specs.Lanes.{Carries};
ghost use Rattle.live_lanes.specs.Lanes.{IsFresh, MakesEnd, MakesFraming, MakesPayload, lane_has_room};

use circular_buffer::HeapCircularBuffer;
use lk_base::{Link, OutOfMemory, Word};
use std::alloc::Global;
use std::marker::Model;
use tx_end::LaneWriter;

/// The bytes that a lane's ring has room for.
const ROOM: usize = 4096;

/// The most bytes that one word more completes.
const WORD_BYTES: usize = 9;

/// One lane as it is sent: its words, and the bytes of these that wait to be taken.
#[derive(Drop)]
pub struct LiveLane {
    writer: LaneWriter,
    ring: HeapCircularBuffer<u8>,
}

impl Model for LiveLane {
    ghost use Rattle.std.specs.Prelude.{◌≡◌, ◌<◌, length};
    ghost use Rattle.live_lanes.specs.States.{Lane};

    ghost Value = { Lane };

    ghost view = { λ a. record { writer = a.writer; waiting = a.ring.items } };

    ghost invariant = { λ a. (a.ring.capacity ≡ 4096) × (length a.writer.bits < 8) };
}

// Gives the whole bytes of a writer into a ring that has room for them.
fn give_bytes(writer: &mut LaneWriter, ring: &mut HeapCircularBuffer<u8>)
    requires many { 64 ≤ length writer.old.bits }
    requires few { length writer.old.bits < 80 }
    requires room { length ring.old.items + 9 ≤ ring.old.capacity }
    ensures carries { (s : Settings) (lane : ℕ) (given : List SentWord) (made : ℕ) (taken : List ℕ) → Carries writer.old s lane given made (taken ++ ring.old.items) → Carries writer.new s lane given made (taken ++ ring.new.items) }
    ensures few { length writer.new.bits < 8 }
    ensures longer { length ring.old.items < length ring.new.items }
    ensures capacity { ring.new.capacity ≡ ring.old.capacity }
{
    let mut bytes = [0; WORD_BYTES];
    let count = writer.give(&mut bytes);
    ring.fill_from_slice(&bytes[..count]);
}

impl LiveLane {
    /// Creates a lane before its first word. Lanes are numbered from 0. It takes memory here, and no later call does.
    pub fn new(alloc: Global, link: &Link, lane: u32) -> Result<LiveLane, OutOfMemory>
        ensures { IfOk result (IsFresh link.now lane) }
    {
        let ring = HeapCircularBuffer::with_capacity(alloc, ROOM)?;
        Ok(LiveLane {
            writer: LaneWriter::new(link, lane),
            ring,
        })
    }

    /// True if its next word is a payload word.
    pub fn wants_payload(&self) -> bool
        ensures { result ≡ wants_payload self.now.writer.framing }
    {
        self.writer.wants_payload()
    }

    /// True if there is room for the bytes of one word more.
    pub fn has_room(&self) -> bool
        ensures { result ≡ lane_has_room self.now }
    {
        self.ring.len() + WORD_BYTES <= ROOM
    }

    /// Returns how many bytes wait: 4,096 at most.
    pub fn waiting(&self) -> usize
        ensures bytes { result ≡ length self.now.waiting }
        ensures few { result ≤ 4096 }
    {
        self.ring.len()
    }

    /// Makes the next word, a framing word.
    pub fn frame(&mut self)
        requires room { lane_has_room self.old ≡ true }
        requires wants { wants_payload self.old.writer.framing ≡ false }
        ensures { MakesFraming self.old self.new }
    {
        self.writer.framing();
        give_bytes(&mut self.writer, &mut self.ring);
    }

    /// Makes the next word, a payload word, of the given one.
    pub fn put(&mut self, word: Word)
        requires room { lane_has_room self.old ≡ true }
        requires wants { wants_payload self.old.writer.framing ≡ true }
        ensures { MakesPayload word self.old self.new }
    {
        self.writer.payload(word);
        give_bytes(&mut self.writer, &mut self.ring);
    }

    /// Makes the last byte, of the bits that are left, and zeros.
    pub fn finish(&mut self)
        requires { lane_has_room self.old ≡ true }
        ensures { MakesEnd self.old self.new }
    {
        if let Some(byte) = self.writer.last_byte() {
            self.ring.fill_from_slice(&[byte]);
        }
    }

    /// Takes the next bytes, as many as wait and there is room for, and returns how many.
    pub fn take(&mut self, out: &mut [u8]) -> usize
        ensures count { result ≡ min (length out.old) (length self.old.waiting) }
        ensures copied { out.new ≡ take result self.old.waiting ++ drop result out.old }
        ensures rest { self.new ≡ record { writer = self.old.writer; waiting = drop result self.old.waiting } }
    {
        self.ring.read_into(out)
    }
}
