use crate::block::{append_words, block_checksum, spelled};
use arrayvec::ArrayVec;

/// A reader of samples, which gives the words of a frame's blocks as they become whole.
#[derive(Drop)]
pub struct OobIn {
    // The entries of the calendar.
    entries: u32,
    // The clock of the last sample.
    clock: bool,
    // The entries of the open frame from its open block on: 0 where the frame gives nothing more, or none is open.
    left: u32,
    // The bits of the open block.
    block: ArrayVec<bool, 68>,
}

impl OobIn {
    ghost use Rattle.std.specs.Prelude.{◌≡◌, ◌+◌, ◌≤◌, ◌<◌, ℕ, List, [], ◌∷◌, ◌++◌, min, length};
    ghost use Rattle.oob_flow.specs.Taken.{Taken};
    ghost use Rattle.oob_flow.specs.Reading.{rows_of_samples, rows_of_bits, rows_at};
    ghost use Rattle.oob_flow.specs.Receiving.{StandsIn, HasTaken, Closes};

    /// A reader for a calendar of this many entries, 1 to 1,024, before the first sample.
    pub fn new(entries: u32) -> OobIn
        requires low { 1 ≤ entries }
        requires high { entries ≤ 1024 }
        ensures { StandsIn result entries [] }
    {
        OobIn {
            entries,
            clock: false,
            left: 0,
            block: ArrayVec::new(),
        }
    }

    // Takes a bit.
    fn take(&mut self, state: bool, sync: bool, words: &mut ArrayVec<u64, 4>)
        requires empty { words.old.items ≡ [] }
        requires stands { (entries : ℕ) × (bits : List Taken) × HasTaken self.old entries bits }
        ensures clock { self.new.clock ≡ self.old.clock }
        ensures stands { (entries : ℕ) (bits : List Taken) (b : Taken) → b.state ≡ state → b.sync ≡ sync → HasTaken self.old entries bits → HasTaken self.new entries (bits ++ b ∷ []) }
        ensures rows { (entries : ℕ) (bits : List Taken) (b : Taken) → b.state ≡ state → b.sync ≡ sync → HasTaken self.old entries bits → rows_of_bits entries (bits ++ b ∷ []) ≡ rows_of_bits entries bits ++ rows_at b.number words.new.items }
    {
        if sync {
            self.left = self.entries;
            self.block.clear();
        }
        if self.left > 0 {
            self.block.push(state);
            self.close(words);
        }
    }

    // Gives the words of the open block, if it is whole.
    fn close(&mut self, words: &mut ArrayVec<u64, 4>)
        requires empty { words.old.items ≡ [] }
        requires some { 1 ≤ self.old.left }
        requires fits { length self.old.block.items ≤ min 64 self.old.left + 4 }
        ensures { Closes self.old self.new words.new.items }
    {
        let size = self.left.min(64) as usize;
        let bits = self.block.as_slice();
        if bits.len() < size + 4 {
            return;
        }
        let states = &bits[..size];
        if spelled(&bits[size..]) == block_checksum(states) as u16 {
            append_words(words, self.left == self.entries, states);
            self.left -= size as u32;
        } else {
            words.push(0);
            self.left = 0;
        }
        self.block.clear();
    }

    /// Takes the next sample, a byte below 8. `words` gets the words of the block that it ends, if it ends one: those that
    /// carry the block's states, or the one word 0 where the checksum is wrong. Their slot is the number of the sample.
    pub fn sample(&mut self, byte: u8, words: &mut ArrayVec<u64, 4>)
        requires sample { byte < 8 }
        requires empty { words.old.items ≡ [] }
        requires stands { (entries : ℕ) × (samples : List ℕ) × StandsIn self.old entries samples }
        ensures stands { (entries : ℕ) (samples : List ℕ) → StandsIn self.old entries samples → StandsIn self.new entries (samples ++ byte ∷ []) }
        ensures rows { (entries : ℕ) (samples : List ℕ) → StandsIn self.old entries samples → rows_of_samples entries (samples ++ byte ∷ []) ≡ rows_of_samples entries samples ++ rows_at (length samples) words.new.items }
    {
        let clock = byte % 2 == 1;
        let rises = clock && !self.clock;
        self.clock = clock;
        if rises {
            self.take(byte / 2 % 2 == 1, byte / 4 % 2 == 1, words);
        }
    }
}
