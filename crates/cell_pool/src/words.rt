ghost use Rattle.std.specs.Prelude.{◌≡◌, ◌+◌, ◌-◌, ◌*◌, ◌%◌, ◌^◌, ◌<◌, ◌≤◌, ℕ, ◌++◌, length, min, take, replicate, slice_index, slice_set, vec_capacity, IfOk};
ghost use Rattle.cell_pool.specs.Cells.{with_run};

use crate::cells::{CELL_WORDS, put_words};
use lk_base::OutOfMemory;
use std::alloc::Global;
use std::marker::Model;

// The words of a cell that was never written.
static ZEROS: [u64; 8] = [0, 0, 0, 0, 0, 0, 0, 0];

/// The words of all cells, eight for each, which are zero at first. There is room for all from the start, but memory is written
/// only up to the last cell that had a word, so that cells that are never used cost no memory.
#[derive(Drop)]
pub struct Words {
    // The words up to a cell's end. All words after them are zero.
    words: Vec<u64>,
    cells: u32,
}

impl Model for Words {
    ghost use Rattle.std.specs.Prelude.{ℕ, ◌≡◌, ◌+◌, ◌-◌, ◌*◌, ◌%◌, ◌≤◌, ◌++◌, List, length, replicate, vec_capacity};

    ghost Value = { List ℕ };

    ghost view = { λ a. a.words.items ++ replicate (8 * a.cells - length a.words.items) 0 };

    ghost invariant = { λ a. (length a.words.items ≤ 8 * a.cells) × (8 * a.cells ≤ vec_capacity a.words) × (length a.words.items % 8 ≡ 0) };
}

// Adds zeros up to this many words, for which there is room.
fn fill(words: &mut Vec<u64>, end: usize)
    requires { end ≤ vec_capacity words.old }
    ensures filled { words.new.items ≡ words.old.items ++ replicate (end - length words.old.items) 0 }
    ensures room { vec_capacity words.old ≤ vec_capacity words.new }
{
    if words.len() < end {
        words.resize(end, 0).unwrap();
    }
}

impl Words {
    /// Creates the words of this many cells, below 2^26. No later call takes memory.
    pub fn new(alloc: Global, cells: u32) -> Result<Words, OutOfMemory>
        requires { cells < 2 ^ 26 }
        ensures zeros { IfOk result (λ words. words ≡ replicate (8 * cells) 0) }
        ensures long { IfOk result (λ words. length words ≡ 8 * cells) }
    {
        let words = Vec::with_capacity(alloc, CELL_WORDS * cells as usize)?;
        Ok(Words { words, cells })
    }

    /// Puts a word into a cell, as number `at` of its eight words.
    pub fn set(&mut self, cell: u32, at: usize, word: u64)
        requires cell { 8 * cell + 8 ≤ length self.old }
        requires at { at < 8 }
        ensures { self.new ≡ slice_set self.old (8 * cell + at) word }
    {
        let first = CELL_WORDS * cell as usize;
        fill(&mut self.words, first + CELL_WORDS);
        self.words[first + at] = word;
    }

    /// Puts words into a cell, from number `from` of its eight words on, as many as there are and fit, and returns how many.
    pub fn put(&mut self, cell: u32, from: u32, words: &[u64]) -> usize
        requires cell { 8 * cell + 8 ≤ length self.old }
        requires from { from < 8 }
        ensures count { result ≡ min (8 - from) (length words.now) }
        ensures put { self.new ≡ with_run self.old (8 * cell + from) (take result words.now) }
    {
        fill(&mut self.words, CELL_WORDS * cell as usize + CELL_WORDS);
        put_words(&mut self.words, cell, from, words)
    }

    /// Lends the words of a cell.
    pub fn of_cell(&self, cell: u32) -> &[u64]
        requires { 8 * cell + 8 ≤ length self.now }
        ensures long { length result.now ≡ 8 }
        ensures words { (k : ℕ) → k < 8 → slice_index result.now k ≡ slice_index self.now (8 * cell + k) }
    {
        let first = CELL_WORDS * cell as usize;
        if first < self.words.len() {
            &self.words[first..first + CELL_WORDS]
        } else {
            &ZEROS
        }
    }
}
