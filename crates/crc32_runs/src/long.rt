ghost use Rattle.std.specs.Prelude.{◌≡◌, ◌+◌, ◌-◌, ◌^◌, ◌≤◌, ◌++◌, length, take};
ghost use Rattle.lk_base.specs.Checksum.{bits_of, bits_of_words, register_after};

use crate::run::crc32_run;
use lk_crc::{crc32_start, crc32_word};
use std::marker::Model;

/// How many words wait at most.
const MOST: usize = 2048;

/// The CRC32 of words that come one by one or eight at once. Words that come eight at once wait, and are taken together. It is
/// seen as the register after all words.
#[derive(Debug, Drop)]
pub struct LongCrc32 {
    /// The register after the words before those that wait.
    register: u32,
    /// The words that wait are the first.
    words: [u64; MOST],
    waiting: usize,
}

impl Model for LongCrc32 {
    ghost use Rattle.std.specs.Prelude.{ℕ, ◌≤◌, take};
    ghost use Rattle.lk_base.specs.Checksum.{bits_of_words, register_after};

    ghost Value = { ℕ };

    ghost view = { λ c. register_after 32 0x1EDC6F41 c.register (bits_of_words (take c.waiting c.words)) };

    ghost invariant = { λ c. c.waiting ≤ 2048 };
}

// Puts eight words at a place. Not by `copy_from_slice`: a copy that may overlap is made twice.
fn put_eight(words: &mut [u64], at: usize, eight: &[u64; 8])
    requires { at + 8 ≤ length words.old }
    ensures put { take (at + 8) words.new ≡ take at words.old ++ eight.now }
    ensures length { length words.new ≡ length words.old }
{
    for place in 0..8 {
        words[at + place] = eight[place];
    }
}

// Returns room for the words that wait.
fn make_room() -> [u64; MOST] {
    [0; MOST]
}

// Returns the register after the words that wait.
fn settle(register: u32, words: &mut [u64; MOST], waiting: usize) -> u32
    requires { waiting ≤ 2048 }
    ensures { result ≡ register_after 32 0x1EDC6F41 register (bits_of_words (take waiting words.old)) }
{
    if waiting == 0 {
        return register;
    }
    crc32_run(register, &mut words[..waiting])
}

impl LongCrc32 {
    /// Creates the register of CRC32 before any word.
    pub fn new() -> LongCrc32
        ensures { result ≡ 2 ^ 32 - 1 }
    {
        LongCrc32 {
            register: crc32_start(),
            words: make_room(),
            waiting: 0,
        }
    }

    /// Goes back to the register before any word.
    pub fn restart(&mut self)
        ensures { self.new ≡ 2 ^ 32 - 1 }
    {
        self.register = crc32_start();
        self.waiting = 0;
    }

    /// Takes the bits of a word.
    pub fn word(&mut self, word: u64)
        ensures { self.new ≡ register_after 32 0x1EDC6F41 self.old (bits_of 64 word) }
    {
        let register = settle(self.register, &mut self.words, self.waiting);
        self.register = crc32_word(register, word);
        self.waiting = 0;
    }

    /// Takes the bits of eight words, in order.
    pub fn eight(&mut self, words: &[u64; 8])
        ensures { self.new ≡ register_after 32 0x1EDC6F41 self.old (bits_of_words words.now) }
    {
        if self.waiting + 8 > MOST {
            self.register = settle(self.register, &mut self.words, self.waiting);
            self.waiting = 0;
        }
        put_eight(&mut self.words, self.waiting, words);
        self.waiting += 8;
    }

    /// Returns the register after all words.
    pub fn register(&mut self) -> u32
        ensures value { result ≡ self.old }
        ensures unchanged { self.new ≡ self.old }
    {
        self.register = settle(self.register, &mut self.words, self.waiting);
        self.waiting = 0;
        self.register
    }
}
