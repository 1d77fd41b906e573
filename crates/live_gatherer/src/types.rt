//! What is given of the lanes of a link.

use lk_base::{Pos, RxWord, Why};

/// A word of the aligned lanes.
#[derive(Clone, Copy, Debug, PartialEq, Eq)]
pub struct GatheredWord {
    /// The word as it was received.
    pub word: RxWord,
    /// Its place.
    pub at: Pos,
    /// How many words stand before it, one for each break among them: its number in the words file, from 0. If there are more than
    /// 2^64 - 1, it is 2^64 - 1.
    pub number: u64,
    /// The lane on which it came.
    pub lane: u32,
    /// The bit position at which its code begins, from the first bit of the lane on.
    pub bit: u64,
}

/// The end of an epoch.
#[derive(Clone, Copy, Debug, PartialEq, Eq)]
pub struct GatheredBreak {
    /// The place where the epoch ends.
    pub at: Pos,
    /// Why it ends: `Why::Lost` or `Why::End` and no other.
    pub why: Why,
    /// How many words stand before it: the number of the word for the break, which the words file has if an epoch comes after it. If
    /// there are more than 2^64 - 1, it is 2^64 - 1.
    pub number: u64,
}

/// What is given of the lanes of a link.
#[derive(Clone, Copy, Debug, PartialEq, Eq)]
pub enum Gathered {
    /// The next word.
    Word(GatheredWord),
    /// An epoch ends.
    Break(GatheredBreak),
    /// All lanes are finished, and all of theirs was given.
    Ended,
}
