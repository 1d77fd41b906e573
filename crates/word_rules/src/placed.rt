//! The rules that look at the words right before a place, by what is kept of these.
ghost use Rattle.std.specs.Prelude.{◌≡◌, ◌+◌, ◌-◌, ◌*◌, ◌%◌, ◌^◌, ◌<◌, ◌==◌, not};
ghost use Rattle.control_words.specs.ControlWord.{end_of};
ghost use Rattle.word_rules.specs.Bursts.{burst_bytes, ends};
ghost use Rattle.word_rules.specs.ByFields.{closes_by, crc_by, data_by, end_by, fill_by, wrong_fill_by, max_by, min_by, part_by, partial_by, short_by};
ghost use Rattle.word_rules.specs.Runs.{run_by};

use crate::before::{Before, is_burst_word};
use crate::limits::WordLimits;
use control_words::{ControlWord, Eop};
use lk_crc::{crc24_end, crc24_word};

/// Whether a word is an accepted control word with an end format.
pub fn ends(word: ControlWord) -> bool
    ensures { result ≡ ends word.0 }
{
    word.is_accepted() && word.ends_packet()
}

// How many bytes of a last word are not valid.
fn unused(valid: u8) -> u32
    ensures value { result ≡ 8 - valid }
{
    8u32.saturating_sub(valid as u32)
}

// Whether the lowest bytes of a word, at most eight, are not all 0.
fn has_low_bytes(word: u64, count: u32) -> bool
    requires { count < 9 }
    ensures { result ≡ not (word % 2 ^ (8 * count) == 0) }
{
    if count == 8 {
        return word != 0;
    }
    word % (1u64 << (8 * count)) != 0
}

// Whether the last Data word is not 0 past its valid bytes.
fn has_wrong_fill(end: Eop, last: u64) -> bool
    ensures { result ≡ wrong_fill_by end last }
{
    match end {
        Eop::Going | Eop::Error => false,
        Eop::End(valid) => has_low_bytes(last, unused(valid)),
    }
}

/// The bytes of a burst of this many Data words, by how the data before the word that closes it end.
pub fn burst_bytes(size: u64, end: Eop) -> u64
    requires { size < 2 ^ 60 }
    ensures { result ≡ burst_bytes size end }
{
    match end {
        Eop::Going | Eop::Error => 8 * size,
        Eop::End(valid) => (8 * size).saturating_sub(unused(valid) as u64),
    }
}

impl Before {
    /// Whether a Data word breaks `data`.
    pub fn breaks_data(self) -> bool
        ensures { result ≡ data_by self }
    {
        self.size == 0 && self.burst.is_none() && !self.after_bad
    }

    /// Whether a Data word breaks `max`.
    pub fn breaks_max(self, limits: WordLimits) -> bool
        ensures { result ≡ max_by limits self }
    {
        self.burst.is_some() && self.size == (limits.burst_max / 8) as u64
    }

    /// Whether one of so many Data words may break `data` or `max`.
    pub fn may_break(self, limits: WordLimits, count: u64) -> bool
        requires size { self.size < 2 ^ 60 }
        requires few { count < 2 ^ 60 }
        ensures { result ≡ run_by limits self count }
    {
        let most = (limits.burst_max / 8) as u64;
        let long = self.burst.is_some() && self.size <= most && most < self.size + count;
        self.breaks_data() || long
    }

    /// Whether a Control word breaks `crc`.
    pub fn breaks_crc(self, word: ControlWord) -> bool
        ensures { result ≡ crc_by self word.0 }
    {
        if self.after_bad {
            return false;
        }
        word.crc() != crc24_end(crc24_word(self.register, word.without_crc()))
    }

    /// Whether a Control word breaks `short`.
    pub fn breaks_short(self, limits: WordLimits, word: ControlWord) -> bool
        ensures { result ≡ short_by limits self word.0 }
    {
        let least = (limits.burst_short / 8) as u64;
        is_burst_word(word) && self.since_burst.is_some_and(|between| between < least)
    }

    // Whether a burst with Data is closed at the place.
    fn closes_data(self) -> bool
        ensures { result ≡ closes_by self }
    {
        self.burst.is_some() && self.size != 0
    }

    /// Whether a Control word breaks `end`.
    pub fn breaks_end(self, word: ControlWord) -> bool
        ensures { result ≡ end_by self word.0 }
    {
        ends(word) && !self.closes_data() && !self.after_bad
    }

    /// Whether a Control word breaks `fill`.
    pub fn breaks_fill(self, word: ControlWord) -> bool
        ensures { result ≡ fill_by self word.0 }
    {
        word.is_accepted() && self.closes_data() && has_wrong_fill(word.end_format(), self.last)
    }

    /// Whether a Control word breaks `part`.
    pub fn breaks_part(self, word: ControlWord) -> bool
        ensures { result ≡ part_by self word.0 }
    {
        word.is_accepted() && !word.ends_packet() && self.closes_data() && self.size % 4 != 0
    }

    // Whether the burst that a Control word closes is not the whole of a packet.
    fn is_partial(self, word: ControlWord) -> bool
        ensures { result ≡ partial_by self word.0 }
    {
        let end = word.ends_packet();
        self.burst
            .is_some_and(|burst| !(ControlWord(burst).starts_packet() && end))
    }

    /// Whether a Control word breaks `min`.
    pub fn breaks_min(self, limits: WordLimits, word: ControlWord) -> bool
        requires { self.size < 2 ^ 60 }
        ensures { result ≡ min_by limits self word.0 }
    {
        let bytes = burst_bytes(self.size, word.end_format());
        word.is_accepted()
            && self.size != 0
            && bytes < limits.burst_min as u64
            && self.is_partial(word)
    }
}
