//! What is given of lanes as C sees it.
ghost use Rattle.std.specs.Prelude.{◌≡◌};
ghost use Rattle.c_gatherer.specs.Shown.{of_break, of_kind, of_word, shown as shown_of};

use crate::codes::kind_of;
use c_parts::codes::{GATHERED_BREAK, GATHERED_ENDED, GATHERED_NONE, GATHERED_WORD, fault_number};
use c_parts::place::{CPlace, place_of};
use live_gatherer::{Gathered, GatheredBreak, GatheredWord};

/// A word, a break, the end, or none. A field that its kind lacks is 0.
#[repr(C)]
#[derive(Clone, Copy)]
pub struct CGathered {
    /// One of the kinds in `codes`, `GATHERED_NONE` to `GATHERED_ENDED`.
    pub kind: u32,
    /// One of the kinds of words in `codes`, `WORD_DATA` to `WORD_BAD`.
    pub word_kind: u32,
    /// The lane on which a word came.
    pub lane: u32,
    /// Why an epoch ends: the place of a `Why`.
    pub why: u32,
    /// The place of a word, or the place where an epoch ends.
    pub at: CPlace,
    /// The bit position at which the code of a word begins, from the first bit of the lane on.
    pub bit: u64,
    /// The number in the words file of a word, or of the word for a break, from 0.
    pub number: u64,
    /// The 64 bits of a word that is not Bad.
    pub word: u64,
}

// One of this kind with no field.
fn of_kind(kind: u32) -> CGathered
    ensures { result ≡ of_kind kind }
{
    CGathered {
        kind,
        word_kind: 0,
        lane: 0,
        why: 0,
        at: place_of(None),
        bit: 0,
        number: 0,
        word: 0,
    }
}

fn of_word(found: GatheredWord) -> CGathered
    ensures { result ≡ of_word found }
{
    let mut gathered = of_kind(GATHERED_WORD);
    gathered.word_kind = kind_of(found.word);
    gathered.lane = found.lane;
    gathered.at = place_of(Some(found.at));
    gathered.bit = found.bit;
    gathered.number = found.number;
    gathered.word = found.word.number_or_zero();
    gathered
}

fn of_break(found: GatheredBreak) -> CGathered
    ensures { result ≡ of_break found }
{
    let mut gathered = of_kind(GATHERED_BREAK);
    gathered.why = fault_number(found.why);
    gathered.at = place_of(Some(found.at));
    gathered.number = found.number;
    gathered
}

/// What is given, or none, as C sees it.
pub fn shown(given: Option<Gathered>) -> CGathered
    ensures { result ≡ shown_of given }
{
    match given {
        None => of_kind(GATHERED_NONE),
        Some(Gathered::Word(found)) => of_word(found),
        Some(Gathered::Break(found)) => of_break(found),
        Some(Gathered::Ended) => of_kind(GATHERED_ENDED),
    }
}
