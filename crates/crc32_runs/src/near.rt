ghost use Rattle.std.specs.Prelude.{◌≡◌, ◌+◌, ◌≤◌, ◌<◌, ◌∷◌, length, drop};
ghost use Rattle.crc32_runs.specs.Registers.{register_of};

use crate::add::add_at;

/// The distance of the last of the seven words that a word is added to.
const REACH: usize = 79;

// Adds a word to seven of the words after it. From zeros these lead to the register that they led to with the word before them.
#[inline(always)]
fn add_word(word: u64, after: &mut [u64])
    requires room { 79 ≤ length after.old }
    ensures register { register_of after.new ≡ register_of (word ∷ after.old) }
    ensures length { length after.new ≡ length after.old }
{
    add_at(after, 78, word);
    add_at(after, 77, word);
    add_at(after, 66, word);
    add_at(after, 60, word);
    add_at(after, 20, word);
    add_at(after, 7, word);
    add_at(after, 3, word);
}

// Adds the word at this place to later words.
#[inline(always)]
fn fold_word(words: &mut [u64], at: usize)
    requires room { at + 79 < length words.old }
    ensures register { register_of (drop (at + 1) words.new) ≡ register_of (drop at words.old) }
    ensures length { length words.new ≡ length words.old }
{
    let word = words[at];
    add_word(word, &mut words[at + 1..]);
}

// Adds the eight words from this place on to later words.
fn fold_eight(words: &mut [u64], at: usize)
    requires room { at + 87 ≤ length words.old }
    ensures register { register_of (drop (at + 8) words.new) ≡ register_of (drop at words.old) }
    ensures length { length words.new ≡ length words.old }
{
    for place in 0..8 {
        fold_word(words, at + place);
    }
}

/// Adds words to later ones, and returns the place of the first word that was not added: the register of the words from there on is
/// that of all words before. Usually all but the last 79 to 86 are added.
pub fn fold_near(words: &mut [u64]) -> usize
    ensures register { register_of (drop result words.new) ≡ register_of words.old }
    ensures within { result ≤ length words.new }
{
    let mut at = 0;
    while words.len() - at >= REACH + 8 {
        fold_eight(words, at);
        at += 8;
    }
    at
}
