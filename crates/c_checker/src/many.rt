//! Many words at once.
ghost use Rattle.std.specs.Prelude.{◌≡◌, ◌≤◌, ◌<◌, ◌+◌, ℕ, Some, length, map, take, drop};
ghost use Rattle.std.specs.Bool.{OnFalse, OnTrue};
ghost use Rattle.lk_base.specs.declared.word.RxWord.TheVariants.{Data};
ghost use Rattle.live_checker.specs.Calls.{IsRun};
ghost use Rattle.live_checker.specs.Standing.{Checked, Checks};
ghost use Rattle.c_checker.specs.Many.{GivesWords, IsStuck, IsTaken, LeadsTo, after_taken, asked, count_taken};

use crate::codes::{misuse_code, word_of};
use c_parts::codes::{DONE, OUT_OF_RANGE, WORD_DATA};
use live_checker::LiveChecker;
use lk_base::RxWord;

/// How many Data words are taken at once, at most.
const RUN: usize = 64;

/// A word as C gives it.
#[repr(C)]
#[derive(Clone, Copy)]
pub struct CWord {
    /// Its 64 bits. Those of a Bad word are not looked at.
    pub number: u64,
    /// One of the kinds of words in `codes`, `WORD_DATA` to `WORD_BAD`.
    pub kind: u32,
    /// Not looked at.
    pub reserved: u32,
}

// Copies the numbers of the Data words from number `at` on, as many as stand there one after another and as there is room for. Returns
// how many these are.
fn copy_data(words: &[CWord], at: usize, room: &mut [u64]) -> usize
    requires { at ≤ length words.now }
    ensures upto { at + result ≤ length words.now }
    ensures fits { result ≤ length room.new }
    ensures same { map (λ (n : ℕ). Some (Data n)) (take result room.new) ≡ take result (drop at (asked words.now)) }
{
    let most = room.len().min(words.len() - at);
    for count in 0..most {
        let word = words[at + count];
        if word.kind != WORD_DATA {
            return count;
        }
        room[count] = word.number;
    }
    most
}

// Takes Data words of these numbers at once, if there are some and none shows a fault. True if they are taken.
fn take_run(checker: &mut LiveChecker, run: &[u64]) -> bool
    ensures run { IsRun checker.old checker.new run.now result }
    ensures some { OnTrue result (0 < length run.now) }
{
    if run.is_empty() {
        return false;
    }
    checker.data_run(run)
}

// Gives a word. True if it is taken.
fn take_one(checker: &mut LiveChecker, word: RxWord) -> bool
    ensures taken { IsTaken checker.old checker.new word result }
{
    match checker.word(word) {
        Ok(()) => true,
        Err(_) => false,
    }
}

// Takes words from number `at` on: a run of Data words that shows no fault, or one word, or none. Returns the number of the word after
// those.
fn take_next(checker: &mut LiveChecker, words: &[CWord], at: usize, room: &mut [u64]) -> usize
    requires { at < length words.now }
    ensures on { at ≤ result }
    ensures upto { result ≤ length words.now }
    ensures takes { (x : Checked) → Checks checker.old x → (y : Checked) × Checks checker.new y × LeadsTo (asked words.now) at x result y }
    ensures same { result ≡ at → checker.new ≡ checker.old }
    ensures stuck { result ≡ at → (x : Checked) → Checks checker.old x → IsStuck (asked words.now) at x }
{
    let count = copy_data(words, at, room);
    if take_run(checker, &room[..count]) {
        return at + count;
    }
    let word = words[at];
    let Some(word) = word_of(word.kind, word.number) else {
        return at;
    };
    if take_one(checker, word) {
        return at + 1;
    }
    at
}

// Takes words up to the first that is refused, or is of no kind, and returns how many.
fn take_words(checker: &mut LiveChecker, words: &[CWord]) -> usize
    ensures upto { result ≤ length words.now }
    ensures same { result ≡ 0 → checker.new ≡ checker.old }
    ensures count { (x : Checked) → Checks checker.old x → result ≡ count_taken (asked words.now) x }
    ensures takes { (x : Checked) → Checks checker.old x → Checks checker.new (after_taken (asked words.now) x) }
{
    let mut room = [0; RUN];
    let mut at = 0;
    while at < words.len() {
        let next = take_next(checker, words, at, &mut room);
        if next == at {
            return at;
        }
        at = next;
    }
    at
}

/// Gives words one after another, up to the first that is refused or is of no kind, and writes how many are taken; that is 0 before. It
/// is `DONE`, `FINISHED`, `WAITING`, `TOO_MANY` or `OUT_OF_RANGE`.
pub fn give_words(checker: &mut LiveChecker, words: &[CWord], taken: &mut usize) -> u32
    requires { taken.old ≡ 0 }
    ensures { GivesWords checker.old checker.new (asked words.now) result taken.new }
{
    if let Some(why) = checker.refusal() {
        return misuse_code(why);
    }
    let count = take_words(checker, words);
    *taken = count;
    if count > 0 {
        return DONE;
    }
    if words.is_empty() {
        return DONE;
    }
    OUT_OF_RANGE
}
