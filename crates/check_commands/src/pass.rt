//! The pass over the words, block by block.
ghost use Rattle.std.specs.Prelude.{◌≡◌, ◌<◌, ◌≤◌, ◌^◌, ◌++◌, get_or, length, take, drop, reverse, IfOk, OnOk};
ghost use Rattle.lk_base.specs.declared.word.RxWord.TheVariants.{Bad};
ghost use Rattle.word_rules.specs.Checks.{Keeps};
ghost use Rattle.word_rules.specs.Faults.{Plan, faults_from};
ghost use Rattle.word_rules.specs.Flows.{InOrder};

use lk_base::{OutOfMemory, RxWord};
use std::alloc::Global;
use word_rules::{Checker, Fault};
use words_files::WordsFile;

/// The count of words that are judged at once, at most.
pub const BLOCK: usize = 512;

// Returns the word of this number.
fn word_at(words: &WordsFile, number: usize) -> RxWord
    requires { number < length words.now }
    ensures { result ≡ get_or words.now number Bad }
{
    let Some(word) = words.get(number) else {
        // The number is that of a word.
        unreachable!()
    };
    word
}

// Adds the faults of the run of data words from this number on, or of the one word there, to the others. Returns the number of the
// word after them.
fn next_faults(
    checker: &mut Checker,
    words: &WordsFile,
    number: usize,
    to: usize,
    room: &mut [u64],
    found: &mut Vec<Fault>,
) -> Result<usize, OutOfMemory>
    requires first { number < to }
    requires last { to ≤ length words.now }
    requires few { length words.now < 2 ^ 32 }
    requires keeps { (p : Plan) × Keeps checker.old p (reverse (take number words.now)) }
    ensures on { IfOk result (λ after. number < after) }
    ensures upto { IfOk result (λ after. after ≤ to) }
    ensures keeps { (p : Plan) → Keeps checker.old p (reverse (take number words.now)) → IfOk result (λ after. Keeps checker.new p (reverse (take after words.now))) }
    ensures found { (p : Plan) → Keeps checker.old p (reverse (take number words.now)) → InOrder p.flow →
        IfOk result (λ after. found.new.items ++ faults_from p (reverse (take after words.now)) (drop after words.now) ≡ found.old.items ++ faults_from p (reverse (take number words.now)) (drop number words.now)) }
{
    let most = room.len().min(to - number);
    let numbers = &mut room[..most];
    let count = words.copy_data(number, numbers);
    if count > 0 {
        checker.data_run(&numbers[..count], found)?;
        return Ok(number + count);
    }
    let next = words.get(number + 1);
    checker.step(word_at(words, number), next, found)?;
    Ok(number + 1)
}

/// Returns the faults of the words from number `from` up to number `to`.
pub fn block_faults(
    alloc: Global,
    checker: &mut Checker,
    words: &WordsFile,
    from: usize,
    to: usize,
) -> Result<Vec<Fault>, OutOfMemory>
    requires first { from ≤ to }
    requires last { to ≤ length words.now }
    requires few { length words.now < 2 ^ 32 }
    requires keeps { (p : Plan) × Keeps checker.old p (reverse (take from words.now)) }
    ensures keeps { (p : Plan) → Keeps checker.old p (reverse (take from words.now)) → OnOk result (Keeps checker.new p (reverse (take to words.now))) }
    ensures found { (p : Plan) → Keeps checker.old p (reverse (take from words.now)) → InOrder p.flow →
        IfOk result (λ found. found.items ++ faults_from p (reverse (take to words.now)) (drop to words.now) ≡ faults_from p (reverse (take from words.now)) (drop from words.now)) }
{
    let mut found = Vec::new(alloc);
    let mut room = [0; 64];
    let mut number = from;
    while number < to {
        number = next_faults(checker, words, number, to, &mut room, &mut found)?;
    }
    Ok(found)
}
