ghost use Rattle.std.specs.Prelude.{◌≡◌, ◌*◌, ◌+◌, ◌<◌, ◌≤◌, ◌^◌, [], IfOk, drop, get_or, length, set, take, vec_capacity};
ghost use Rattle.lk_base.specs.declared.word.RxWord.TheVariants.{Bad};
ghost use Rattle.word_list.specs.Received.{data_count, data_front, rx_words_of, spread};

use crate::kind::{WordKind, kind_of, rx_word_of};
use lk_base::{OutOfMemory, RxWord};
use std::alloc::Global;
use std::marker::Model;

/// A block of received words, with room for a fixed number of them: their numbers, of eight bytes, and their kinds, of one. A list
/// of `RxWord` takes sixteen bytes for each.
#[derive(Drop)]
pub struct RxBlock {
    numbers: Vec<u64>,
    kinds: Vec<WordKind>,
    room: usize,
}

impl Model for RxBlock {
    ghost use Rattle.std.specs.Prelude.{◌≡◌, ◌≤◌, length, vec_capacity};
    ghost use Rattle.word_list.specs.Received.{Block, rx_words_of};

    ghost Value = { Block };

    ghost view = { λ a. record { room = a.room; words = rx_words_of a.numbers.items a.kinds.items } };

    ghost invariant = { λ a. (length a.kinds.items ≡ length a.numbers.items) × (a.room ≤ vec_capacity a.numbers) × (a.room ≤ vec_capacity a.kinds) };
}

// Makes both lists `count` long, and keeps what stood below that.
fn resize_parts(numbers: &mut Vec<u64>, kinds: &mut Vec<WordKind>, count: usize)
    requires numbers { count ≤ vec_capacity numbers.old }
    requires kinds { count ≤ vec_capacity kinds.old }
    ensures numbers { length numbers.new.items ≡ count }
    ensures kinds { length kinds.new.items ≡ count }
    ensures numbers_kept { take (length numbers.old.items) numbers.new.items ≡ take count numbers.old.items }
    ensures kinds_kept { take (length kinds.old.items) kinds.new.items ≡ take count kinds.old.items }
    ensures room { vec_capacity numbers.old ≤ vec_capacity numbers.new }
    ensures as_much { vec_capacity kinds.old ≤ vec_capacity kinds.new }
{
    let Ok(()) = numbers.resize(count, 0) else {
        unreachable!()
    };
    let Ok(()) = kinds.resize(count, WordKind::Bad) else {
        unreachable!()
    };
}

// Writes the number and the kind of a word to this place.
fn set_part(numbers: &mut [u64], kinds: &mut [WordKind], place: usize, word: RxWord)
    requires kinds { length kinds.old ≡ length numbers.old }
    requires there { place < length numbers.old }
    ensures words { rx_words_of numbers.new kinds.new ≡ set (rx_words_of numbers.old kinds.old) place word }
    ensures numbers { length numbers.new ≡ length numbers.old }
    ensures kinds { length kinds.new ≡ length kinds.old }
{
    numbers[place] = word.number_or_zero();
    kinds[place] = kind_of(word);
}

// Writes the numbers and kinds of words to every `step`-th place, the first to `from`. Returns the place of the word after the last.
fn spread_parts(
    numbers: &mut [u64],
    kinds: &mut [WordKind],
    words: &[RxWord],
    from: usize,
    step: usize,
) -> usize
    requires kinds { length kinds.old ≡ length numbers.old }
    requires step { step < 2 ^ 62 }
    requires within { from + length words.now * step < length numbers.old + step }
    ensures words { rx_words_of numbers.new kinds.new ≡ spread step from words.now (rx_words_of numbers.old kinds.old) }
    ensures numbers { length numbers.new ≡ length numbers.old }
    ensures kinds { length kinds.new ≡ length kinds.old }
    ensures place { result ≡ from + length words.now * step }
{
    let mut at = from;
    for word in words {
        set_part(numbers, kinds, at, *word);
        at += step;
    }
    at
}

// Counts the data words from number `from` on, before the first word of another kind.
fn data_count(kinds: &[WordKind], from: usize) -> usize
    requires { from ≤ length kinds.now }
    ensures count { result ≡ data_count (drop from kinds.now) }
    ensures within { from + result ≤ length kinds.now }
{
    for place in from..kinds.len() {
        if !matches!(kinds[place], WordKind::Data) {
            return place - from;
        }
    }
    kinds.len() - from
}

// Returns the numbers of the data words from number `from` on, before the first word of another kind.
fn data_part<'a>(numbers: &'a [u64], kinds: &[WordKind], from: usize) -> &'a [u64]
    requires kinds { length kinds.now ≡ length numbers.now }
    requires from { from ≤ length numbers.now }
    ensures { result.now ≡ data_front (drop from (rx_words_of numbers.now kinds.now)) }
{
    let count = data_count(kinds, from);
    &numbers[from..from + count]
}

impl RxBlock {
    /// Creates an empty block with room for `room` words. It takes all its memory here, and no later call takes any.
    ///
    /// # Errors
    ///
    /// `OutOfMemory` if memory ran out, and only then.
    pub fn new(alloc: Global, room: usize) -> Result<RxBlock, OutOfMemory>
        ensures { IfOk result (λ block. block ≡ record { room = room; words = [] }) }
    {
        let numbers = Vec::with_capacity(alloc, room)?;
        let kinds = Vec::with_capacity(alloc, room)?;
        Ok(RxBlock {
            numbers,
            kinds,
            room,
        })
    }

    /// Returns the number of words that it has room for.
    pub fn room(&self) -> usize
        ensures { result ≡ self.now.room }
    {
        self.room
    }

    /// Returns the number of its words, which is below 2^60.
    pub fn len(&self) -> usize
        ensures value { result ≡ length self.now.words }
        ensures few { length self.now.words < 2 ^ 60 }
    {
        self.numbers.as_slice().len()
    }

    /// Takes out all words.
    pub fn clear(&mut self)
        ensures words { self.new.words ≡ [] }
        ensures room { self.new.room ≡ self.old.room }
    {
        self.numbers.clear();
        self.kinds.clear();
    }

    /// Makes the block hold `count` words, at most its room. Words that are there below that number stay; any words after them are
    /// still to be written.
    pub fn resize(&mut self, count: usize)
        requires { count ≤ self.old.room }
        ensures words { length self.new.words ≡ count }
        ensures kept { take (length self.old.words) self.new.words ≡ take count self.old.words }
        ensures room { self.new.room ≡ self.old.room }
    {
        resize_parts(&mut self.numbers, &mut self.kinds, count);
    }

    /// Writes a word to this place, below the number of words.
    pub fn set(&mut self, place: usize, word: RxWord)
        requires { place < length self.old.words }
        ensures words { self.new.words ≡ set self.old.words place word }
        ensures room { self.new.room ≡ self.old.room }
    {
        set_part(&mut self.numbers, &mut self.kinds, place, word);
    }

    /// Writes words to every `step`-th place, the first to `from`. `step` is below 2^62, and all places are of words that are there.
    /// Returns the place of the word after the last.
    pub fn spread(&mut self, words: &[RxWord], from: usize, step: usize) -> usize
        requires step { step < 2 ^ 62 }
        requires within { from + length words.now * step < length self.old.words + step }
        ensures place { result ≡ from + length words.now * step }
        ensures words { self.new.words ≡ spread step from words.now self.old.words }
        ensures room { self.new.room ≡ self.old.room }
    {
        spread_parts(&mut self.numbers, &mut self.kinds, words, from, step)
    }

    /// Returns the word number `i`, from 0 and below the number of words.
    pub fn get(&self, i: usize) -> RxWord
        requires { i < length self.now.words }
        ensures { result ≡ get_or self.now.words i Bad }
    {
        rx_word_of(self.numbers[i], self.kinds[i])
    }

    /// Returns the numbers of the data words from number `from` on, before the first word of another kind.
    pub fn data_run(&self, from: usize) -> &[u64]
        requires { from ≤ length self.now.words }
        ensures { result.now ≡ data_front (drop from self.now.words) }
    {
        data_part(&self.numbers, &self.kinds, from)
    }
}
