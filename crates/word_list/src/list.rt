ghost use Rattle.std.specs.Prelude.{◌≡◌, ◌==◌, ◌+◌, ◌<◌, ◌≤◌, ◌^◌, ◌++◌, ◌∷◌, [], drop, false, length, map, replicate, take, vec_capacity, vec_len, OnOk, OnErr};
ghost use Rattle.lk_base.specs.Words.{is_control, payload, word_at};
ghost use Rattle.lk_base.specs.declared.word.Word.TheVariants.{Data};
ghost use Rattle.word_list.specs.Parts.{word_of, words_of};

use lk_base::{OutOfMemory, Word};
use std::alloc::Global;
use std::marker::Model;

/// A list of words: their numbers, of eight bytes, and their kinds, of one. A list of `Word` takes sixteen bytes for each.
#[derive(Drop)]
pub struct WordList {
    numbers: Vec<u64>,
    /// True for each control word.
    controls: Vec<bool>,
}

impl Model for WordList {
    ghost use Rattle.std.specs.Prelude.{◌≡◌, List, length};
    ghost use Rattle.lk_base.specs.declared.word.Word.{Word};
    ghost use Rattle.word_list.specs.Parts.{words_of};

    ghost Value = { List Word };

    ghost view = { λ a. words_of a.numbers.items a.controls.items };

    ghost invariant = { λ a. length a.controls.items ≡ length a.numbers.items };
}

// Returns the word with this number, a control word if `control`.
fn word_of(number: u64, control: bool) -> Word
    ensures { result ≡ word_of number control }
{
    if control {
        Word::Control(number)
    } else {
        Word::Data(number)
    }
}

// Puts a number and a kind after the others. After `OutOfMemory` both lists are unchanged.
fn push_parts(
    numbers: &mut Vec<u64>,
    controls: &mut Vec<bool>,
    number: u64,
    control: bool,
) -> Result<(), OutOfMemory>
    ensures numbers { OnOk result (numbers.new.items ≡ numbers.old.items ++ number ∷ []) }
    ensures controls { OnOk result (controls.new.items ≡ controls.old.items ++ control ∷ []) }
    ensures err { OnErr result (numbers.new.items ≡ numbers.old.items) }
    ensures same { OnErr result (controls.new.items ≡ controls.old.items) }
{
    numbers.push(number)?;
    if controls.push(control).is_err() {
        numbers.pop();
        return Err(OutOfMemory);
    }
    Ok(())
}

// Puts the numbers and the kinds of these words after the others; there is room for them.
fn push_all(numbers: &mut Vec<u64>, controls: &mut Vec<bool>, words: &[Word])
    requires numbers { vec_len numbers.old + length words.now ≤ vec_capacity numbers.old }
    requires controls { vec_len controls.old + length words.now ≤ vec_capacity controls.old }
    ensures numbers { numbers.new.items ≡ numbers.old.items ++ map payload words.now }
    ensures controls { controls.new.items ≡ controls.old.items ++ map is_control words.now }
{
    for word in words {
        numbers.push_reserved(word.number());
        controls.push_reserved(word.is_control());
    }
}

// Puts these numbers after the others, and as many kinds of data words; there is room for them.
fn push_data(numbers: &mut Vec<u64>, controls: &mut Vec<bool>, more: &[u64])
    requires numbers { vec_len numbers.old + length more.now ≤ vec_capacity numbers.old }
    requires controls { vec_len controls.old + length more.now ≤ vec_capacity controls.old }
    ensures numbers { numbers.new.items ≡ numbers.old.items ++ more.now }
    ensures controls { controls.new.items ≡ controls.old.items ++ replicate (length more.now) false }
{
    let Ok(()) = numbers.extend_from_slice(more) else {
        unreachable!()
    };
    let Ok(()) = controls.resize(controls.len() + more.len(), false) else {
        unreachable!()
    };
}

// Copies the words of these numbers and kinds into the block, from number `first` on.
fn read_parts(numbers: &[u64], controls: &[bool], first: usize, block: &mut [Word])
    requires parts { length controls.now ≡ length numbers.now }
    requires there { first + length block.old ≤ length numbers.now }
    ensures { block.new ≡ take (length block.old) (drop first (words_of numbers.now controls.now)) }
{
    for place in 0..block.len() {
        block[place] = word_of(numbers[first + place], controls[first + place]);
    }
}

impl WordList {
    /// Creates an empty list, which takes its memory from this allocator.
    pub fn new(alloc: Global) -> WordList
        ensures { result ≡ [] }
    {
        WordList {
            numbers: Vec::new(alloc),
            controls: Vec::new(alloc),
        }
    }

    /// Puts a word after the others. After `OutOfMemory` the list is unchanged.
    ///
    /// # Errors
    ///
    /// `OutOfMemory` if memory ran out, and only then.
    pub fn push(&mut self, word: Word) -> Result<(), OutOfMemory>
        ensures ok { OnOk result (self.new ≡ self.old ++ word ∷ []) }
        ensures err { OnErr result (self.new ≡ self.old) }
    {
        push_parts(
            &mut self.numbers,
            &mut self.controls,
            word.number(),
            word.is_control(),
        )
    }

    /// Puts these words after the others, as a `push` of each would. After `OutOfMemory` the list is unchanged.
    ///
    /// # Errors
    ///
    /// `OutOfMemory` if memory ran out, and only then.
    pub fn extend(&mut self, words: &[Word]) -> Result<(), OutOfMemory>
        ensures ok { OnOk result (self.new ≡ self.old ++ words.now) }
        ensures err { OnErr result (self.new ≡ self.old) }
    {
        self.numbers.reserve(words.len())?;
        self.controls.reserve(words.len())?;
        push_all(&mut self.numbers, &mut self.controls, words);
        Ok(())
    }

    /// Puts data words of these numbers after the others, as a `push` of each would. After `OutOfMemory` the list is unchanged.
    ///
    /// # Errors
    ///
    /// `OutOfMemory` if memory ran out, and only then.
    pub fn extend_data(&mut self, numbers: &[u64]) -> Result<(), OutOfMemory>
        ensures ok { OnOk result (self.new ≡ self.old ++ map Data numbers.now) }
        ensures err { OnErr result (self.new ≡ self.old) }
    {
        self.numbers.reserve(numbers.len())?;
        self.controls.reserve(numbers.len())?;
        push_data(&mut self.numbers, &mut self.controls, numbers);
        Ok(())
    }

    /// Returns the number of its words, which is below 2^60.
    pub fn len(&self) -> usize
        ensures value { result ≡ length self.now }
        ensures few { length self.now < 2 ^ 60 }
    {
        self.numbers.as_slice().len()
    }

    /// True if it has no word.
    pub fn is_empty(&self) -> bool
        ensures { result ≡ (length self.now == 0) }
    {
        self.numbers.is_empty()
    }

    /// Returns the word number `i`, from 0.
    pub fn get(&self, i: usize) -> Word
        requires { i < length self.now }
        ensures { result ≡ word_at self.now i }
    {
        word_of(self.numbers[i], self.controls[i])
    }

    /// Copies the words from number `first` on into the block, as many as it has places.
    pub fn read(&self, first: usize, block: &mut [Word])
        requires { first + length block.old ≤ length self.now }
        ensures { block.new ≡ take (length block.old) (drop first self.now) }
    {
        read_parts(&self.numbers, &self.controls, first, block);
    }
}
