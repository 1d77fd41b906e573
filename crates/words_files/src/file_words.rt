//! The words of an accepted file, which are read from its bytes one by one.
ghost use Rattle.std.specs.Prelude.{◌≡◌, ◌≤◌, ◌<◌, ◌+◌, ◌*◌, ◌/◌, ◌^◌, MatchResult, IfNone, Ok, Err, false, length, map, take, drop, slice_get, slice_index_or};
ghost use Rattle.std.specs.Result.{result_err};
ghost use Rattle.words_files.specs.FileWord.{is_data};
ghost use Rattle.words_files.specs.Tags.{file_words};
ghost use Rattle.words_files.specs.WordsOfFile.{cut_file, file_word_in};

use crate::error::WordsError;
use crate::file_word::FileWord;
use crate::format::WORD_BYTES;
use crate::reader::{first_refusal, word_in};
use crate::tags::Tags;
use lk_base::tail;
use std::marker::Model;

// Returns the refusal of a file with these tags, if it is refused.
fn refusal_of(tags: Tags, bytes: &[u8]) -> Option<WordsError>
    ensures refusal { result ≡ result_err (file_words tags bytes.now) }
    ensures whole { IfNone result (length bytes.now ≡ 9 * (length bytes.now / 9)) }
{
    let mut rest = bytes;
    let mut offset = 0;
    while !rest.is_empty() {
        if let Some(refusal) = first_refusal(tags, offset, rest) {
            return Some(refusal);
        }
        rest = tail(rest, WORD_BYTES);
        offset += WORD_BYTES as u64;
    }
    None
}

// Returns the bytes of the word of this number.
fn bytes_of_word(bytes: &[u8], index: usize) -> &[u8]
    requires { 9 * index + 9 ≤ length bytes.now }
    ensures { result.now ≡ take 9 (drop (9 * index) bytes.now) }
{
    let at = WORD_BYTES * index;
    &bytes[at..at + WORD_BYTES]
}

// Copies the numbers of the data words from word `from` on, at most `most`, stopping before the first other word. Returns how many.
fn copy_numbers(bytes: &[u8], from: usize, most: usize, numbers: &mut [u64]) -> usize
    requires there { 9 * (from + most) ≤ length bytes.now }
    requires room { most ≤ length numbers.old }
    ensures few { result ≤ most }
    ensures long { length numbers.new ≡ length numbers.old }
    ensures copied { map FileWord.Data (take result numbers.new) ≡ take result (drop from (map file_word_in (cut_file bytes.now))) }
    ensures stops { result < most → is_data (slice_index_or (map file_word_in (cut_file bytes.now)) (from + result) (FileWord.Bad 0)) ≡ false }
{
    for place in 0..most {
        match word_in(bytes_of_word(bytes, from + place)) {
            FileWord::Data(number) => numbers[place] = number,
            _ => return place,
        }
    }
    most
}

/// The words of an accepted file. Contracts see them; each is read from the bytes of the file when it is requested.
#[derive(Drop)]
pub struct FileWords {
    bytes: Vec<u8>,
    // The count of words.
    count: usize,
}

impl Model for FileWords {
    ghost use Rattle.std.specs.Prelude.{◌≡◌, ◌*◌, List, length, map};
    ghost use Rattle.words_files.specs.declared.file_word.FileWord.{FileWord};
    ghost use Rattle.words_files.specs.WordsOfFile.{cut_file, file_word_in};

    ghost Value = { List FileWord };

    ghost view = { λ f. map file_word_in (cut_file f.bytes.items) };

    ghost invariant = { λ f. length f.bytes.items ≡ 9 * f.count };
}

impl FileWords {
    /// Creates the words of a file with these tags.
    ///
    /// # Errors
    ///
    /// The refusal of the file, and nothing else.
    pub fn new(tags: Tags, bytes: Vec<u8>) -> Result<FileWords, WordsError>
        ensures { MatchResult result
            (λ words. file_words tags bytes.items ≡ Ok words)
            (λ refusal. file_words tags bytes.items ≡ Err refusal) }
    {
        match refusal_of(tags, &bytes) {
            Some(refusal) => Err(refusal),
            None => {
                let count = bytes.len() / WORD_BYTES;
                Ok(FileWords { bytes, count })
            }
        }
    }

    /// Returns the count of words, which is less than 2^60.
    pub fn len(&self) -> usize
        ensures value { result ≡ length self.now }
        ensures few { length self.now < 2 ^ 60 }
    {
        self.count
    }

    /// Returns the word of this number, from 0; `None` after the last word.
    pub fn get(&self, index: usize) -> Option<FileWord>
        ensures { result ≡ slice_get self.now index }
    {
        if index < self.count {
            Some(word_in(bytes_of_word(&self.bytes, index)))
        } else {
            None
        }
    }

    /// Copies the numbers of the data words from word `from` on, until another word, the end of the file or the end of `numbers`.
    /// Returns how many; the numbers after them may be anything. `from` is at most the number of words.
    pub fn copy_data(&self, from: usize, numbers: &mut [u64]) -> usize
        requires { from ≤ length self.now }
        ensures within { from + result ≤ length self.now }
        ensures fits { result ≤ length numbers.new }
        ensures long { length numbers.new ≡ length numbers.old }
        ensures copied { map FileWord.Data (take result numbers.new) ≡ take result (drop from self.now) }
        ensures stops { result < length numbers.new → from + result < length self.now → is_data (slice_index_or self.now (from + result) (FileWord.Bad 0)) ≡ false }
    {
        let most = numbers.len().min(self.count - from);
        copy_numbers(&self.bytes, from, most, numbers)
    }
}
