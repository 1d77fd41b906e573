//! An accepted words file, whose words are read from its bytes one by one.
ghost use Rattle.std.specs.Prelude.{◌≡◌, ◌≤◌, ◌<◌, ◌+◌, MatchResult, Ok, Err, false, length, map, take, drop, slice_get, slice_index_or};
ghost use Rattle.words_files.specs.FileWord.{is_received_data};
ghost use Rattle.words_files.specs.WordsOfFile.{words_of_file};

use crate::error::WordsError;
use crate::file_words::FileWords;
use crate::tags::Tags;
use lk_base::RxWord;
use std::marker::Model;

/// An accepted words file. Contracts see its words; each is read from the bytes of the file when it is requested.
#[derive(Drop)]
pub struct WordsFile {
    words: FileWords,
}

impl Model for WordsFile {
    ghost use Rattle.std.specs.Prelude.{List, map};
    ghost use Rattle.lk_base.specs.declared.word.RxWord.{RxWord};
    ghost use Rattle.words_files.specs.FileWord.{received_of};

    ghost Value = { List RxWord };

    ghost view = { λ f. map received_of f.words };
}

impl WordsFile {
    /// Creates the words file of these bytes, nine for each word: 1 if it is data, 2 if it is control and 3 if it is bad, and then its
    /// number, the highest byte first. The number of a bad word is ignored. The file is refused for the least offset at which
    /// something is wrong: a byte that should be 1, 2 or 3 and is not, or otherwise a last word that is not whole.
    ///
    /// # Errors
    ///
    /// The refusal of the file, and nothing else.
    pub fn new(bytes: Vec<u8>) -> Result<WordsFile, WordsError>
        ensures { MatchResult result
            (λ words. words_of_file bytes.items ≡ Ok words)
            (λ refusal. words_of_file bytes.items ≡ Err refusal) }
    {
        match FileWords::new(Tags::Received, bytes) {
            Ok(words) => Ok(WordsFile { words }),
            Err(refusal) => Err(refusal),
        }
    }

    /// Returns the count of words.
    pub fn len(&self) -> usize
        ensures { result ≡ length self.now }
    {
        self.words.len()
    }

    /// Returns the word of this number, from 0; `None` after the last word.
    pub fn get(&self, index: usize) -> Option<RxWord>
        ensures { result ≡ slice_get self.now index }
    {
        match self.words.get(index) {
            Some(word) => Some(RxWord::from(word)),
            None => None,
        }
    }

    /// Copies the numbers of the data words from word `from` on, until another word, the end of the file or the end of `numbers`.
    /// Returns how many; the numbers after them may be anything. `from` is at most the number of words.
    pub fn copy_data(&self, from: usize, numbers: &mut [u64]) -> usize
        requires { from ≤ length self.now }
        ensures within { from + result ≤ length self.now }
        ensures fits { result ≤ length numbers.new }
        ensures long { length numbers.new ≡ length numbers.old }
        ensures copied { map RxWord.Data (take result numbers.new) ≡ take result (drop from self.now) }
        ensures stops { result < length numbers.new → from + result < length self.now → is_received_data (slice_index_or self.now (from + result) RxWord.Bad) ≡ false }
    {
        self.words.copy_data(from, numbers)
    }
}
