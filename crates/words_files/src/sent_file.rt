//! An accepted words file whose words were all sent.
ghost use Rattle.std.specs.Prelude.{◌≡◌, ◌<◌, ◌^◌, MatchResult, Ok, Err, length, slice_get};
ghost use Rattle.words_files.specs.WordsOfFile.{sent_words_of_file};

use crate::error::WordsError;
use crate::file_words::FileWords;
use crate::tags::Tags;
use lk_base::Word;
use std::marker::Model;

/// An accepted words file whose words were all sent. Contracts see its words; each is read from the bytes of the file when it is
/// requested.
#[derive(Drop)]
pub struct SentFile {
    words: FileWords,
}

impl Model for SentFile {
    ghost use Rattle.std.specs.Prelude.{List, map};
    ghost use Rattle.lk_base.specs.declared.word.Word.{Word};
    ghost use Rattle.words_files.specs.FileWord.{sent_of};

    ghost Value = { List Word };

    ghost view = { λ f. map sent_of f.words };
}

impl SentFile {
    /// Creates the words file of these bytes, nine for each word: 1 if it is data and 2 if it is control, and then its number, the
    /// highest byte first. It is refused for the least offset at which something is wrong: a byte that should be 1 or 2 and is
    /// not, or otherwise a last word that is not whole.
    ///
    /// # Errors
    ///
    /// The refusal of the file, and nothing else.
    pub fn new(bytes: Vec<u8>) -> Result<SentFile, WordsError>
        ensures { MatchResult result
            (λ words. sent_words_of_file bytes.items ≡ Ok words)
            (λ refusal. sent_words_of_file bytes.items ≡ Err refusal) }
    {
        match FileWords::new(Tags::Sent, bytes) {
            Ok(words) => Ok(SentFile { words }),
            Err(refusal) => Err(refusal),
        }
    }

    /// Returns the count of words, which is less than 2^60.
    pub fn len(&self) -> usize
        ensures value { result ≡ length self.now }
        ensures few { length self.now < 2 ^ 60 }
    {
        self.words.len()
    }

    /// Returns the word of this number, from 0; `None` after the last word.
    pub fn get(&self, index: usize) -> Option<Word>
        ensures { result ≡ slice_get self.now index }
    {
        match self.words.get(index) {
            Some(word) => Some(word.sent()),
            None => None,
        }
    }
}
