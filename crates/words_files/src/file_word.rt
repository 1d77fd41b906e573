//! A word as it stands in a words file.
ghost use Rattle.std.specs.Prelude.{◌≡◌};
ghost use Rattle.words_files.specs.FileWord.{file_number, file_tag, received_in_file, received_of, sent_in_file, sent_of};

use crate::format::{BAD_TAG, CONTROL_TAG, DATA_TAG};
use lk_base::{RxWord, Word};

// why: A word in nine bytes is a words_files::FileWord, which keeps the number of a bad word. One reader and one writer serve
// words files, listings and gathered words. Received and sent words are made of it (received_of, sent_of). So WordsFile
// and SentFile are two views of one type, both in words_files. A change of that crate has most commands proved again, but
// this form is done. No call reads a file into a list, since no program did.
// why: A listing has the payload of a bad word, which received words forget. So listings have a type of words of their own,
// FileWord, with one word for each nine bytes.
/// A word as it stands in a words file. A bad word keeps its number.
#[derive(Clone, Copy, Debug, PartialEq, Eq)]
pub enum FileWord {
    /// A data word.
    Data(u64),
    /// A word sent as a control word, whether or not its number is one.
    Control(u64),
    /// A word that was received with a header of neither kind.
    Bad(u64),
}

impl FileWord {
    /// Returns the first byte of the word: 1 for data, 2 for control, 3 for a bad word.
    pub fn tag(self) -> u8
        ensures { result ≡ file_tag self }
    {
        match self {
            FileWord::Data(_) => DATA_TAG,
            FileWord::Control(_) => CONTROL_TAG,
            FileWord::Bad(_) => BAD_TAG,
        }
    }

    /// Returns the number in the eight other bytes.
    pub fn number(self) -> u64
        ensures { result ≡ file_number self }
    {
        match self {
            FileWord::Data(number) => number,
            FileWord::Control(number) => number,
            FileWord::Bad(number) => number,
        }
    }

    /// Returns the word as a sent one. A bad word, which no file of sent words has, counts as control.
    pub fn sent(self) -> Word
        ensures { result ≡ sent_of self }
    {
        match self {
            FileWord::Data(number) => Word::Data(number),
            FileWord::Control(number) => Word::Control(number),
            FileWord::Bad(number) => Word::Control(number),
        }
    }
}

impl From<FileWord> for RxWord {
    /// Returns the word as a received one: the number of a bad word is ignored.
    fn from(word: FileWord) -> RxWord
        ensures { result ≡ received_of word }
    {
        match word {
            FileWord::Data(number) => RxWord::Data(number),
            FileWord::Control(number) => RxWord::Control(number),
            FileWord::Bad(_) => RxWord::Bad,
        }
    }
}

impl From<RxWord> for FileWord {
    /// Returns a received word as it stands in a words file. The number of a bad word is 0.
    fn from(word: RxWord) -> FileWord
        ensures { result ≡ received_in_file word }
    {
        match word {
            RxWord::Data(number) => FileWord::Data(number),
            RxWord::Control(number) => FileWord::Control(number),
            RxWord::Bad => FileWord::Bad(0),
        }
    }
}

impl From<Word> for FileWord {
    /// Returns a sent word as it stands in a words file.
    fn from(word: Word) -> FileWord
        ensures { result ≡ sent_in_file word }
    {
        match word {
            Word::Data(number) => FileWord::Data(number),
            Word::Control(number) => FileWord::Control(number),
        }
    }
}
