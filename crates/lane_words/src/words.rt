//! The bytes of words as they were received, nine for each.
ghost use Rattle.std.specs.Prelude.{◌≡◌, ◌≤◌, ◌*◌, OnErr, OnOk, length, take};
ghost use Rattle.lane_words.specs.WordsFile.{rx_words_file};

use lk_base::{OutOfMemory, RxWord};
use words_files::{FileWord, WORD_BYTES, write_word};

// Writes the bytes of these words to the first places.
fn write_words(bytes: &mut [u8], words: &[RxWord])
    requires { 9 * length words.now ≤ length bytes.old }
    ensures file { take (9 * length words.now) bytes.new ≡ rx_words_file words.now }
    ensures long { length bytes.new ≡ length bytes.old }
{
    for place in 0..words.len() {
        write_word(bytes, WORD_BYTES * place, FileWord::from(words[place]));
    }
}

/// Makes the bytes of these words in a words file, in place of what `bytes` holds. Takes memory only if `bytes` never held as many.
///
/// # Errors
///
/// `OutOfMemory` if memory ran out, and nothing else. `bytes` is then unchanged.
pub fn words_bytes(bytes: &mut Vec<u8>, words: &[RxWord]) -> Result<(), OutOfMemory>
    ensures file { OnOk result (bytes.new.items ≡ rx_words_file words.now) }
    ensures err { OnErr result (bytes.new.items ≡ bytes.old.items) }
{
    bytes.resize(WORD_BYTES * words.len(), 0)?;
    write_words(bytes, words);
    Ok(())
}
