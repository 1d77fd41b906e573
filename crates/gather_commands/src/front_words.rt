//! The bytes of the words that wait in a front.
ghost use Rattle.std.specs.Prelude.{◌≡◌, ◌≤◌, ◌<◌, ◌+◌, ◌*◌, ◌++◌, OnErr, OnOk, drop, length, map, take};
ghost use Rattle.lk_base.specs.declared.word.Word.TheVariants.{Data};
ghost use Rattle.lane_words.specs.WordsFile.{rx_words_file};
ghost use Rattle.rx_front.specs.Waiting.{words_in};
ghost use Rattle.words_files.specs.WordsFile.{words_file};

use lk_base::OutOfMemory;
use rx_front::Front;
use words_files::{FileWord, WORD_BYTES, write_data, write_word};

// Writes data words of these numbers from byte `at` on. The bytes before stay.
fn write_run(bytes: &mut [u8], at: usize, numbers: &[u64])
    requires { at + 9 * length numbers.now ≤ length bytes.old }
    ensures long { length bytes.new ≡ length bytes.old }
    ensures put { take (at + 9 * length numbers.now) bytes.new ≡ take at bytes.old ++ words_file (map Data numbers.now) }
{
    write_data(&mut bytes[at..], numbers);
}

// Writes the bytes of the words that wait from number `at` on: of a run of data words, or of one other word. The bytes before stay.
// Returns how many words these are.
fn write_next(bytes: &mut [u8], front: &Front, at: usize) -> usize
    requires there { at < length front.now.waiting }
    requires room { length bytes.old ≡ 9 * length front.now.waiting }
    ensures some { 1 ≤ result }
    ensures within { at + result ≤ length front.now.waiting }
    ensures long { length bytes.new ≡ length bytes.old }
    ensures put { take (9 * (at + result)) bytes.new ≡ take (9 * at) bytes.old ++ rx_words_file (take result (drop at (words_in front.now.waiting))) }
{
    // proof: as many words wait as items
    front.at();
    let run = front.data_run(at);
    if run.is_empty() {
        write_word(bytes, WORD_BYTES * at, FileWord::from(front.word(at)));
        return 1;
    }
    write_run(bytes, WORD_BYTES * at, run);
    run.len()
}

// Writes the bytes of the words that wait, for which there is exactly room.
fn write_front(bytes: &mut [u8], front: &Front)
    requires { length bytes.old ≡ 9 * length front.now.waiting }
    ensures { bytes.new ≡ rx_words_file (words_in front.now.waiting) }
{
    // proof: as many words wait as items
    front.at();
    let count = front.len();
    let mut at = 0;
    while at < count {
        at += write_next(bytes, front, at);
    }
}

/// Makes the bytes in a words file of the words that wait in the front, in place of what `bytes` holds. Takes memory only if `bytes`
/// never held as many.
///
/// # Errors
///
/// `OutOfMemory` if memory ran out, and nothing else. `bytes` is then unchanged.
pub fn front_bytes(bytes: &mut Vec<u8>, front: &Front) -> Result<(), OutOfMemory>
    ensures file { OnOk result (bytes.new.items ≡ rx_words_file (words_in front.now.waiting)) }
    ensures err { OnErr result (bytes.new.items ≡ bytes.old.items) }
{
    bytes.resize(WORD_BYTES * front.len(), 0)?;
    write_front(bytes, front);
    Ok(())
}
