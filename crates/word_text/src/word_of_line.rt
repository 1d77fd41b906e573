ghost use Rattle.std.specs.Prelude.{◌≡◌, ◌<◌, ℕ, IfOk, MatchOption};
ghost use Rattle.control_words.specs.declared.fields.Control.{Control};
ghost use Rattle.control_words.specs.ControlWord.{IsWordOf};
ghost use Rattle.words_files.specs.declared.file_word.FileWord.{FileWord};
ghost use Rattle.word_text.specs.Read.{byte_at, end_at};
ghost use Rattle.word_text.specs.WordLines.{IsWordLine, IsSized, control_text};

use crate::cut::{after_equals, after_start, byte_at};
use crate::digits::number_of;
use crate::line_of_word::word_line;
use control_words::{Control, Eop, to_word};
use lk_base::OutOfMemory;
use words_files::FileWord;

// Reads how the data before a control word end, at the start of a text.
fn end_of(text: &[u8]) -> Eop
    ensures { result ≡ end_at (byte_at text.now 0) }
{
    match byte_at(text, 0) {
        b'e' => Eop::Error,
        byte => {
            if byte >= b'1' && byte <= b'8' {
                Eop::End(byte - b'0')
            } else {
                Eop::Going
            }
        }
    }
}

// Returns the control word whose fields a line can give.
fn control_of(line: &[u8]) -> u64
    ensures { (c : Control) (crc x : ℕ) → IsWordOf c crc x → line.now ≡ control_text c crc → result ≡ x }
{
    let sop = after_equals(line);
    let eop = after_equals(sop);
    let reset = after_equals(eop);
    let flow = after_equals(reset);
    let channel = after_equals(flow);
    let multi = after_equals(channel);
    let crc = after_equals(multi);
    let c = Control {
        burst: byte_at(line, 0) == b'b',
        sop: byte_at(sop, 0) == b'1',
        eop: end_of(eop),
        reset: byte_at(reset, 0) == b'1',
        flow: (number_of(flow, 16) % 0x1_0000) as u16,
        channel: (number_of(channel, 10) % 0x100) as u8,
        multi: (number_of(multi, 10) % 0x100) as u8,
    };
    to_word(c, (number_of(crc, 16) % 0x100_0000) as u32)
}

// Returns the one word that a line can be the line of. A line is `data X`, `control X` or `bad X`, with the number X in
// hexadecimal digits, or has the fields of a control word. The characters after the digits are not looked at: `word_of` spells
// the word again and compares.
fn candidate(line: &[u8]) -> FileWord
    ensures { (word : FileWord) → IsSized word → IsWordLine word line.now → result ≡ word }
{
    if let Some(digits) = after_start(line, b"data ") {
        return FileWord::Data(number_of(digits, 16));
    }
    if let Some(digits) = after_start(line, b"control ") {
        return FileWord::Control(number_of(digits, 16));
    }
    if let Some(digits) = after_start(line, b"bad ") {
        return FileWord::Bad(number_of(digits, 16));
    }
    FileWord::Control(control_of(line))
}

// Returns the word of which this is the line; `None` if it is the line of no word. A word is spelled in `spelled`.
pub fn word_of(spelled: &mut Vec<u8>, line: &[u8]) -> Result<Option<FileWord>, OutOfMemory>
    ensures { IfOk result (λ answer. MatchOption answer
        ((word : FileWord) → IsSized word → IsWordLine word line.now → ⊥)
        (λ word. IsSized word × IsWordLine word line.now)) }
{
    let word = candidate(line);
    word_line(spelled, word)?;
    if spelled.as_slice() == line {
        Ok(Some(word))
    } else {
        Ok(None)
    }
}
