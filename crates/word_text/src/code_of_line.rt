ghost use Rattle.std.specs.Prelude.{◌≡◌, ◌<◌, ◌+◌, ◌*◌, ◌^◌, ◌==◌, ℕ, IfOk, MatchOption};
ghost use Rattle.lk_base.specs.Checksum.{digit};
ghost use Rattle.word_text.specs.Read.{byte_at};
ghost use Rattle.word_text.specs.CodeLines.{IsCodeLine};

use crate::cut::{after, after_start, byte_at};
use crate::digits::number_of;
use crate::line_of_code::{CONTROL, STATE_BITS, code_line};
use coding_67b::code_with;
use lane_model::{SCRAMBLER_STATE, SYNC};
use lk_base::OutOfMemory;

// True if the character at a place is that of the bit 1.
fn is_one(text: &[u8], place: usize) -> bool
    ensures { result ≡ (byte_at text.now place == 49) }
{
    byte_at(text, place) == b'1'
}

// Returns the header that the first two characters give.
fn header_at(text: &[u8]) -> u8
    ensures value { result ≡ 2 * digit (byte_at text.now 0 == 49) + digit (byte_at text.now 1 == 49) }
    ensures below { result < 4 }
{
    2 * is_one(text, 0) as u8 + is_one(text, 1) as u8
}

// Returns the one code that a line can be the line of. A line is `sync I`, `state I S` or `code I HH P`, with the inversion I,
// the header HH, and the state S or the payload P in hexadecimal digits. The characters between them are not looked at: `code_of`
// spells the code again and compares.
fn code_candidate(line: &[u8]) -> u128
    ensures below { result < 2 ^ 67 }
    ensures only { (code : ℕ) → code < 2 ^ 67 → IsCodeLine code line.now → result ≡ code }
{
    if let Some(fields) = after_start(line, b"sync ") {
        return code_with(is_one(fields, 0), CONTROL, SYNC);
    }
    if let Some(fields) = after_start(line, b"state ") {
        let state = number_of(after(fields, 2), 16) % (1 << STATE_BITS);
        return code_with(is_one(fields, 0), CONTROL, SCRAMBLER_STATE + state);
    }
    // after "code "
    let fields = after(line, 5);
    let header = header_at(after(fields, 2));
    let payload = number_of(after(fields, 5), 16);
    code_with(is_one(fields, 0), header, payload)
}

// Returns the code of which this is the line; `None` if it is the line of no code. A code is spelled in `spelled`.
pub fn code_of(spelled: &mut Vec<u8>, line: &[u8]) -> Result<Option<u128>, OutOfMemory>
    ensures { IfOk result (λ answer. MatchOption answer
        ((code : ℕ) → code < 2 ^ 67 → IsCodeLine code line.now → ⊥)
        (λ code. (code < 2 ^ 67) × IsCodeLine code line.now)) }
{
    let code = code_candidate(line);
    code_line(spelled, code)?;
    if spelled.as_slice() == line {
        Ok(Some(code))
    } else {
        Ok(None)
    }
}
