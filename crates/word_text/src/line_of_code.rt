ghost use Rattle.std.specs.Prelude.{◌≡◌, ◌<◌, ◌/◌, ◌%◌, ◌^◌, ◌==◌, true, OnOk};
ghost use Rattle.lane_model.specs.Coding.{header_in, payload_in};
ghost use Rattle.word_text.specs.Digits.{bit_text};
ghost use Rattle.word_text.specs.CodeLines.{inversion_in, IsSync, IsState, sync_text, state_text, other_text, IsCodeLine};

use crate::digits::{bit_text, put, put_bit, put_digits};
use coding_67b::{header_of, inversion_of, payload_of};
use lane_model::{SCRAMBLER_STATE, SYNC};
use lk_base::OutOfMemory;

// The header of a control word, 10.
pub const CONTROL: u8 = 2;

// The bits of the state in the payload of a Scrambler State word: its lowest. The bits above them are the mark of that word.
pub const STATE_BITS: u32 = 58;

// True if a code is that of a Sync word, by which a receiver finds the metaframe.
fn is_sync(code: u128) -> bool
    requires { code < 2 ^ 67 }
    ensures is { result ≡ true → IsSync code }
    ensures only { IsSync code → result ≡ true }
{
    header_of(code) == CONTROL && payload_of(code) == SYNC
}

// True if a code is that of a Scrambler State word, which has the mark and carries the state of the key.
fn is_state(code: u128) -> bool
    requires { code < 2 ^ 67 }
    ensures is { result ≡ true → IsState code }
    ensures only { IsState code → result ≡ true }
{
    header_of(code) == CONTROL && payload_of(code) >> STATE_BITS == SCRAMBLER_STATE >> STATE_BITS
}

// Writes the line of a Sync word to `line`, in place of what was in it.
fn sync_line(line: &mut Vec<u8>, inverted: bool) -> Result<(), OutOfMemory>
    ensures { OnOk result (line.new.items ≡ sync_text inverted) }
{
    line.clear();
    put_bit(line, b"sync ", inverted)
}

// Writes the line of a Scrambler State word to `line`, in place of what was in it.
fn state_line(line: &mut Vec<u8>, inverted: bool, state: u64) -> Result<(), OutOfMemory>
    ensures { OnOk result (line.new.items ≡ state_text inverted state) }
{
    line.clear();
    put_bit(line, b"state ", inverted)?;
    put_digits(line, b" ", 15, state)
}

// Writes the line of any other code to `line`, in place of what was in it.
fn other_line(
    line: &mut Vec<u8>,
    inverted: bool,
    header: u8,
    payload: u64,
) -> Result<(), OutOfMemory>
    requires { header < 4 }
    ensures { OnOk result (line.new.items ≡ other_text inverted header payload) }
{
    line.clear();
    put_bit(line, b"code ", inverted)?;
    put_bit(line, b" ", header / 2 == 1)?;
    put(line, bit_text(header % 2 == 1))?;
    put_digits(line, b" ", 16, payload)
}

// Writes the line of a code to `line`, in place of what was in it.
pub fn code_line(line: &mut Vec<u8>, code: u128) -> Result<(), OutOfMemory>
    requires { code < 2 ^ 67 }
    ensures { OnOk result (IsCodeLine code line.new.items) }
{
    let inverted = inversion_of(code);
    let header = header_of(code);
    let payload = payload_of(code);
    if is_sync(code) {
        return sync_line(line, inverted);
    }
    if is_state(code) {
        return state_line(line, inverted, payload % (1 << STATE_BITS));
    }
    other_line(line, inverted, header, payload)
}
