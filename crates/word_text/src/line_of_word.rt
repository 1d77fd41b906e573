ghost use Rattle.std.specs.Prelude.{◌≡◌, ◌<◌, ◌≤◌, ◌++◌, OnOk};
ghost use Rattle.std.specs.Fmt.{decimal};
ghost use Rattle.word_text.specs.Digits.{bit_text};
ghost use Rattle.lk_base.specs.Hex.{hex};
ghost use Rattle.word_text.specs.WordLines.{kind_text, end_text, control_text, IsWordLine, IsControlLine};

use crate::digits::{put, put_bit, put_decimal, put_digits};
use control_words::{Control, ControlWord, Eop};
use lk_base::OutOfMemory;
use words_files::FileWord;

// Returns the name of a control word.
fn kind_text(burst: bool) -> &'static [u8]
    ensures { result.now ≡ kind_text burst }
{
    if burst { b"burst" } else { b"idle" }
}

// Appends to a line how the data before a control word end.
fn put_end(line: &mut Vec<u8>, eop: Eop) -> Result<(), OutOfMemory>
    ensures { OnOk result (line.new.items ≡ line.old.items ++ end_text eop) }
{
    match eop {
        Eop::Going => put(line, b"none"),
        Eop::Error => put(line, b"error"),
        Eop::End(bytes) => put_decimal(line, bytes),
    }
}

// Appends a name and a decimal number to a line.
fn put_number(line: &mut Vec<u8>, name: &[u8], n: u8) -> Result<(), OutOfMemory>
    ensures { OnOk result (line.new.items ≡ line.old.items ++ (name.now ++ decimal n)) }
{
    put(line, name)?;
    put_decimal(line, n)
}

// Writes the line of a control word, by its fields, to `line`, in place of what was in it.
fn fields_line(line: &mut Vec<u8>, c: Control, crc: u32) -> Result<(), OutOfMemory>
    ensures { OnOk result (line.new.items ≡ control_text c crc) }
{
    line.clear();
    put(line, kind_text(c.burst))?;
    put_bit(line, b" sop=", c.sop)?;
    put(line, b" eop=")?;
    put_end(line, c.eop)?;
    put_bit(line, b" reset=", c.reset)?;
    put_digits(line, b" flow=", 4, c.flow as u64)?;
    put_number(line, b" channel=", c.channel)?;
    put_number(line, b" multi=", c.multi)?;
    put_digits(line, b" crc=", 6, crc as u64)
}

// Writes a name and the 16 digits of a number to `line`, in place of what was in it.
fn number_line(line: &mut Vec<u8>, name: &[u8], x: u64) -> Result<(), OutOfMemory>
    ensures { OnOk result (line.new.items ≡ name.now ++ hex 16 x) }
{
    line.clear();
    put_digits(line, name, 16, x)
}

// Writes the line of a number sent as a control word to `line`, in place of what was in it.
fn control_line(line: &mut Vec<u8>, x: u64) -> Result<(), OutOfMemory>
    ensures { OnOk result (IsControlLine x line.new.items) }
{
    match ControlWord(x).control() {
        Ok(c) => fields_line(line, c, ControlWord(x).crc()),
        Err(_) => number_line(line, b"control ", x),
    }
}

// Writes the line of a word to `line`, in place of what was in it.
pub fn word_line(line: &mut Vec<u8>, word: FileWord) -> Result<(), OutOfMemory>
    ensures { OnOk result (IsWordLine word line.new.items) }
{
    match word {
        FileWord::Data(x) => number_line(line, b"data ", x),
        FileWord::Control(x) => control_line(line, x),
        FileWord::Bad(x) => number_line(line, b"bad ", x),
    }
}
