//! The text of a flow file's rows.
ghost use Rattle.std.specs.Prelude.{◌≡◌, [], ◌∷◌, Some, OnOk, IfOk};
ghost use Rattle.std.specs.Fmt.{decimal};
ghost use Rattle.std.specs.Io.KnownBytes.{Appends};
ghost use Rattle.csv.specs.Writing.{text_written, row_text};
ghost use Rattle.link_reports.specs.TableWriter.{IsBetweenRows};
ghost use Rattle.oob_flow.specs.Reading.{rows_at};
ghost use Rattle.csv_rows.specs.Written.{rows_writer};
ghost use Rattle.oob_commands.specs.FlowFile.{flow_file};
ghost use Rattle.lk_base.specs.Hex.{hex};

use csv::Writer;
use link_reports::{number_text, row_writer, write_row, written_rows};
use lk_base::{OutOfMemory, put_hex};
use std::alloc::Global;

// A word in 16 digits.
fn word_text(alloc: Global, word: u64) -> Result<Vec<u8>, OutOfMemory>
    ensures { IfOk result (λ text. text.items ≡ hex 16 word) }
{
    let mut text = Vec::new(alloc);
    put_hex(&mut text, 16, word)?;
    Ok(text)
}

// Writes the row of a word.
fn write_word(
    alloc: Global,
    writer: &mut Writer<Vec<u8>>,
    slot: u64,
    word: u64,
) -> Result<(), OutOfMemory>
    requires { IsBetweenRows writer.old }
    ensures between { OnOk result (IsBetweenRows writer.new) }
    ensures text { OnOk result (Appends (text_written (λ v. Some v.items) writer.old) (text_written (λ v. Some v.items) writer.new)
        (row_text rows_writer (decimal slot ∷ hex 16 word ∷ []))) }
{
    let slot = number_text(alloc, slot)?;
    let word = word_text(alloc, word)?;
    let fields = [slot.as_bytes(), word.as_slice()];
    write_row(writer, &fields)
}

/// The text of a row of this slot for each word.
pub fn rows_text(alloc: Global, slot: u64, words: &[u64]) -> Result<Vec<u8>, OutOfMemory>
    ensures { IfOk result (λ text. text.items ≡ flow_file (rows_at slot words.now)) }
{
    let mut writer = row_writer(alloc);
    for word in words {
        write_word(alloc, &mut writer, slot, *word)?;
    }
    written_rows(writer)
}
