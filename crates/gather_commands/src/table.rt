//! The text of the table of places.
ghost use Rattle.std.specs.Prelude.{◌≡◌, [], ◌∷◌, Some, OnOk, IfOk};
ghost use Rattle.std.specs.Io.KnownBytes.{Appends};
ghost use Rattle.csv.specs.Writing.{text_written, row_text};
ghost use Rattle.csv_rows.specs.Written.{rows_text, rows_writer};
ghost use Rattle.link_reports.specs.TableWriter.{IsBetweenRows};
ghost use Rattle.gather_commands.specs.Table.{heading, place_fields, place_rows, why_or_stroke};

use csv::Writer;
use lane_words::PlaceRow;
use link_reports::{number_text, row_writer, why_name, write_row, written_rows};
use lk_base::{OutOfMemory, Why};
use std::alloc::Global;

/// The heading, as it stands in the table.
pub fn heading() -> &'static [u8]
    ensures { result.now ≡ rows_text (heading ∷ []) }
{
    b"word,group,index,why\n"
}

// Why an epoch ended, or a stroke for a group.
fn why_text(why: Option<Why>) -> &'static [u8]
    ensures { result.now ≡ why_or_stroke why }
{
    match why {
        None => b"-",
        Some(why) => why_name(why),
    }
}

// Writes a row of the table.
fn write_place(
    alloc: Global,
    writer: &mut Writer<Vec<u8>>,
    row: &PlaceRow,
) -> Result<(), OutOfMemory>
    requires { IsBetweenRows writer.old }
    ensures between { OnOk result (IsBetweenRows writer.new) }
    ensures text { OnOk result (Appends (text_written (λ v. Some v.items) writer.old) (text_written (λ v. Some v.items) writer.new)
        (row_text rows_writer (place_fields row.now))) }
{
    let word = number_text(alloc, row.word)?;
    let group = number_text(alloc, row.at.group)?;
    let index = number_text(alloc, u64::from(row.at.index))?;
    let fields = [
        word.as_bytes(),
        group.as_bytes(),
        index.as_bytes(),
        why_text(row.why),
    ];
    write_row(writer, &fields)
}

/// The text of a row.
pub fn row_bytes(alloc: Global, row: &PlaceRow) -> Result<Vec<u8>, OutOfMemory>
    ensures { IfOk result (λ text. text.items ≡ place_rows (row.now ∷ [])) }
{
    let mut writer = row_writer(alloc);
    write_place(alloc, &mut writer, row)?;
    written_rows(writer)
}
