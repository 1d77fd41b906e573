//! Rows of csv that are written into memory.
ghost use Rattle.std.specs.Prelude.{◌≡◌, [], Some, OnOk, IfOk, map};
ghost use Rattle.std.specs.Io.KnownBytes.{Appends};
ghost use Rattle.csv.specs.Writing.{text_written, row_text};
ghost use Rattle.link_reports.specs.TableWriter.{table_setup, IsBetweenRows};

use csv::{Writer, WriterBuilder};
use lk_base::OutOfMemory;
use std::alloc::Global;

// Returns why a writer into memory fails: memory ran out.
fn no_memory<E: Drop>(_: E) -> OutOfMemory {
    OutOfMemory
}

/// Creates a writer of rows into memory, which has written none: `csv` with its defaults, but for rows of any length.
pub fn row_writer(alloc: Global) -> Writer<Vec<u8>>
    ensures between { IsBetweenRows result }
    ensures text { text_written (λ v. Some v.items) result ≡ Some [] }
{
    WriterBuilder::new()
        .flexible(true)
        .from_writer(Vec::new(alloc))
}

/// Writes a row of these fields, with commas between, and ends it with a line feed.
///
/// # Errors
///
/// `OutOfMemory`, after which the writer is of no more use.
pub fn write_row(writer: &mut Writer<Vec<u8>>, fields: &[&[u8]]) -> Result<(), OutOfMemory>
    requires { IsBetweenRows writer.old }
    ensures between { OnOk result (IsBetweenRows writer.new) }
    ensures text { OnOk result (Appends (text_written (λ v. Some v.items) writer.old) (text_written (λ v. Some v.items) writer.new)
        (row_text table_setup (map (λ f. f.now) fields.now))) }
{
    writer.write_fields(fields).map_err(no_memory)
}

/// Returns the text of the rows that were written.
///
/// # Errors
///
/// `OutOfMemory` if memory ran out.
pub fn written_rows(writer: Writer<Vec<u8>>) -> Result<Vec<u8>, OutOfMemory>
    ensures { IfOk result (λ text. text_written (λ v. Some v.items) writer ≡ Some text.items) }
{
    writer.into_inner().map_err(no_memory)
}
