//! The text of the table of faults.
ghost use Rattle.std.specs.Prelude.{◌≡◌, [], ◌∷◌, Some, OnOk, IfOk, string_bytes};
ghost use Rattle.std.specs.Io.KnownBytes.{Appends};
ghost use Rattle.csv.specs.Writing.{text_written, row_text};
ghost use Rattle.csv_rows.specs.Written.{rows_text, rows_writer};
ghost use Rattle.link_reports.specs.Lines.{number_or_stroke};
ghost use Rattle.link_reports.specs.TableWriter.{IsBetweenRows};
ghost use Rattle.check_commands.specs.Table.{fault_fields, fault_rows, heading};

use csv::Writer;
use link_reports::{number_or_stroke, number_text, row_writer, write_row, written_rows};
use lk_base::OutOfMemory;
use std::alloc::{AllocError, Global};
use word_rules::Fault;

/// The heading, as it stands in the table.
pub fn heading() -> &'static [u8]
    ensures { result.now ≡ rows_text (heading ∷ []) }
{
    b"word,rule,channel\n"
}

// The channel of a fault, or a stroke.
fn channel_text(alloc: Global, channel: Option<u16>) -> Result<String, AllocError>
    ensures { IfOk result (λ text. string_bytes text ≡ number_or_stroke channel) }
{
    match channel {
        None => number_or_stroke(alloc, None),
        Some(number) => number_text(alloc, u64::from(number)),
    }
}

// Writes the row of a fault.
fn write_fault(
    alloc: Global,
    writer: &mut Writer<Vec<u8>>,
    fault: &Fault,
) -> Result<(), OutOfMemory>
    requires { IsBetweenRows writer.old }
    ensures between { OnOk result (IsBetweenRows writer.new) }
    ensures text { OnOk result (Appends (text_written (λ v. Some v.items) writer.old) (text_written (λ v. Some v.items) writer.new)
        (row_text rows_writer (fault_fields fault.now))) }
{
    let word = number_text(alloc, fault.word)?;
    let channel = channel_text(alloc, fault.channel)?;
    let fields = [
        word.as_bytes(),
        fault.rule.name().as_bytes(),
        channel.as_bytes(),
    ];
    write_row(writer, &fields)
}

/// The text of the rows of these faults, in order.
pub fn fault_rows(alloc: Global, faults: &[Fault]) -> Result<Vec<u8>, OutOfMemory>
    ensures { IfOk result (λ text. text.items ≡ fault_rows faults.now) }
{
    let mut writer = row_writer(alloc);
    for fault in faults {
        write_fault(alloc, &mut writer, fault)?;
    }
    written_rows(writer)
}
