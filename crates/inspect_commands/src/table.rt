//! The text of the table of events.
ghost use Rattle.std.specs.Prelude.{◌≡◌, [], ◌∷◌, Some, OnOk, IfOk};
ghost use Rattle.std.specs.Io.KnownBytes.{Appends};
ghost use Rattle.csv.specs.Writing.{text_written, row_text};
ghost use Rattle.csv_rows.specs.Written.{rows_text, rows_writer};
ghost use Rattle.link_reports.specs.TableWriter.{IsBetweenRows};
ghost use Rattle.inspect_commands.specs.Table.{event_fields, event_rows, heading};

use csv::Writer;
use lane_events::LaneEvent;
use link_reports::{number_text, row_writer, write_row, written_rows};
use lk_base::OutOfMemory;
use std::alloc::Global;

/// The heading, as it stands in the table.
pub fn heading() -> &'static [u8]
    ensures { result.now ≡ rows_text (heading ∷ []) }
{
    b"lane,bit,event\n"
}

// Writes the row of an event of the lane of this number.
fn write_event(
    alloc: Global,
    writer: &mut Writer<Vec<u8>>,
    lane: u32,
    event: &LaneEvent,
) -> Result<(), OutOfMemory>
    requires { IsBetweenRows writer.old }
    ensures between { OnOk result (IsBetweenRows writer.new) }
    ensures text { OnOk result (Appends (text_written (λ v. Some v.items) writer.old) (text_written (λ v. Some v.items) writer.new)
        (row_text rows_writer (event_fields lane event.now))) }
{
    let number = number_text(alloc, lane as u64)?;
    let bit = number_text(alloc, event.bit)?;
    let fields = [
        number.as_bytes(),
        bit.as_bytes(),
        event.kind.name().as_bytes(),
    ];
    write_row(writer, &fields)
}

/// The text of the rows of these events of the lane of this number, in order.
pub fn event_rows(alloc: Global, lane: u32, events: &[LaneEvent]) -> Result<Vec<u8>, OutOfMemory>
    ensures { IfOk result (λ text. text.items ≡ event_rows lane events.now) }
{
    let mut writer = row_writer(alloc);
    for event in events {
        write_event(alloc, &mut writer, lane, event)?;
    }
    written_rows(writer)
}
