//! The lines of a run that ends without its outcome.
ghost use Rattle.std.specs.Prelude.{◌≡◌, ◌++◌, OnOk, OnErr, IfOk, string_bytes};
ghost use Rattle.run_stops.specs.Lines.{usage_line, memory_line};
ghost use Rattle.run_stops.specs.Stops.{stop_text};

use crate::stop::Stop;
use lk_base::OutOfMemory;
use std::alloc::{AllocError, Global};

/// Returns the line that says that memory ran out. It needs no memory.
pub fn memory_line() -> &'static [u8]
    ensures { result.now ≡ memory_line }
{
    b"out of memory\n"
}

/// Appends the line that says how the program is called. `out` is as before if memory runs out.
pub fn usage_line(out: &mut Vec<u8>) -> Result<(), OutOfMemory>
    ensures ok { OnOk result (out.new.items ≡ out.old.items ++ usage_line) }
    ensures err { OnErr result (out.new.items ≡ out.old.items) }
{
    out.extend_from_slice(
        b"usage: interlaken COMMAND FILE, or interlaken generate NUMBER PREFIX\n",
    )?;
    Ok(())
}

// Makes the line of a stop.
#[tactic(auto, using(crate::proofs::StopLine::words_line))]
fn line_of(alloc: Global, stop: &Stop) -> Result<String, AllocError>
    ensures { IfOk result (λ text. string_bytes text ≡ stop_text stop.now) }
{
    format!(in alloc; "{stop}\n")
}

// why: stop_line takes every stop, also those that no reader returns.
/// Appends the line of what stopped a command, the text that `Display` writes and a line end. `out` is as before if memory runs
/// out.
pub fn stop_line(alloc: Global, out: &mut Vec<u8>, stop: &Stop) -> Result<(), OutOfMemory>
    ensures ok { OnOk result (out.new.items ≡ out.old.items ++ stop_text stop.now) }
    ensures err { OnErr result (out.new.items ≡ out.old.items) }
{
    let line = line_of(alloc, stop)?;
    out.extend_from_slice(line.as_bytes())?;
    Ok(())
}
