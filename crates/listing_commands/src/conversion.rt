//! One file becomes another.
ghost use Rattle.std.specs.Prelude.{◌≡◌, ◌<◌, ◌^◌, ◌++◌, [], ◌∷◌, IfOk, string_bytes};
ghost use Rattle.run_stops.specs.Stops.{StopCount};
ghost use Rattle.run_shell.specs.Writing.{Writes};
ghost use Rattle.link_reports.specs.Lines.{count_line};
ghost use Rattle.listing_commands.specs.Conversion.{made_outcome};

use link_reports::count_line;
use lk_base::OutOfMemory;
use lk_outside::Store;
use run_shell::{Finished, deliver};
use run_stops::Stop;
use std::alloc::{AllocError, Global};

/// What was made of the bytes of a file.
#[derive(Drop)]
pub struct MadeFile {
    /// The bytes of the file that is created.
    pub content: Vec<u8>,
    /// How many of what is counted it has.
    pub count: u64,
}

// The name of the file that is created.
fn created_name(alloc: Global, file: &str, ending: &str) -> Result<String, AllocError>
    ensures { IfOk result (λ s. string_bytes s ≡ file.now ++ ending.now) }
{
    format!(in alloc; "{file}{ending}")
}

// The line that counts what was made.
fn counted_line(alloc: Global, counted: &str, count: u64) -> Result<Vec<u8>, OutOfMemory>
    ensures { IfOk result (λ line. line.items ≡ count_line counted.now count) }
{
    let mut line = Vec::new(alloc);
    count_line(alloc, &mut line, counted, count)?;
    Ok(line)
}

/// Creates the file whose name is that of another with this ending after it, fills it with what was made, and counts that in
/// one line.
pub fn write_made<S: Store>(
    alloc: Global,
    store: &mut S,
    file: &str,
    ending: &str,
    counted: &str,
    made: MadeFile,
) -> Result<Finished, Stop>
    requires { S.faults store.old < 2 ^ 60 }
    ensures cause { StopCount result (S.faults store.old) (S.faults store.new) }
    ensures writes { Writes (λ o. o ≡ made_outcome (file.now ++ ending.now) counted.now made.content.items made.count) ((file.now ++ ending.now) ∷ []) result (S.files store.old) (S.files store.new) }
{
    let text = counted_line(alloc, counted, made.count)?;
    let mut names = Vec::new(alloc);
    names.push(created_name(alloc, file, ending)?)?;
    let mut contents = Vec::new(alloc);
    contents.push(made.content)?;
    let finished = Finished { held: false, text };
    deliver(alloc, store, names, &contents, finished)
}
