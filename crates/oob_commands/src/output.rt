//! The one output of a command, and the line that counts it.
ghost use Rattle.std.specs.Prelude.{◌≡◌, ◌++◌, [], ◌∷◌, IfOk, map, string_bytes};
ghost use Rattle.link_reports.specs.Lines.{count_line};
ghost use Rattle.run_shell.specs.Outputs.{Differ};

use link_reports::count_line;
use lk_base::OutOfMemory;
use run_shell::only_name;
use std::alloc::{AllocError, Global};

// The name of the output.
fn output_name(alloc: Global, out: &str, ending: &str) -> Result<String, AllocError>
    ensures { IfOk result (λ s. string_bytes s ≡ out.now ++ ending.now) }
{
    format!(in alloc; "{out}{ending}")
}

/// The name of the output, as the only one.
pub fn output_names(alloc: Global, out: &str, ending: &str) -> Result<Vec<String>, OutOfMemory>
    ensures names { IfOk result (λ v. map string_bytes v.items ≡ (out.now ++ ending.now) ∷ []) }
    ensures differ { IfOk result (λ v. Differ (map string_bytes v.items)) }
{
    only_name(alloc, output_name(alloc, out, ending)?)
}

/// The line of the count.
pub fn count_text(alloc: Global, counted: &str, count: u64) -> Result<Vec<u8>, OutOfMemory>
    ensures { IfOk result (λ line. line.items ≡ count_line counted.now count) }
{
    let mut line = Vec::new(alloc);
    count_line(alloc, &mut line, counted, count)?;
    Ok(line)
}
