//! The names of outputs: of a command's only one, of a stream's words file, and of its lanes.
ghost use Rattle.std.specs.Prelude.{◌≡◌, ◌∷◌, [], IfOk, map, string_bytes};
ghost use Rattle.run_shell.specs.Outputs.{Differ};
ghost use Rattle.run_shell.specs.Names.{words_name, lane_name, lane_names};

use lk_base::OutOfMemory;
use std::alloc::{AllocError, Global};

/// Returns a list that has `name` alone.
pub fn only_name(alloc: Global, name: String) -> Result<Vec<String>, OutOfMemory>
    ensures names { IfOk result (λ v. map string_bytes v.items ≡ string_bytes name ∷ []) }
    ensures differ { IfOk result (λ v. Differ (map string_bytes v.items)) }
{
    let mut names = Vec::new(alloc);
    names.push(name)?;
    Ok(names)
}

/// Makes the name of the words file of a capture, or of a plan's prefix.
pub fn words_name(alloc: Global, prefix: &str) -> Result<String, AllocError>
    ensures { IfOk result (λ s. string_bytes s ≡ words_name prefix.now) }
{
    format!(in alloc; "{prefix}.words")
}

// Makes the name of a lane's file.
fn lane_name(alloc: Global, prefix: &str, lane: u32) -> Result<String, AllocError>
    ensures { IfOk result (λ s. string_bytes s ≡ lane_name prefix.now lane) }
{
    format!(in alloc; "{prefix}.lane.{lane}")
}

/// Makes the names of the lanes' files, by number. They differ.
pub fn lane_names(alloc: Global, prefix: &str, lanes: u32) -> Result<Vec<String>, AllocError>
    ensures names { IfOk result (λ v. map string_bytes v.items ≡ lane_names prefix.now lanes) }
    ensures differ { IfOk result (λ v. Differ (map string_bytes v.items)) }
{
    let mut names = Vec::new(alloc);
    for lane in 0..lanes {
        names.push(lane_name(alloc, prefix, lane)?)?;
    }
    Ok(names)
}
