//! The names of the captures of both ends.
ghost use Rattle.std.specs.Prelude.{◌≡◌, map, IfOk, string_bytes};
ghost use Rattle.duplex_commands.specs.Names.{prefix_of_a, prefix_of_b, names_by};

use receipts::add_capture_names;
use std::alloc::{AllocError, Global};

fn prefix_of_a(alloc: Global, out: &str) -> Result<String, AllocError>
    ensures { IfOk result (λ s. string_bytes s ≡ prefix_of_a out.now) }
{
    format!(in alloc; "{out}.a")
}

fn prefix_of_b(alloc: Global, out: &str) -> Result<String, AllocError>
    ensures { IfOk result (λ s. string_bytes s ≡ prefix_of_b out.now) }
{
    format!(in alloc; "{out}.b")
}

/// The names of the captures of these channels at end a, and then at end b, which begin with `out`.
pub fn capture_names(alloc: Global, out: &str, channels: &[u16]) -> Result<Vec<String>, AllocError>
    ensures { IfOk result (λ names. map string_bytes names.items ≡ names_by out.now channels.now) }
{
    let a = prefix_of_a(alloc, out)?;
    let b = prefix_of_b(alloc, out)?;
    let names = add_capture_names(alloc, Vec::new(alloc), a.as_str(), channels)?;
    add_capture_names(alloc, names, b.as_str(), channels)
}
