//! Numbers as texts.
ghost use Rattle.std.specs.Prelude.{◌≡◌, IfOk, string_bytes};
ghost use Rattle.std.specs.Fmt.{decimal};
ghost use Rattle.link_reports.specs.Lines.{number_or_stroke};

use std::alloc::{AllocError, Global};

/// Returns `number` in decimal.
pub fn number_text(alloc: Global, number: u64) -> Result<String, AllocError>
    ensures { IfOk result (λ text. string_bytes text ≡ decimal number) }
{
    format!(in alloc; "{number}")
}

/// Returns `number` in decimal, or `-` if there is none.
pub fn number_or_stroke(alloc: Global, number: Option<u64>) -> Result<String, AllocError>
    ensures { IfOk result (λ text. string_bytes text ≡ number_or_stroke number) }
{
    match number {
        None => String::from_str(alloc, "-"),
        Some(number) => number_text(alloc, number),
    }
}
