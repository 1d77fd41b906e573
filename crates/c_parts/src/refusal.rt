//! Why a plan is refused, as C sees it.
ghost use Rattle.std.specs.Prelude.{◌≡◌};
ghost use Rattle.c_parts.specs.Codes.{cause_number};
ghost use Rattle.c_parts.specs.Refusals.{key_number, of_key, of_row, refusal_of};

use crate::codes::{Cause, NO_KEY};
use plan_errors::{Key, PlanError};

/// Why a plan is refused. All is 0 where it is not.
#[repr(C)]
#[derive(Clone, Copy)]
pub struct Refusal {
    /// The number of a `Cause`.
    pub cause: u32,
    /// The number of the row, from 1; 0 where a key is missing.
    pub row: u32,
    /// The number of the key that is missing, in the order of `Key` from 1 on; `NO_KEY` if none is. Of a plan of lanes the first four
    /// can be missing.
    pub key: u32,
}

fn of_row(cause: Cause, row: u32) -> Refusal
    ensures { result ≡ of_row (cause_number cause) row }
{
    Refusal {
        cause: cause.number(),
        row,
        key: NO_KEY,
    }
}

fn of_key(key: u32) -> Refusal
    ensures { result ≡ of_key key }
{
    Refusal {
        cause: Cause::Missing.number(),
        row: 0,
        key,
    }
}

/// No refusal.
pub fn no_refusal() -> Refusal
    ensures { result ≡ of_row 0 0 }
{
    of_row(Cause::NoCause, 0)
}

fn key_number(key: Key) -> u32
    ensures { result ≡ key_number key }
{
    key as u32 + 1
}

/// Why a plan is refused, as C sees it; out of memory, and what no reader of a plan returns, is no refusal.
pub fn refusal_of(why: PlanError) -> Refusal
    ensures { result ≡ refusal_of why }
{
    match why {
        PlanError::NoFile | PlanError::TooLarge | PlanError::OutOfMemory => no_refusal(),
        PlanError::Text(row) => of_row(Cause::Text, row),
        PlanError::UnknownKey(row) => of_row(Cause::UnknownKey, row),
        PlanError::Fields(row) => of_row(Cause::Fields, row),
        PlanError::Number(row) => of_row(Cause::Number, row),
        PlanError::Range(row) => of_row(Cause::Range, row),
        PlanError::Repeat(row) => of_row(Cause::Repeat, row),
        PlanError::Missing(key) => of_key(key_number(key)),
        PlanError::Clash(row) => of_row(Cause::Clash, row),
    }
}
