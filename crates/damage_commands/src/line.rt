//! The line of a damaged lane.
ghost use Rattle.std.specs.Prelude.{◌≡◌, ◌++◌, IfOk, OnOk, string_bytes};
ghost use Rattle.damage_commands.specs.Struck.{damaged_line};

use lk_base::OutOfMemory;
use std::alloc::{AllocError, Global};

/// How a lane was damaged.
#[derive(Clone, Copy, Debug, PartialEq, Eq)]
pub struct DamagedLane {
    /// Its number.
    pub lane: u32,
    /// How many bits stand before its own.
    pub skew: u32,
    /// How many bits after these differ from the sent ones.
    pub bits: u64,
    /// How many rows of the schedule name no bit of it.
    pub unused: u64,
}

fn damaged_text(alloc: Global, told: &DamagedLane) -> Result<String, AllocError>
    ensures { IfOk result (λ text. string_bytes text ≡ damaged_line told.now.lane told.now.skew told.now.bits told.now.unused) }
{
    format!(in alloc;
        "damaged lane={} skew={} bits={} unused={}\n",
        told.lane, told.skew, told.bits, told.unused
    )
}

/// Appends the line of a damaged lane.
pub fn damaged_line(alloc: Global, out: &mut Vec<u8>, told: &DamagedLane) -> Result<(), OutOfMemory>
    ensures { OnOk result (out.new.items ≡ out.old.items ++ damaged_line told.now.lane told.now.skew told.now.bits told.now.unused) }
{
    let text = damaged_text(alloc, told)?;
    out.extend_from_slice(text.as_bytes())?;
    Ok(())
}
