//! The calls on the damage of lanes.
ghost use Rattle.c_damage.specs.Held.{Damages, Darkens, Flips, FreesDamage, MakesDamage};

use c_damage::DamageHandle;
use std::alloc::Global;

/// Opens the damage of 1 to 64 lanes behind a handle that has none; nothing happens to them so far. It is `DONE`, `OUT_OF_MEMORY`,
/// `IN_USE` or `OUT_OF_RANGE`.
#[unsafe(no_mangle)]
pub extern "C" fn interlaken_damage_new(alloc: Global, damage: &mut DamageHandle, lanes: u32) -> u32
    ensures { MakesDamage damage.old.at.damage damage.new.at.damage lanes result }
{
    c_damage::new(alloc, damage, lanes)
}

/// Frees damage. Its handle has none afterwards. It is `DONE` or `NO_DAMAGE`.
#[unsafe(no_mangle)]
pub extern "C" fn interlaken_damage_free(alloc: Global, damage: &mut DamageHandle) -> u32
    ensures { FreesDamage damage.old.at.damage damage.new.at.damage result }
{
    c_damage::free(alloc, damage)
}

/// Inverts a bit of a lane, counted from 0, once more. It is `DONE`, `OUT_OF_MEMORY`, `NO_LANE`, `OUT_OF_RANGE`, `PASSED` or
/// `NO_DAMAGE`.
#[unsafe(no_mangle)]
pub extern "C" fn interlaken_damage_flip(
    alloc: Global,
    damage: &mut DamageHandle,
    lane: u32,
    bit: u64,
) -> u32
    ensures { Flips damage.old.at.damage damage.new.at.damage lane bit result }
{
    c_damage::flip(alloc, damage, lane, bit)
}

/// Makes this many bits of a lane 0, from one on, those that have not passed. It is `DONE`, `OUT_OF_MEMORY`, `NO_LANE`,
/// `OUT_OF_RANGE`, `PASSED` or `NO_DAMAGE`.
#[unsafe(no_mangle)]
pub extern "C" fn interlaken_damage_dark(
    alloc: Global,
    damage: &mut DamageHandle,
    lane: u32,
    first: u64,
    count: u64,
) -> u32
    ensures { Darkens damage.old.at.damage damage.new.at.damage lane first count result }
{
    c_damage::dark(alloc, damage, lane, first, count)
}

/// Damages the next bytes of a lane, in place. It is `DONE`, `NO_LANE`, `TOO_MANY` or `NO_DAMAGE`.
#[unsafe(no_mangle)]
pub extern "C" fn interlaken_damage_apply(
    alloc: Global,
    damage: &mut DamageHandle,
    lane: u32,
    bytes: &mut [u8],
) -> u32
    ensures { Damages damage.old.at.damage damage.new.at.damage lane bytes.old bytes.new result }
{
    c_damage::apply(alloc, damage, lane, bytes)
}
