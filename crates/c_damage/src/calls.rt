//! The calls on the damage of lanes.
ghost use Rattle.std.specs.Prelude.{◌≡◌, IfOk};
ghost use Rattle.lane_damage.specs.Calls.{AreUntouched};
ghost use Rattle.c_damage.specs.Held.{Damages, Darkens, Flips, FreesDamage, GivesResult, MakesDamage};

use crate::codes::damage_code;
use crate::handle::DamageHandle;
use c_parts::codes::{DONE, IN_USE, NO_DAMAGE, OUT_OF_MEMORY, OUT_OF_RANGE};
use lane_damage::{Damage, Refused};
use lk_base::OutOfMemory;
use std::alloc::Global;

// The damage of this many lanes, in a box.
fn boxed(alloc: Global, lanes: u32) -> Result<Box<Damage, Global>, OutOfMemory>
    ensures { IfOk result (λ b. AreUntouched lanes b.value) }
{
    let damage = Damage::new(alloc, lanes)?;
    let damage = Box::new(alloc, damage)?;
    Ok(damage)
}

/// Opens the damage of 1 to 64 lanes behind a handle that has none; nothing happens to them so far. It is `DONE`, `OUT_OF_MEMORY`,
/// `IN_USE` or `OUT_OF_RANGE`.
pub fn new(alloc: Global, damage: &mut DamageHandle, lanes: u32) -> u32
    ensures { MakesDamage damage.old.at.damage damage.new.at.damage lanes result }
{
    if let Some(there) = damage.take(alloc) {
        damage.put(there);
        return IN_USE;
    }
    if lanes < 1 || lanes > 64 {
        return OUT_OF_RANGE;
    }
    match boxed(alloc, lanes) {
        Ok(made) => {
            damage.put(made);
            DONE
        }
        Err(OutOfMemory) => OUT_OF_MEMORY,
    }
}

/// Frees damage. Its handle has none afterwards. It is `DONE` or `NO_DAMAGE`.
pub fn free(alloc: Global, damage: &mut DamageHandle) -> u32
    ensures { FreesDamage damage.old.at.damage damage.new.at.damage result }
{
    match damage.take(alloc) {
        Some(_) => DONE,
        None => NO_DAMAGE,
    }
}

// The result of a call.
fn ended(answer: Result<(), Refused>) -> u32
    ensures { GivesResult answer result }
{
    match answer {
        Ok(()) => DONE,
        Err(why) => damage_code(why),
    }
}

/// Inverts a bit of a lane, counted from 0, once more. It is `DONE`, `OUT_OF_MEMORY`, `NO_LANE`, `OUT_OF_RANGE`, `PASSED` or
/// `NO_DAMAGE`.
pub fn flip(alloc: Global, damage: &mut DamageHandle, lane: u32, bit: u64) -> u32
    ensures { Flips damage.old.at.damage damage.new.at.damage lane bit result }
{
    let Some(mut there) = damage.take(alloc) else {
        return NO_DAMAGE;
    };
    let answer = there.flip(lane, bit);
    damage.put(there);
    ended(answer)
}

/// Makes this many bits of a lane 0, from one on, those that have not passed. It is `DONE`, `OUT_OF_MEMORY`, `NO_LANE`,
/// `OUT_OF_RANGE`, `PASSED` or `NO_DAMAGE`.
pub fn dark(alloc: Global, damage: &mut DamageHandle, lane: u32, first: u64, count: u64) -> u32
    ensures { Darkens damage.old.at.damage damage.new.at.damage lane first count result }
{
    let Some(mut there) = damage.take(alloc) else {
        return NO_DAMAGE;
    };
    let answer = there.dark(lane, first, count);
    damage.put(there);
    ended(answer)
}

/// Damages the next bytes of a lane, in place. It is `DONE`, `NO_LANE`, `TOO_MANY` or `NO_DAMAGE`.
pub fn apply(alloc: Global, damage: &mut DamageHandle, lane: u32, bytes: &mut [u8]) -> u32
    ensures { Damages damage.old.at.damage damage.new.at.damage lane bytes.old bytes.new result }
{
    let Some(mut there) = damage.take(alloc) else {
        return NO_DAMAGE;
    };
    let answer = there.apply(lane, bytes);
    damage.put(there);
    ended(answer)
}
