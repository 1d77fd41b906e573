//! The calls on a plan.
ghost use Rattle.std.specs.Prelude.{◌≡◌, ◌++◌, length, take, drop};
ghost use Rattle.link_plan.specs.Listing.{channels_in_order, numbers_of};
ghost use Rattle.c_plan.specs.Calls.{FindsPlace, FindsSlot, GivesChannels, GivesFound, GivesNumbers, ListsChannels, ReadsPlan};

use crate::numbers::{PlanNumbers, link_of, no_numbers, numbers_of};
use crate::places::{LaneBit, find_place, find_slot};
use c_parts::CPlace;
use c_parts::codes::{DONE, OUT_OF_RANGE, plan_code};
use c_parts::refusal::{Refusal, no_refusal, refusal_of};
use link_plan::{PlanError, channels_in_order, read_plan};
use std::alloc::Global;

// The numbers of the plan of these bytes.
fn numbers_in(alloc: Global, plan: &[u8]) -> Result<PlanNumbers, PlanError>
    ensures { GivesNumbers plan.now result }
{
    let plan = read_plan(alloc, plan)?;
    Ok(numbers_of(&plan))
}

/// Writes the numbers of the plan of these bytes, and why a plan is refused. All numbers are 0 if it is not `DONE`. It is `DONE`,
/// `OUT_OF_MEMORY` or `BAD_PLAN`.
pub fn read(alloc: Global, plan: &[u8], numbers: &mut PlanNumbers, refusal: &mut Refusal) -> u32
    ensures { ReadsPlan plan.now result numbers.new refusal.new }
{
    *numbers = no_numbers();
    *refusal = no_refusal();
    match numbers_in(alloc, plan) {
        Ok(found) => {
            *numbers = found;
            DONE
        }
        Err(why) => {
            *refusal = refusal_of(why);
            plan_code(why)
        }
    }
}

// Copies as many numbers as there is room for, and returns how many there are.
fn copy(numbers: &[u16], channels: &mut [u16]) -> usize
    ensures count { result ≡ length numbers.now }
    ensures copied { channels.new ≡ take (length channels.old) numbers.now ++ drop (length numbers.now) channels.old }
{
    let count = numbers.len().min(channels.len());
    channels[..count].copy_from_slice(&numbers[..count]);
    numbers.len()
}

// Copies the numbers of the channels of the plan of these bytes, and returns how many there are.
fn channels_in(alloc: Global, plan: &[u8], channels: &mut [u16]) -> Result<usize, PlanError>
    ensures { GivesChannels plan.now channels.old channels.new result }
{
    let plan = read_plan(alloc, plan)?;
    let numbers = channels_in_order(alloc, &plan.channels)?;
    Ok(copy(&numbers, channels))
}

/// Writes the numbers of the channels of the plan of these bytes, in order of number, as many as there is room for, and how many are
/// listed. The channels stay unchanged and the count is 0 if it is not `DONE`. It is `DONE`, `OUT_OF_MEMORY` or `BAD_PLAN`.
pub fn channels(
    alloc: Global,
    plan: &[u8],
    channels: &mut [u16],
    count: &mut usize,
    refusal: &mut Refusal,
) -> u32
    ensures { ListsChannels plan.now channels.old channels.new result count.new refusal.new }
{
    *count = 0;
    *refusal = no_refusal();
    match channels_in(alloc, plan, channels) {
        Ok(listed) => {
            *count = listed;
            DONE
        }
        Err(why) => {
            *refusal = refusal_of(why);
            plan_code(why)
        }
    }
}

// The result of a call that finds a lane and a bit of it; 0 if it does not.
fn told(found: Option<LaneBit>, lane: &mut u32, bit: &mut u64) -> u32
    ensures { GivesFound found result lane.new bit.new }
{
    match found {
        Some(found) => {
            *lane = found.lane;
            *bit = found.bit;
            DONE
        }
        None => {
            *lane = 0;
            *bit = 0;
            OUT_OF_RANGE
        }
    }
}

/// Writes the lane of a word of a group, and the bit at which its code would begin if no lane were skewed. Both are 0 if it is not
/// `DONE`. It is `DONE` or `OUT_OF_RANGE`.
pub fn place(numbers: &PlanNumbers, at: &CPlace, lane: &mut u32, bit: &mut u64) -> u32
    ensures { FindsPlace numbers.now at.now result lane.new bit.new }
{
    let found = match link_of(numbers) {
        Some(link) => find_place(&link, at),
        None => None,
    };
    told(found, lane, bit)
}

/// Writes the lane of a payload word that is sent, by its number in the stream, and the bit at which its code begins. Both are 0 if it
/// is not `DONE`. It is `DONE` or `OUT_OF_RANGE`.
pub fn slot(numbers: &PlanNumbers, slot: u64, lane: &mut u32, bit: &mut u64) -> u32
    ensures { FindsSlot numbers.now slot result lane.new bit.new }
{
    let found = match link_of(numbers) {
        Some(link) => find_slot(&link, slot),
        None => None,
    };
    told(found, lane, bit)
}
