//! The calls on a plan.
ghost use Rattle.c_plan.specs.Calls.{FindsPlace, FindsSlot, ListsChannels, ReadsPlan};

use c_parts::{CPlace, Refusal};
use c_plan::PlanNumbers;
use std::alloc::Global;

/// Writes the numbers of the plan of these bytes, and why a plan is refused. All numbers are 0 if it is not `DONE`. It is `DONE`,
/// `OUT_OF_MEMORY` or `BAD_PLAN`.
#[unsafe(no_mangle)]
pub extern "C" fn interlaken_plan_read(
    alloc: Global,
    plan: &[u8],
    numbers: &mut PlanNumbers,
    refusal: &mut Refusal,
) -> u32
    ensures { ReadsPlan plan.now result numbers.new refusal.new }
{
    c_plan::read(alloc, plan, numbers, refusal)
}

/// Writes the numbers of the channels of the plan of these bytes, in order of number, as many as there is room for, and how many are
/// listed. The channels stay unchanged and the count is 0 if it is not `DONE`. It is `DONE`, `OUT_OF_MEMORY` or `BAD_PLAN`.
#[unsafe(no_mangle)]
pub extern "C" fn interlaken_plan_channels(
    alloc: Global,
    plan: &[u8],
    channels: &mut [u16],
    count: &mut usize,
    refusal: &mut Refusal,
) -> u32
    ensures { ListsChannels plan.now channels.old channels.new result count.new refusal.new }
{
    c_plan::channels(alloc, plan, channels, count, refusal)
}

/// Writes the lane of a word of a group, and the bit at which its code would begin if no lane were skewed. Both are 0 if it is not
/// `DONE`. It is `DONE` or `OUT_OF_RANGE`.
#[unsafe(no_mangle)]
pub extern "C" fn interlaken_plan_place(
    numbers: &PlanNumbers,
    at: &CPlace,
    lane: &mut u32,
    bit: &mut u64,
) -> u32
    ensures { FindsPlace numbers.now at.now result lane.new bit.new }
{
    c_plan::place(numbers, at, lane, bit)
}

/// Writes the lane of a payload word that is sent, by its number in the stream, and the bit at which its code begins. Both are 0 if it
/// is not `DONE`. It is `DONE` or `OUT_OF_RANGE`.
#[unsafe(no_mangle)]
pub extern "C" fn interlaken_plan_slot(
    numbers: &PlanNumbers,
    slot: u64,
    lane: &mut u32,
    bit: &mut u64,
) -> u32
    ensures { FindsSlot numbers.now slot result lane.new bit.new }
{
    c_plan::slot(numbers, slot, lane, bit)
}
