//! The calls on a gatherer.
ghost use Rattle.std.specs.Prelude.{◌≡◌, IfOk, IfErr};
ghost use Rattle.c_bits.specs.Bits.{no_parts};
ghost use Rattle.c_parts.specs.Refusals.{IsRefused};
ghost use Rattle.c_parts.specs.Reports.{no_report};
ghost use Rattle.c_gatherer.specs.Held.{Feeds, FeedsBits, FeedsCompleted, FeedsWhole, Finishes, FinishesWhole, Frees, GivesCode, GivesCount, GivesNext, GivesNexts, GivesReport, IsMade, IsOfPlan, Makes, Reports};

use crate::bit_gatherer::BitGatherer;
use crate::codes::misuse_code;
use crate::gathered::{CGathered, shown};
use crate::handle::GathererHandle;
use crate::many::give_many;
use c_bits::MOST_BITS;
use c_parts::codes::{DONE, IN_USE, NO_GATHERER, OUT_OF_RANGE, PART_BYTE, plan_code};
use c_parts::refusal::{Refusal, no_refusal, refusal_of};
use c_parts::report::{Report, as_report, no_report};
use link_plan::{PlanError, read_plan};
use live_gatherer::{LiveGatherer, Misuse};
use lk_base::OutOfMemory;
use lock_model::LaneReport;
use std::alloc::Global;

// A gatherer of the lanes of the plan of these bytes.
fn opened(alloc: Global, plan: &[u8]) -> Result<LiveGatherer, PlanError>
    ensures made { IfOk result (λ g. IsOfPlan plan.now g) }
    ensures refused { IfErr result (IsRefused plan.now) }
{
    let plan = read_plan(alloc, plan)?;
    let gatherer = LiveGatherer::new(alloc, &plan.link)?;
    Ok(gatherer)
}

// A gatherer in a box, with no part of a byte.
fn in_box(alloc: Global, lanes: LiveGatherer) -> Result<Box<BitGatherer, Global>, OutOfMemory>
    ensures lanes { IfOk result (λ b. b.value.lanes ≡ lanes) }
    ensures whole { IfOk result (λ b. b.value.parts ≡ no_parts) }
{
    let held = Box::new(alloc, BitGatherer::of(lanes))?;
    Ok(held)
}

// A gatherer of the lanes of the plan of these bytes, in a box.
fn boxed(alloc: Global, plan: &[u8]) -> Result<Box<BitGatherer, Global>, PlanError>
    ensures made { IfOk result (λ b. IsMade plan.now b.value) }
    ensures refused { IfErr result (IsRefused plan.now) }
{
    let gatherer = opened(alloc, plan)?;
    let held = in_box(alloc, gatherer)?;
    Ok(held)
}

/// Opens a gatherer of the lanes of the plan of these bytes behind a handle that has none, and writes why a plan is refused. It is
/// `DONE`, `OUT_OF_MEMORY`, `BAD_PLAN` or `IN_USE`.
pub fn new(alloc: Global, gatherer: &mut GathererHandle, plan: &[u8], refusal: &mut Refusal) -> u32
    ensures { Makes gatherer.old.at.gatherer gatherer.new.at.gatherer plan.now result refusal.new }
{
    *refusal = no_refusal();
    if let Some(there) = gatherer.take(alloc) {
        gatherer.put(there);
        return IN_USE;
    }
    match boxed(alloc, plan) {
        Ok(made) => {
            gatherer.put(made);
            DONE
        }
        Err(why) => {
            *refusal = refusal_of(why);
            plan_code(why)
        }
    }
}

/// Frees a gatherer. Its handle has none afterwards. It is `DONE` or `NO_GATHERER`.
pub fn free(alloc: Global, gatherer: &mut GathererHandle) -> u32
    ensures { Frees gatherer.old.at.gatherer gatherer.new.at.gatherer result }
{
    match gatherer.take(alloc) {
        Some(_) => DONE,
        None => NO_GATHERER,
    }
}

// The result of a call that counts bytes; the count is 0 so far.
fn counted(answer: Result<usize, Misuse>, count: &mut usize) -> u32
    requires { count.old ≡ 0 }
    ensures { GivesCount answer result count.new }
{
    match answer {
        Ok(n) => {
            *count = n;
            DONE
        }
        Err(why) => misuse_code(why),
    }
}

// Feeds a lane with bytes, unless a part of a byte of it is left; none are taken so far.
fn feed_whole(gatherer: &mut BitGatherer, lane: u32, bytes: &[u8], taken: &mut usize) -> u32
    requires { taken.old ≡ 0 }
    ensures { FeedsWhole gatherer.old gatherer.new lane bytes.now result taken.new }
{
    let whole = gatherer.parts.is_whole(lane);
    if !whole {
        return PART_BYTE;
    }
    let answer = gatherer.lanes.feed(lane, bytes);
    counted(answer, taken)
}

/// Feeds a lane with the longest prefix of these bytes that its ring has room for, and writes how many that is. It is
/// `DONE`, `NO_LANE`, `FINISHED`, `TOO_MANY`, `PART_BYTE` if a part of a byte of the lane is left, or `NO_GATHERER`.
pub fn feed(
    alloc: Global,
    gatherer: &mut GathererHandle,
    lane: u32,
    bytes: &[u8],
    taken: &mut usize,
) -> u32
    ensures { Feeds gatherer.old.at.gatherer gatherer.new.at.gatherer lane bytes.now result taken.new }
{
    *taken = 0;
    let Some(mut there) = gatherer.take(alloc) else {
        return NO_GATHERER;
    };
    let result = feed_whole(&mut there, lane, bytes, taken);
    gatherer.put(there);
    result
}

// Feeds a lane with the bytes that bits complete; none are taken so far.
fn feed_completed(
    gatherer: &mut BitGatherer,
    lane: u32,
    bits: u64,
    count: u32,
    taken: &mut u32,
) -> u32
    requires { taken.old ≡ 0 }
    ensures { FeedsCompleted gatherer.old gatherer.new lane bits count result taken.new }
{
    if count > MOST_BITS {
        return OUT_OF_RANGE;
    }
    let cut = gatherer.parts.cut(lane, bits, count);
    match gatherer.lanes.feed(lane, cut.bytes()) {
        Ok(bytes) => {
            *taken = gatherer.parts.settle(lane, &cut, count, bytes);
            DONE
        }
        Err(why) => misuse_code(why),
    }
}

/// Feeds a lane with the lowest `count` bits of a number, at most 64, the highest of them first, and writes how many are taken: all, or
/// those that complete the bytes that its ring has room for. It is `DONE`, `NO_LANE`, `FINISHED`, `TOO_MANY`, `OUT_OF_RANGE` or
/// `NO_GATHERER`.
pub fn feed_bits(
    alloc: Global,
    gatherer: &mut GathererHandle,
    lane: u32,
    bits: u64,
    count: u32,
    taken: &mut u32,
) -> u32
    ensures { FeedsBits gatherer.old.at.gatherer gatherer.new.at.gatherer lane bits count result taken.new }
{
    *taken = 0;
    let Some(mut there) = gatherer.take(alloc) else {
        return NO_GATHERER;
    };
    let result = feed_completed(&mut there, lane, bits, count, taken);
    gatherer.put(there);
    result
}

// The result of a call that gives nothing.
fn ended(answer: Result<(), Misuse>) -> u32
    ensures { GivesCode answer result }
{
    match answer {
        Ok(()) => DONE,
        Err(why) => misuse_code(why),
    }
}

// Ends a lane, unless a part of a byte of it is left.
fn finish_whole(gatherer: &mut BitGatherer, lane: u32) -> u32
    ensures { FinishesWhole gatherer.old gatherer.new lane result }
{
    let whole = gatherer.parts.is_whole(lane);
    if !whole {
        return PART_BYTE;
    }
    let answer = gatherer.lanes.finish(lane);
    ended(answer)
}

/// No further byte of this lane comes. It is `DONE`, `NO_LANE`, `FINISHED`, `PART_BYTE` if a part of a byte of the lane is left, or
/// `NO_GATHERER`.
pub fn finish(alloc: Global, gatherer: &mut GathererHandle, lane: u32) -> u32
    ensures { Finishes gatherer.old.at.gatherer gatherer.new.at.gatherer lane result }
{
    let Some(mut there) = gatherer.take(alloc) else {
        return NO_GATHERER;
    };
    let result = finish_whole(&mut there, lane);
    gatherer.put(there);
    result
}

/// Writes the next word or break, the end, or none if a lane that is not finished lacks bytes, or after the end. It is `DONE` or
/// `NO_GATHERER`.
pub fn next(alloc: Global, gatherer: &mut GathererHandle, given: &mut CGathered) -> u32
    ensures { GivesNext gatherer.old.at.gatherer gatherer.new.at.gatherer result given.new }
{
    *given = shown(None);
    let Some(mut there) = gatherer.take(alloc) else {
        return NO_GATHERER;
    };
    let next = there.lanes.next();
    gatherer.put(there);
    *given = shown(next);
    DONE
}

/// Writes words and breaks and the end, as `next` writes each: as many as there is room for, or up to the first none. Writes how many
/// these are. It is `DONE` or `NO_GATHERER`.
pub fn words(
    alloc: Global,
    gatherer: &mut GathererHandle,
    out: &mut [CGathered],
    count: &mut usize,
) -> u32
    ensures { GivesNexts gatherer.old.at.gatherer gatherer.new.at.gatherer out.old out.new result count.new }
{
    *count = 0;
    let Some(mut there) = gatherer.take(alloc) else {
        return NO_GATHERER;
    };
    *count = give_many(&mut there.lanes, out);
    gatherer.put(there);
    DONE
}

// The result of a call that gives a report; it is one of nothing so far.
fn reported(answer: Result<LaneReport, Misuse>, report: &mut Report) -> u32
    requires { report.old ≡ no_report }
    ensures { GivesReport answer result report.new }
{
    match answer {
        Ok(found) => {
            *report = as_report(&found);
            DONE
        }
        Err(why) => misuse_code(why),
    }
}

/// Writes the report of a lane over the bytes that were taken from its ring. It is `DONE`, `NO_LANE` or `NO_GATHERER`.
pub fn report(alloc: Global, gatherer: &mut GathererHandle, lane: u32, report: &mut Report) -> u32
    ensures { Reports gatherer.old.at.gatherer gatherer.new.at.gatherer lane result report.new }
{
    *report = no_report();
    let Some(there) = gatherer.take(alloc) else {
        return NO_GATHERER;
    };
    let answer = there.lanes.report(lane);
    gatherer.put(there);
    reported(answer, report)
}
