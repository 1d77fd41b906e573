//! The calls on an inspector.
ghost use Rattle.std.specs.Prelude.{◌≡◌, IfOk, IfErr};
ghost use Rattle.c_bits.specs.Bits.{no_parts};
ghost use Rattle.c_parts.specs.Refusals.{IsRefused};
ghost use Rattle.c_parts.specs.Reports.{no_report};
ghost use Rattle.c_inspector.specs.Held.{Feeds, FeedsBits, FeedsCompleted, FeedsWhole, Finishes, FinishesWhole, Frees, GivesCode, GivesCount, GivesEvent, GivesReport, IsMade, IsOfPlan, Makes, Reports};

use crate::bit_inspector::BitInspector;
use crate::codes::misuse_code;
use crate::event::{CLaneEvent, shown};
use crate::handle::InspectorHandle;
use c_bits::MOST_BITS;
use c_parts::codes::{DONE, IN_USE, NO_INSPECTOR, OUT_OF_RANGE, PART_BYTE, plan_code};
use c_parts::refusal::{Refusal, no_refusal, refusal_of};
use c_parts::report::{Report, as_report, no_report};
use link_plan::{PlanError, read_plan};
use live_inspector::{LiveInspector, Misuse};
use lk_base::OutOfMemory;
use lock_model::LaneReport;
use std::alloc::Global;

// An inspector of the lanes of the plan of these bytes.
fn opened(alloc: Global, plan: &[u8]) -> Result<LiveInspector, PlanError>
    ensures made { IfOk result (λ lanes. IsOfPlan plan.now lanes) }
    ensures refused { IfErr result (IsRefused plan.now) }
{
    let plan = read_plan(alloc, plan)?;
    let inspector = LiveInspector::new(alloc, &plan.link)?;
    Ok(inspector)
}

// An inspector in a box, with no part of a byte.
fn in_box(alloc: Global, lanes: LiveInspector) -> Result<Box<BitInspector, Global>, OutOfMemory>
    ensures lanes { IfOk result (λ b. b.value.lanes ≡ lanes) }
    ensures whole { IfOk result (λ b. b.value.parts ≡ no_parts) }
{
    let held = Box::new(alloc, BitInspector::of(lanes))?;
    Ok(held)
}

// An inspector of the lanes of the plan of these bytes, in a box.
fn boxed(alloc: Global, plan: &[u8]) -> Result<Box<BitInspector, Global>, PlanError>
    ensures made { IfOk result (λ b. IsMade plan.now b.value) }
    ensures refused { IfErr result (IsRefused plan.now) }
{
    let inspector = opened(alloc, plan)?;
    let held = in_box(alloc, inspector)?;
    Ok(held)
}

/// Opens an inspector of the lanes of the plan of these bytes behind a handle that has none, and writes why a plan is refused. It is
/// `DONE`, `OUT_OF_MEMORY`, `BAD_PLAN` or `IN_USE`.
pub fn new(
    alloc: Global,
    inspector: &mut InspectorHandle,
    plan: &[u8],
    refusal: &mut Refusal,
) -> u32
    ensures { Makes inspector.old.at.inspector inspector.new.at.inspector plan.now result refusal.new }
{
    *refusal = no_refusal();
    if let Some(there) = inspector.take(alloc) {
        inspector.put(there);
        return IN_USE;
    }
    match boxed(alloc, plan) {
        Ok(made) => {
            inspector.put(made);
            DONE
        }
        Err(why) => {
            *refusal = refusal_of(why);
            plan_code(why)
        }
    }
}

/// Frees an inspector. Its handle has none afterwards. It is `DONE` or `NO_INSPECTOR`.
pub fn free(alloc: Global, inspector: &mut InspectorHandle) -> u32
    ensures { Frees inspector.old.at.inspector inspector.new.at.inspector result }
{
    match inspector.take(alloc) {
        Some(_) => DONE,
        None => NO_INSPECTOR,
    }
}

// The result of a call that counts bytes; the count is 0 so far.
fn counted(answer: Result<usize, Misuse>, count: &mut usize) -> u32
    requires { count.old ≡ 0 }
    ensures { GivesCount answer result count.new }
{
    match answer {
        Ok(n) => {
            *count = n;
            DONE
        }
        Err(why) => misuse_code(why),
    }
}

// Feeds a lane with bytes, unless a part of a byte of it is left; none are taken so far.
fn feed_whole(inspector: &mut BitInspector, lane: u32, bytes: &[u8], taken: &mut usize) -> u32
    requires { taken.old ≡ 0 }
    ensures { FeedsWhole inspector.old inspector.new lane bytes.now result taken.new }
{
    let whole = inspector.parts.is_whole(lane);
    if !whole {
        return PART_BYTE;
    }
    let answer = inspector.lanes.feed(lane, bytes);
    counted(answer, taken)
}

/// Takes the first of these bytes of a lane, up to a word that shows events, and writes how many: none, while events of the lane are
/// due. It is `DONE`, `NO_LANE`, `FINISHED`, `TOO_MANY`, `PART_BYTE` if a part of a byte of the lane is left, or `NO_INSPECTOR`.
pub fn feed(
    alloc: Global,
    inspector: &mut InspectorHandle,
    lane: u32,
    bytes: &[u8],
    taken: &mut usize,
) -> u32
    ensures { Feeds inspector.old.at.inspector inspector.new.at.inspector lane bytes.now result taken.new }
{
    *taken = 0;
    let Some(mut there) = inspector.take(alloc) else {
        return NO_INSPECTOR;
    };
    let result = feed_whole(&mut there, lane, bytes, taken);
    inspector.put(there);
    result
}

// Feeds a lane with the bytes that bits complete; none are taken so far.
fn feed_completed(
    inspector: &mut BitInspector,
    lane: u32,
    bits: u64,
    count: u32,
    taken: &mut u32,
) -> u32
    requires { taken.old ≡ 0 }
    ensures { FeedsCompleted inspector.old inspector.new lane bits count result taken.new }
{
    if count > MOST_BITS {
        return OUT_OF_RANGE;
    }
    let cut = inspector.parts.cut(lane, bits, count);
    match inspector.lanes.feed(lane, cut.bytes()) {
        Ok(bytes) => {
            *taken = inspector.parts.settle(lane, &cut, count, bytes);
            DONE
        }
        Err(why) => misuse_code(why),
    }
}

/// Feeds a lane with the lowest `count` bits of a number, at most 64, the highest of them first, and writes how many are taken: all, or
/// those that complete the bytes that are taken. It is `DONE`, `NO_LANE`, `FINISHED`, `TOO_MANY`, `OUT_OF_RANGE` or
/// `NO_INSPECTOR`.
pub fn feed_bits(
    alloc: Global,
    inspector: &mut InspectorHandle,
    lane: u32,
    bits: u64,
    count: u32,
    taken: &mut u32,
) -> u32
    ensures { FeedsBits inspector.old.at.inspector inspector.new.at.inspector lane bits count result taken.new }
{
    *taken = 0;
    let Some(mut there) = inspector.take(alloc) else {
        return NO_INSPECTOR;
    };
    let result = feed_completed(&mut there, lane, bits, count, taken);
    inspector.put(there);
    result
}

// The result of a call that gives nothing.
fn ended(answer: Result<(), Misuse>) -> u32
    ensures { GivesCode answer result }
{
    match answer {
        Ok(()) => DONE,
        Err(why) => misuse_code(why),
    }
}

// Ends a lane, unless a part of a byte of it is left.
fn finish_whole(inspector: &mut BitInspector, lane: u32) -> u32
    ensures { FinishesWhole inspector.old inspector.new lane result }
{
    let whole = inspector.parts.is_whole(lane);
    if !whole {
        return PART_BYTE;
    }
    let answer = inspector.lanes.finish(lane);
    ended(answer)
}

/// No further byte of this lane comes. It is `DONE`, `NO_LANE`, `FINISHED`, `PART_BYTE` if a part of a byte of the lane is left, or
/// `NO_INSPECTOR`.
pub fn finish(alloc: Global, inspector: &mut InspectorHandle, lane: u32) -> u32
    ensures { Finishes inspector.old.at.inspector inspector.new.at.inspector lane result }
{
    let Some(mut there) = inspector.take(alloc) else {
        return NO_INSPECTOR;
    };
    let result = finish_whole(&mut there, lane);
    inspector.put(there);
    result
}

/// Writes the next event that is due, of the lowest lane first, or none if none is due. It is `DONE` or `NO_INSPECTOR`.
pub fn next(alloc: Global, inspector: &mut InspectorHandle, event: &mut CLaneEvent) -> u32
    ensures { GivesEvent inspector.old.at.inspector inspector.new.at.inspector result event.new }
{
    *event = shown(None);
    let Some(mut there) = inspector.take(alloc) else {
        return NO_INSPECTOR;
    };
    let next = there.lanes.next();
    inspector.put(there);
    *event = shown(next);
    DONE
}

// The result of a call that gives a report; it is one of nothing so far.
fn reported(answer: Result<LaneReport, Misuse>, report: &mut Report) -> u32
    requires { report.old ≡ no_report }
    ensures { GivesReport answer result report.new }
{
    match answer {
        Ok(found) => {
            *report = as_report(&found);
            DONE
        }
        Err(why) => misuse_code(why),
    }
}

/// Writes the report of a lane over the bytes that were taken of it. It is `DONE`, `NO_LANE` or `NO_INSPECTOR`.
pub fn report(alloc: Global, inspector: &mut InspectorHandle, lane: u32, report: &mut Report) -> u32
    ensures { Reports inspector.old.at.inspector inspector.new.at.inspector lane result report.new }
{
    *report = no_report();
    let Some(there) = inspector.take(alloc) else {
        return NO_INSPECTOR;
    };
    let answer = there.lanes.report(lane);
    inspector.put(there);
    reported(answer, report)
}
