//! The calls on a receiver.
ghost use Rattle.std.specs.Prelude.{◌≡◌, IfOk, IfErr};
ghost use Rattle.c_receiver.specs.Held.{Feeds, FeedsBits, FeedsCompleted, FeedsWhole, Finishes, FinishesWhole, Frees, GivesCode, GivesCount, GivesEvent, GivesOn, GivesReport, GivesState, IsMade, Makes, Reads, Reports, TellsChannel, TellsState};
ghost use Rattle.c_bits.specs.Bits.{no_parts};
ghost use Rattle.c_parts.specs.Reports.{no_report};
ghost use Rattle.c_parts.specs.Refusals.{IsRefused};
ghost use Rattle.live_receiver.specs.Opens.{IsOfPlan};

use crate::bit_receiver::BitReceiver;
use crate::event::{CEvent, shown};
use crate::handle::ReceiverHandle;
use c_bits::MOST_BITS;
use c_parts::codes::{
    DONE, IN_USE, LANE_SEARCHING, NO_CHANNEL, NO_RECEIVER, OUT_OF_RANGE, PART_BYTE, code_of,
    plan_code, state_code,
};
use c_parts::misuse::Misuse;
use c_parts::refusal::{Refusal, no_refusal, refusal_of};
use c_parts::report::{Report, as_report, no_report};
use link_plan::{PlanError, read_plan};
use live_receiver::Session;
use lk_base::OutOfMemory;
use lock_model::{LaneReport, LaneState};
use std::alloc::Global;

// A receiver of the plan of these bytes.
fn opened(alloc: Global, plan: &[u8]) -> Result<Session, PlanError>
    ensures made { IfOk result (λ s. IsOfPlan plan.now s) }
    ensures refused { IfErr result (IsRefused plan.now) }
{
    let plan = read_plan(alloc, plan)?;
    let session = Session::new(alloc, &plan)?;
    Ok(session)
}

// A receiver in a box, with no part of a byte.
fn in_box(alloc: Global, session: Session) -> Result<Box<BitReceiver, Global>, OutOfMemory>
    ensures session { IfOk result (λ b. b.value.session ≡ session) }
    ensures whole { IfOk result (λ b. b.value.parts ≡ no_parts) }
{
    let held = Box::new(alloc, BitReceiver::of(session))?;
    Ok(held)
}

// A receiver of the plan of these bytes, in a box.
fn boxed(alloc: Global, plan: &[u8]) -> Result<Box<BitReceiver, Global>, PlanError>
    ensures made { IfOk result (λ b. IsMade plan.now b.value) }
    ensures refused { IfErr result (IsRefused plan.now) }
{
    let session = opened(alloc, plan)?;
    let held = in_box(alloc, session)?;
    Ok(held)
}

/// Opens a receiver of the plan of these bytes behind a handle that has none, and writes why a plan is refused. It is `DONE`,
/// `OUT_OF_MEMORY`, `BAD_PLAN` or `IN_USE`.
pub fn new(alloc: Global, receiver: &mut ReceiverHandle, plan: &[u8], refusal: &mut Refusal) -> u32
    ensures { Makes receiver.old.at.session receiver.new.at.session plan.now result refusal.new }
{
    *refusal = no_refusal();
    if let Some(there) = receiver.take(alloc) {
        receiver.put(there);
        return IN_USE;
    }
    match boxed(alloc, plan) {
        Ok(made) => {
            receiver.put(made);
            DONE
        }
        Err(why) => {
            *refusal = refusal_of(why);
            plan_code(why)
        }
    }
}

/// Frees a receiver. Its handle has none afterwards. It is `DONE` or `NO_RECEIVER`.
pub fn free(alloc: Global, receiver: &mut ReceiverHandle) -> u32
    ensures { Frees receiver.old.at.session receiver.new.at.session result }
{
    match receiver.take(alloc) {
        Some(_) => DONE,
        None => NO_RECEIVER,
    }
}

// The result of a call that counts bytes; the count is 0 so far.
fn counted(answer: Result<usize, Misuse>, count: &mut usize) -> u32
    requires { count.old ≡ 0 }
    ensures { GivesCount answer result count.new }
{
    match answer {
        Ok(n) => {
            *count = n;
            DONE
        }
        Err(why) => code_of(why),
    }
}

// Feeds a lane with bytes, unless a part of a byte of it is left; none are taken so far.
fn feed_whole(receiver: &mut BitReceiver, lane: u32, bytes: &[u8], taken: &mut usize) -> u32
    requires { taken.old ≡ 0 }
    ensures { FeedsWhole receiver.old receiver.new lane bytes.now result taken.new }
{
    let whole = receiver.parts.is_whole(lane);
    if !whole {
        return PART_BYTE;
    }
    let answer = receiver.session.feed(lane, bytes);
    counted(answer, taken)
}

/// Feeds a lane with the longest prefix of these bytes that its ring has room for, and writes how many that is. It is `DONE`,
/// `NO_LANE`, `FINISHED`, `TOO_MANY`, `PART_BYTE` if a part of a byte of the lane is left, or `NO_RECEIVER`.
pub fn feed(
    alloc: Global,
    receiver: &mut ReceiverHandle,
    lane: u32,
    bytes: &[u8],
    taken: &mut usize,
) -> u32
    ensures { Feeds receiver.old.at.session receiver.new.at.session lane bytes.now result taken.new }
{
    *taken = 0;
    let Some(mut there) = receiver.take(alloc) else {
        return NO_RECEIVER;
    };
    let result = feed_whole(&mut there, lane, bytes, taken);
    receiver.put(there);
    result
}

// Feeds a lane with the bytes that bits complete; none are taken so far.
fn feed_completed(
    receiver: &mut BitReceiver,
    lane: u32,
    bits: u64,
    count: u32,
    taken: &mut u32,
) -> u32
    requires { taken.old ≡ 0 }
    ensures { FeedsCompleted receiver.old receiver.new lane bits count result taken.new }
{
    if count > MOST_BITS {
        return OUT_OF_RANGE;
    }
    let cut = receiver.parts.cut(lane, bits, count);
    match receiver.session.feed(lane, cut.bytes()) {
        Ok(bytes) => {
            *taken = receiver.parts.settle(lane, &cut, count, bytes);
            DONE
        }
        Err(why) => code_of(why),
    }
}

/// Feeds a lane with the lowest `count` bits of a number, at most 64, the highest of them first, and writes how many are taken: all, or
/// those that complete the bytes that its ring has room for. It is `DONE`, `NO_LANE`, `FINISHED`, `TOO_MANY`, `OUT_OF_RANGE` or
/// `NO_RECEIVER`.
pub fn feed_bits(
    alloc: Global,
    receiver: &mut ReceiverHandle,
    lane: u32,
    bits: u64,
    count: u32,
    taken: &mut u32,
) -> u32
    ensures { FeedsBits receiver.old.at.session receiver.new.at.session lane bits count result taken.new }
{
    *taken = 0;
    let Some(mut there) = receiver.take(alloc) else {
        return NO_RECEIVER;
    };
    let result = feed_completed(&mut there, lane, bits, count, taken);
    receiver.put(there);
    result
}

// The result of a call that gives nothing.
fn ended(answer: Result<(), Misuse>) -> u32
    ensures { GivesCode answer result }
{
    match answer {
        Ok(()) => DONE,
        Err(why) => code_of(why),
    }
}

// Ends a lane, unless a part of a byte of it is left.
fn finish_whole(receiver: &mut BitReceiver, lane: u32) -> u32
    ensures { FinishesWhole receiver.old receiver.new lane result }
{
    let whole = receiver.parts.is_whole(lane);
    if !whole {
        return PART_BYTE;
    }
    let answer = receiver.session.finish(lane);
    ended(answer)
}

/// No further byte of this lane comes. It is `DONE`, `NO_LANE`, `FINISHED`, `PART_BYTE` if a part of a byte of the lane is left, or
/// `NO_RECEIVER`.
pub fn finish(alloc: Global, receiver: &mut ReceiverHandle, lane: u32) -> u32
    ensures { Finishes receiver.old.at.session receiver.new.at.session lane result }
{
    let Some(mut there) = receiver.take(alloc) else {
        return NO_RECEIVER;
    };
    let result = finish_whole(&mut there, lane);
    receiver.put(there);
    result
}

/// Writes the next event, or none where a lane that is not finished lacks bytes, or after the end. It is `DONE` or `NO_RECEIVER`.
pub fn next(alloc: Global, receiver: &mut ReceiverHandle, event: &mut CEvent) -> u32
    ensures { GivesEvent receiver.old.at.session receiver.new.at.session result event.new }
{
    *event = shown(None);
    let Some(mut there) = receiver.take(alloc) else {
        return NO_RECEIVER;
    };
    let next = there.session.next();
    receiver.put(there);
    *event = shown(next);
    DONE
}

/// Copies bytes of the packet that `next` gave last, from the offset on, as many as there is room for, and writes how many that
/// is. It is `DONE`, `NO_PACKET` or `NO_RECEIVER`.
pub fn read(
    alloc: Global,
    receiver: &mut ReceiverHandle,
    offset: u32,
    bytes: &mut [u8],
    count: &mut usize,
) -> u32
    ensures { Reads receiver.old.at.session receiver.new.at.session offset bytes.old bytes.new result count.new }
{
    *count = 0;
    let Some(there) = receiver.take(alloc) else {
        return NO_RECEIVER;
    };
    let answer = there.session.read(offset, bytes);
    receiver.put(there);
    counted(answer, count)
}

// The result of a call that gives a report; it is one of nothing so far.
fn reported(answer: Result<LaneReport, Misuse>, report: &mut Report) -> u32
    requires { report.old ≡ no_report }
    ensures { GivesReport answer result report.new }
{
    match answer {
        Ok(found) => {
            *report = as_report(&found);
            DONE
        }
        Err(why) => code_of(why),
    }
}

/// Writes the report of a lane over the bytes that were taken from its ring. It is `DONE`, `NO_LANE` or `NO_RECEIVER`.
pub fn report(alloc: Global, receiver: &mut ReceiverHandle, lane: u32, report: &mut Report) -> u32
    ensures { Reports receiver.old.at.session receiver.new.at.session lane result report.new }
{
    *report = no_report();
    let Some(there) = receiver.take(alloc) else {
        return NO_RECEIVER;
    };
    let answer = there.session.report(lane);
    receiver.put(there);
    reported(answer, report)
}

// The result of a call that gives a lane's state; it is 0 so far.
fn told(answer: Result<LaneState, Misuse>, state: &mut u32) -> u32
    requires { state.old ≡ 0 }
    ensures { GivesState answer result state.new }
{
    match answer {
        Ok(found) => {
            *state = state_code(found);
            DONE
        }
        Err(why) => code_of(why),
    }
}

/// Writes how far the search for the locks of a lane is after the bytes that were taken from its ring: the number of a
/// `LaneState`. It is `DONE`, `NO_LANE` or `NO_RECEIVER`.
pub fn lane_state(alloc: Global, receiver: &mut ReceiverHandle, lane: u32, state: &mut u32) -> u32
    ensures { TellsState receiver.old.at.session receiver.new.at.session lane result state.new }
{
    *state = LANE_SEARCHING;
    let Some(there) = receiver.take(alloc) else {
        return NO_RECEIVER;
    };
    let answer = there.session.lane_state(lane);
    receiver.put(there);
    told(answer, state)
}

// The result of a call that tells whether a channel is on; it is 0 so far.
fn shown_on(answer: Option<bool>, on: &mut u32) -> u32
    requires { on.old ≡ 0 }
    ensures { GivesOn answer result on.new }
{
    match answer {
        Some(state) => {
            *on = state as u32;
            DONE
        }
        None => NO_CHANNEL,
    }
}

/// Writes whether the far end's channel is on, 1 or 0, by the control words that `next` gave. It is `DONE`, `NO_CHANNEL` or
/// `NO_RECEIVER`.
pub fn is_on(alloc: Global, receiver: &mut ReceiverHandle, channel: u16, on: &mut u32) -> u32
    ensures { TellsChannel receiver.old.at.session receiver.new.at.session channel result on.new }
{
    *on = 0;
    let Some(there) = receiver.take(alloc) else {
        return NO_RECEIVER;
    };
    let answer = there.session.is_on(channel);
    receiver.put(there);
    shown_on(answer, on)
}
