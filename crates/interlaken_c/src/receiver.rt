//! The calls on a receiver.
ghost use Rattle.c_receiver.specs.Held.{Feeds, FeedsBits, Finishes, Frees, GivesEvent, Makes, Reads, Reports, TellsChannel, TellsState};

use c_parts::{Refusal, Report};
use c_receiver::{CEvent, ReceiverHandle};
use std::alloc::Global;

/// Opens a receiver of the plan of these bytes behind a handle that has none, and writes why a plan is refused. It is `DONE`,
/// `OUT_OF_MEMORY`, `BAD_PLAN` or `IN_USE`.
#[unsafe(no_mangle)]
pub extern "C" fn interlaken_receiver_new(
    alloc: Global,
    receiver: &mut ReceiverHandle,
    plan: &[u8],
    refusal: &mut Refusal,
) -> u32
    ensures { Makes receiver.old.at.session receiver.new.at.session plan.now result refusal.new }
{
    c_receiver::new(alloc, receiver, plan, refusal)
}

/// Frees a receiver. Its handle has none afterwards. It is `DONE` or `NO_RECEIVER`.
#[unsafe(no_mangle)]
pub extern "C" fn interlaken_receiver_free(alloc: Global, receiver: &mut ReceiverHandle) -> u32
    ensures { Frees receiver.old.at.session receiver.new.at.session result }
{
    c_receiver::free(alloc, receiver)
}

/// Feeds a lane with the longest prefix of these bytes that its ring has room for, and writes how many that is. It is `DONE`, `NO_LANE`,
/// `FINISHED`, `TOO_MANY`, `PART_BYTE` if a part of a byte of the lane is left, or `NO_RECEIVER`.
#[unsafe(no_mangle)]
pub extern "C" fn interlaken_receiver_feed(
    alloc: Global,
    receiver: &mut ReceiverHandle,
    lane: u32,
    bytes: &[u8],
    taken: &mut usize,
) -> u32
    ensures { Feeds receiver.old.at.session receiver.new.at.session lane bytes.now result taken.new }
{
    c_receiver::feed(alloc, receiver, lane, bytes, taken)
}

/// Feeds a lane with the lowest `count` bits of a number, at most 64, the highest of them first, and writes how many are taken: all, or
/// those that complete the bytes that its ring has room for. It is `DONE`, `NO_LANE`, `FINISHED`, `TOO_MANY`, `OUT_OF_RANGE` or
/// `NO_RECEIVER`.
#[unsafe(no_mangle)]
pub extern "C" fn interlaken_receiver_feed_bits(
    alloc: Global,
    receiver: &mut ReceiverHandle,
    lane: u32,
    bits: u64,
    count: u32,
    taken: &mut u32,
) -> u32
    ensures { FeedsBits receiver.old.at.session receiver.new.at.session lane bits count result taken.new }
{
    c_receiver::feed_bits(alloc, receiver, lane, bits, count, taken)
}

/// No further byte of this lane comes. It is `DONE`, `NO_LANE`, `FINISHED`, `PART_BYTE` if a part of a byte of the lane is left, or
/// `NO_RECEIVER`.
#[unsafe(no_mangle)]
pub extern "C" fn interlaken_receiver_finish(
    alloc: Global,
    receiver: &mut ReceiverHandle,
    lane: u32,
) -> u32
    ensures { Finishes receiver.old.at.session receiver.new.at.session lane result }
{
    c_receiver::finish(alloc, receiver, lane)
}

/// Writes the next event, or none if a lane that is not finished lacks bytes, or after the end. It is `DONE` or `NO_RECEIVER`.
#[unsafe(no_mangle)]
pub extern "C" fn interlaken_receiver_next(
    alloc: Global,
    receiver: &mut ReceiverHandle,
    event: &mut CEvent,
) -> u32
    ensures { GivesEvent receiver.old.at.session receiver.new.at.session result event.new }
{
    c_receiver::next(alloc, receiver, event)
}

/// Copies bytes of the packet that `next` gave last, from the offset on, as many as there is room for, and writes how many that
/// is. It is `DONE`, `NO_PACKET` or `NO_RECEIVER`.
#[unsafe(no_mangle)]
pub extern "C" fn interlaken_receiver_read(
    alloc: Global,
    receiver: &mut ReceiverHandle,
    offset: u32,
    bytes: &mut [u8],
    count: &mut usize,
) -> u32
    ensures { Reads receiver.old.at.session receiver.new.at.session offset bytes.old bytes.new result count.new }
{
    c_receiver::read(alloc, receiver, offset, bytes, count)
}

/// Writes the report of a lane over the bytes that were taken from its ring. It is `DONE`, `NO_LANE` or `NO_RECEIVER`.
#[unsafe(no_mangle)]
pub extern "C" fn interlaken_receiver_report(
    alloc: Global,
    receiver: &mut ReceiverHandle,
    lane: u32,
    report: &mut Report,
) -> u32
    ensures { Reports receiver.old.at.session receiver.new.at.session lane result report.new }
{
    c_receiver::report(alloc, receiver, lane, report)
}

/// Writes how far the search for the locks of a lane is after the bytes that were taken from its ring: the number of a
/// `LaneState`. It is `DONE`, `NO_LANE` or `NO_RECEIVER`.
#[unsafe(no_mangle)]
pub extern "C" fn interlaken_receiver_lane_state(
    alloc: Global,
    receiver: &mut ReceiverHandle,
    lane: u32,
    state: &mut u32,
) -> u32
    ensures { TellsState receiver.old.at.session receiver.new.at.session lane result state.new }
{
    c_receiver::lane_state(alloc, receiver, lane, state)
}

/// Writes whether the far end's channel is on, 1 or 0, by the control words that `next` gave. It is `DONE`, `NO_CHANNEL` or
/// `NO_RECEIVER`.
#[unsafe(no_mangle)]
pub extern "C" fn interlaken_receiver_is_on(
    alloc: Global,
    receiver: &mut ReceiverHandle,
    channel: u16,
    on: &mut u32,
) -> u32
    ensures { TellsChannel receiver.old.at.session receiver.new.at.session channel result on.new }
{
    c_receiver::is_on(alloc, receiver, channel, on)
}
