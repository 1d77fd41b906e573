//! The calls on an inspector.
ghost use Rattle.c_inspector.specs.Held.{Feeds, FeedsBits, Finishes, Frees, GivesEvent, Makes, Reports};

use c_inspector::{CLaneEvent, InspectorHandle};
use c_parts::{Refusal, Report};
use std::alloc::Global;

/// Opens an inspector of the lanes of the plan of these bytes behind a handle that has none, and writes why a plan is refused. It is
/// `DONE`, `OUT_OF_MEMORY`, `BAD_PLAN` or `IN_USE`.
#[unsafe(no_mangle)]
pub extern "C" fn interlaken_inspector_new(
    alloc: Global,
    inspector: &mut InspectorHandle,
    plan: &[u8],
    refusal: &mut Refusal,
) -> u32
    ensures { Makes inspector.old.at.inspector inspector.new.at.inspector plan.now result refusal.new }
{
    c_inspector::new(alloc, inspector, plan, refusal)
}

/// Frees an inspector. Its handle has none afterwards. It is `DONE` or `NO_INSPECTOR`.
#[unsafe(no_mangle)]
pub extern "C" fn interlaken_inspector_free(alloc: Global, inspector: &mut InspectorHandle) -> u32
    ensures { Frees inspector.old.at.inspector inspector.new.at.inspector result }
{
    c_inspector::free(alloc, inspector)
}

/// Takes the first of these bytes of a lane, up to a word that shows events, and writes how many: none, while events of the lane are due.
/// It is `DONE`, `NO_LANE`, `FINISHED`, `TOO_MANY`, `PART_BYTE` if a part of a byte of the lane is left, or `NO_INSPECTOR`.
#[unsafe(no_mangle)]
pub extern "C" fn interlaken_inspector_feed(
    alloc: Global,
    inspector: &mut InspectorHandle,
    lane: u32,
    bytes: &[u8],
    taken: &mut usize,
) -> u32
    ensures { Feeds inspector.old.at.inspector inspector.new.at.inspector lane bytes.now result taken.new }
{
    c_inspector::feed(alloc, inspector, lane, bytes, taken)
}

/// Feeds a lane with the lowest `count` bits of a number, at most 64, the highest of them first, and writes how many are taken: all, or
/// those that complete the bytes that are taken. It is `DONE`, `NO_LANE`, `FINISHED`, `TOO_MANY`, `OUT_OF_RANGE` or
/// `NO_INSPECTOR`.
#[unsafe(no_mangle)]
pub extern "C" fn interlaken_inspector_feed_bits(
    alloc: Global,
    inspector: &mut InspectorHandle,
    lane: u32,
    bits: u64,
    count: u32,
    taken: &mut u32,
) -> u32
    ensures { FeedsBits inspector.old.at.inspector inspector.new.at.inspector lane bits count result taken.new }
{
    c_inspector::feed_bits(alloc, inspector, lane, bits, count, taken)
}

/// No further byte of this lane comes. It is `DONE`, `NO_LANE`, `FINISHED`, `PART_BYTE` if a part of a byte of the lane is left, or
/// `NO_INSPECTOR`.
#[unsafe(no_mangle)]
pub extern "C" fn interlaken_inspector_finish(
    alloc: Global,
    inspector: &mut InspectorHandle,
    lane: u32,
) -> u32
    ensures { Finishes inspector.old.at.inspector inspector.new.at.inspector lane result }
{
    c_inspector::finish(alloc, inspector, lane)
}

/// Writes the next event that is due, of the lowest lane first, or none if none is due. It is `DONE` or `NO_INSPECTOR`.
#[unsafe(no_mangle)]
pub extern "C" fn interlaken_inspector_next(
    alloc: Global,
    inspector: &mut InspectorHandle,
    event: &mut CLaneEvent,
) -> u32
    ensures { GivesEvent inspector.old.at.inspector inspector.new.at.inspector result event.new }
{
    c_inspector::next(alloc, inspector, event)
}

/// Writes the report of a lane over the bytes that were taken of it. It is `DONE`, `NO_LANE` or `NO_INSPECTOR`.
#[unsafe(no_mangle)]
pub extern "C" fn interlaken_inspector_report(
    alloc: Global,
    inspector: &mut InspectorHandle,
    lane: u32,
    report: &mut Report,
) -> u32
    ensures { Reports inspector.old.at.inspector inspector.new.at.inspector lane result report.new }
{
    c_inspector::report(alloc, inspector, lane, report)
}
