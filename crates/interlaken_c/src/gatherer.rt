//! The calls on a gatherer.
ghost use Rattle.c_gatherer.specs.Held.{Feeds, FeedsBits, Finishes, Frees, GivesNext, GivesNexts, Makes, Reports};

use c_gatherer::{CGathered, GathererHandle};
use c_parts::{Refusal, Report};
use std::alloc::Global;

/// Opens a gatherer of the lanes of the plan of these bytes behind a handle that has none, and writes why a plan is refused. It is
/// `DONE`, `OUT_OF_MEMORY`, `BAD_PLAN` or `IN_USE`.
#[unsafe(no_mangle)]
pub extern "C" fn interlaken_gatherer_new(
    alloc: Global,
    gatherer: &mut GathererHandle,
    plan: &[u8],
    refusal: &mut Refusal,
) -> u32
    ensures { Makes gatherer.old.at.gatherer gatherer.new.at.gatherer plan.now result refusal.new }
{
    c_gatherer::new(alloc, gatherer, plan, refusal)
}

/// Frees a gatherer. Its handle has none afterwards. It is `DONE` or `NO_GATHERER`.
#[unsafe(no_mangle)]
pub extern "C" fn interlaken_gatherer_free(alloc: Global, gatherer: &mut GathererHandle) -> u32
    ensures { Frees gatherer.old.at.gatherer gatherer.new.at.gatherer result }
{
    c_gatherer::free(alloc, gatherer)
}

/// Feeds a lane with the longest prefix of these bytes that its ring has room for, and writes how many that is. It is `DONE`, `NO_LANE`,
/// `FINISHED`, `TOO_MANY`, `PART_BYTE` if a part of a byte of the lane is left, or `NO_GATHERER`.
#[unsafe(no_mangle)]
pub extern "C" fn interlaken_gatherer_feed(
    alloc: Global,
    gatherer: &mut GathererHandle,
    lane: u32,
    bytes: &[u8],
    taken: &mut usize,
) -> u32
    ensures { Feeds gatherer.old.at.gatherer gatherer.new.at.gatherer lane bytes.now result taken.new }
{
    c_gatherer::feed(alloc, gatherer, lane, bytes, taken)
}

/// Feeds a lane with the lowest `count` bits of a number, at most 64, the highest of them first, and writes how many are taken: all, or
/// those that complete the bytes that its ring has room for. It is `DONE`, `NO_LANE`, `FINISHED`, `TOO_MANY`, `OUT_OF_RANGE` or
/// `NO_GATHERER`.
#[unsafe(no_mangle)]
pub extern "C" fn interlaken_gatherer_feed_bits(
    alloc: Global,
    gatherer: &mut GathererHandle,
    lane: u32,
    bits: u64,
    count: u32,
    taken: &mut u32,
) -> u32
    ensures { FeedsBits gatherer.old.at.gatherer gatherer.new.at.gatherer lane bits count result taken.new }
{
    c_gatherer::feed_bits(alloc, gatherer, lane, bits, count, taken)
}

/// No further byte of this lane comes. It is `DONE`, `NO_LANE`, `FINISHED`, `PART_BYTE` if a part of a byte of the lane is left, or
/// `NO_GATHERER`.
#[unsafe(no_mangle)]
pub extern "C" fn interlaken_gatherer_finish(
    alloc: Global,
    gatherer: &mut GathererHandle,
    lane: u32,
) -> u32
    ensures { Finishes gatherer.old.at.gatherer gatherer.new.at.gatherer lane result }
{
    c_gatherer::finish(alloc, gatherer, lane)
}

/// Writes the next word or break, the end, or none if a lane that is not finished lacks bytes, or after the end. It is `DONE` or
/// `NO_GATHERER`.
#[unsafe(no_mangle)]
pub extern "C" fn interlaken_gatherer_next(
    alloc: Global,
    gatherer: &mut GathererHandle,
    given: &mut CGathered,
) -> u32
    ensures { GivesNext gatherer.old.at.gatherer gatherer.new.at.gatherer result given.new }
{
    c_gatherer::next(alloc, gatherer, given)
}

/// Writes words and breaks and the end, as `next` writes each: as many as there is room for, or up to the first none. Writes how many
/// these are. It is `DONE` or `NO_GATHERER`.
#[unsafe(no_mangle)]
pub extern "C" fn interlaken_gatherer_words(
    alloc: Global,
    gatherer: &mut GathererHandle,
    out: &mut [CGathered],
    count: &mut usize,
) -> u32
    ensures { GivesNexts gatherer.old.at.gatherer gatherer.new.at.gatherer out.old out.new result count.new }
{
    c_gatherer::words(alloc, gatherer, out, count)
}

/// Writes the report of a lane over the bytes that were taken from its ring. It is `DONE`, `NO_LANE` or `NO_GATHERER`.
#[unsafe(no_mangle)]
pub extern "C" fn interlaken_gatherer_report(
    alloc: Global,
    gatherer: &mut GathererHandle,
    lane: u32,
    report: &mut Report,
) -> u32
    ensures { Reports gatherer.old.at.gatherer gatherer.new.at.gatherer lane result report.new }
{
    c_gatherer::report(alloc, gatherer, lane, report)
}
