//! The calls of `lane_lock` and `deskew` that take a bit or a tick at a time.
ghost use Rattle.std.specs.Prelude.{◌≡◌, ◌+◌, ◌<◌, ◌^◌, true, IfOk, OnOk};
ghost use Rattle.lock_model.specs.Low.{is_low};

use crate::framing::next;
use crate::lines::tell_no_memory;
use crate::links::link_of;
use crate::values::tell_value;
use arrayvec::ArrayVec;
use coding_67b::Encoder;
use deskew::Deskew;
use lane_lock::{LaneLock, LaneStep};
use lk_base::{Aligned, Link, OutOfMemory};
use metaframe::MetaframeWriter;
use std::alloc::Global;
use std::io;

// One lane, and what was given of its bits.
#[derive(Drop)]
struct OneLane {
    lock: LaneLock,
    deskew: Deskew,
    items: Vec<Aligned>,
}

// No bit was taken.
fn no_bits(alloc: Global, link: &Link) -> Result<OneLane, OutOfMemory>
    ensures taken { IfOk result (λ lane. lane.lock.taken ≡ 0) }
    ensures settled { IfOk result (λ lane. lane.deskew.settled ≡ true) }
    ensures settings { IfOk result (λ lane. lane.deskew.settings ≡ link.now) }
{
    let lock = LaneLock::new(alloc, link)?;
    let deskew = Deskew::new(alloc, link)?;
    Ok(OneLane {
        lock,
        deskew,
        items: Vec::new(alloc),
    })
}

// Takes all items that are known.
fn take_items(deskew: &mut Deskew, items: &mut Vec<Aligned>) -> Result<(), OutOfMemory>
    ensures settled { OnOk result (deskew.new.settled ≡ true) }
    ensures settings { deskew.new.settings ≡ deskew.old.settings }
{
    while let Some(item) = deskew.next() {
        items.push(item)?;
    }
    Ok(())
}

// Takes a step of the only lane, and then all items that are known.
fn take_tick(
    deskew: &mut Deskew,
    items: &mut Vec<Aligned>,
    step: LaneStep,
) -> Result<(), OutOfMemory>
    requires settled { deskew.old.settled ≡ true }
    requires lanes { deskew.old.settings.lanes ≡ 1 }
    requires low { is_low step }
    ensures settled { OnOk result (deskew.new.settled ≡ true) }
    ensures settings { deskew.new.settings ≡ deskew.old.settings }
{
    let mut steps = ArrayVec::new();
    steps.push(step);
    deskew.tick(&steps);
    take_items(deskew, items)
}

// Takes the bits of a code.
fn take_code(lane: &mut OneLane, code: u128) -> Result<(), OutOfMemory>
    requires few { lane.old.lock.taken < 2 ^ 58 }
    requires settled { lane.old.deskew.settled ≡ true }
    requires lanes { lane.old.deskew.settings.lanes ≡ 1 }
    ensures taken { OnOk result (lane.new.lock.taken ≡ lane.old.lock.taken + 67) }
    ensures settled { OnOk result (lane.new.deskew.settled ≡ true) }
    ensures settings { lane.new.deskew.settings ≡ lane.old.deskew.settings }
{
    for i in 0..67u32 {
        let step = lane.lock.bit(code >> (66 - i) & 1 == 1);
        take_tick(&mut lane.deskew, &mut lane.items, step)?;
    }
    Ok(())
}

// Takes the bits of nine metaframes of idle words.
fn take_nine(lane: &mut OneLane, link: &Link) -> Result<(), OutOfMemory>
    requires few { lane.old.lock.taken ≡ 0 }
    requires settled { lane.old.deskew.settled ≡ true }
    requires lanes { lane.old.deskew.settings.lanes ≡ 1 }
    ensures settled { OnOk result (lane.new.deskew.settled ≡ true) }
    ensures settings { lane.new.deskew.settings ≡ lane.old.deskew.settings }
{
    let mut writer = MetaframeWriter::new(link, 0);
    let mut encoder = Encoder::new();
    for word in 0..288u32 {
        let code = encoder.encode(next(&mut writer));
        take_code(lane, code)?;
    }
    Ok(())
}

// How many items nine metaframes of idle words give, the first of them, and the one that the lane's end gives.
fn nine(
    alloc: Global,
    link: &Link,
) -> Result<(usize, Option<Aligned>, Option<Aligned>), OutOfMemory>
    requires { link.now.lanes ≡ 1 }
{
    let mut lane = no_bits(alloc, link)?;
    take_nine(&mut lane, link)?;
    let before = lane.items.len();
    take_tick(&mut lane.deskew, &mut lane.items, LaneStep::Ended)?;
    let first = lane.items.first().copied();
    let end = lane.items.get(before).copied();
    Ok((before, first, end))
}

/// Prints what ticks of one lane give.
///
/// # Errors
///
/// What printing gave.
pub fn tell_all(rt: &HostRuntime) -> io::Result<()> {
    let name = "ticks of nine metaframes";
    let Some(link) = link_of(1, 32) else {
        return tell_value(rt, "a link within its limits", &false);
    };
    match nine(rt.alloc(), &link) {
        Ok(items) => tell_value(rt, name, &items),
        Err(_) => tell_no_memory(rt, name),
    }
}
