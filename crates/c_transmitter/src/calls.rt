//! The calls on a transmitter.
ghost use Rattle.std.specs.Prelude.{◌≡◌, ◌≤◌, ◌<◌, IfOk, IfErr, length};
ghost use Rattle.c_bits.specs.Bits.{no_parts};
ghost use Rattle.c_parts.specs.Refusals.{IsRefused};
ghost use Rattle.c_transmitter.specs.Held.{AreGiven, ClosesPackets, ClosesTransmitter, FreesTransmitter, GivesCounts, GivesFlow, GivesLocal, GivesLocalResult, GivesPacket, GivesPacketResult, GivesRowResult, GivesStatus, IsSenderOf, IsMade, IsSenderOfPlan, MakesTransmitter, TakesBits, TakesBytes, TakesCompleted, TakesOf, TakesWhole, TellsSent, TellsSlots, TellsStatus, no_counts, no_status};

use crate::bit_transmitter::BitTransmitter;
use crate::codes::{local_code, packet_code};
use crate::counts::{CCounts, as_counts, no_counts};
use crate::handle::TransmitterHandle;
use crate::status::{CStatus, as_status, no_status};
use c_bits::{Given, MOST_BITS};
use c_parts::codes::{
    DONE, FINISHED, IN_USE, NO_CHANNEL, NO_LANE, NO_TRANSMITTER, OUT_OF_RANGE, PART_BYTE, plan_code,
};
use c_parts::refusal::{Refusal, no_refusal, refusal_of};
use link_plan::{Plan, PlanError, channels_in_order, read_plan};
use live_end::{Closed, Counts, LiveTransmitter, LocalRefused, Refused, Status};
use lk_base::OutOfMemory;
use std::alloc::Global;

// A transmitter of a plan.
fn transmitter_of(alloc: Global, plan: &Plan) -> Result<LiveTransmitter, OutOfMemory>
    ensures { IfOk result (IsSenderOf plan.now) }
{
    let channels = channels_in_order(alloc, &plan.channels)?;
    let transmitter = LiveTransmitter::new(
        alloc,
        &plan.link,
        plan.shape(),
        &channels,
        &plan.entries,
    )?;
    Ok(transmitter)
}

// A transmitter of the plan of these bytes.
fn opened(alloc: Global, plan: &[u8]) -> Result<LiveTransmitter, PlanError>
    ensures made { IfOk result (IsSenderOfPlan plan.now) }
    ensures refused { IfErr result (IsRefused plan.now) }
{
    let plan = read_plan(alloc, plan)?;
    let transmitter = transmitter_of(alloc, &plan)?;
    Ok(transmitter)
}

// A transmitter in a box, with no part of a byte.
fn in_box(alloc: Global, end: LiveTransmitter) -> Result<Box<BitTransmitter, Global>, OutOfMemory>
    ensures end { IfOk result (λ b. b.value.end ≡ end) }
    ensures whole { IfOk result (λ b. b.value.parts ≡ no_parts) }
{
    let held = Box::new(alloc, BitTransmitter::of(end))?;
    Ok(held)
}

// A transmitter of the plan of these bytes, in a box.
fn boxed(alloc: Global, plan: &[u8]) -> Result<Box<BitTransmitter, Global>, PlanError>
    ensures made { IfOk result (λ b. IsMade plan.now b.value) }
    ensures refused { IfErr result (IsRefused plan.now) }
{
    let transmitter = opened(alloc, plan)?;
    let held = in_box(alloc, transmitter)?;
    Ok(held)
}

/// Opens a transmitter of the plan of these bytes behind a handle that has none, and writes why a plan is refused. It is `DONE`,
/// `OUT_OF_MEMORY`, `BAD_PLAN` or `IN_USE`.
pub fn new(
    alloc: Global,
    transmitter: &mut TransmitterHandle,
    plan: &[u8],
    refusal: &mut Refusal,
) -> u32
    ensures { MakesTransmitter transmitter.old.at.transmitter transmitter.new.at.transmitter plan.now result refusal.new }
{
    *refusal = no_refusal();
    if let Some(there) = transmitter.take(alloc) {
        transmitter.put(there);
        return IN_USE;
    }
    match boxed(alloc, plan) {
        Ok(made) => {
            transmitter.put(made);
            DONE
        }
        Err(why) => {
            *refusal = refusal_of(why);
            plan_code(why)
        }
    }
}

/// Frees a transmitter. Its handle has none afterwards. It is `DONE` or `NO_TRANSMITTER`.
pub fn free(alloc: Global, transmitter: &mut TransmitterHandle) -> u32
    ensures { FreesTransmitter transmitter.old.at.transmitter transmitter.new.at.transmitter result }
{
    match transmitter.take(alloc) {
        Some(_) => DONE,
        None => NO_TRANSMITTER,
    }
}

// The result of a call that gives a packet.
fn packet_ended(answer: Result<(), Refused>) -> u32
    ensures { GivesPacketResult answer result }
{
    match answer {
        Ok(()) => DONE,
        Err(why) => packet_code(why),
    }
}

/// Gives a packet, with its bytes copied. It is `DONE`, `OUT_OF_MEMORY`, `FINISHED`, `TOO_MANY`, `NO_CHANNEL`, `BAD_LENGTH` or
/// `NO_TRANSMITTER`.
pub fn packet(alloc: Global, transmitter: &mut TransmitterHandle, channel: u16, bytes: &[u8]) -> u32
    ensures { GivesPacket transmitter.old.at.transmitter transmitter.new.at.transmitter channel bytes.now result }
{
    let Some(mut there) = transmitter.take(alloc) else {
        return NO_TRANSMITTER;
    };
    let answer = there.end.packet(channel, bytes);
    transmitter.put(there);
    packet_ended(answer)
}

// The result of a call that gives a flow row.
fn row_ended(answer: Result<(), Closed>) -> u32
    ensures { GivesRowResult answer result }
{
    match answer {
        Ok(()) => DONE,
        Err(_) => FINISHED,
    }
}

/// Gives a control word of the far end that was verified: its checksum may cover data before it. It is `DONE`, `FINISHED` or
/// `NO_TRANSMITTER`.
pub fn flow(alloc: Global, transmitter: &mut TransmitterHandle, word: u64) -> u32
    ensures { GivesFlow transmitter.old.at.transmitter transmitter.new.at.transmitter word result }
{
    let Some(mut there) = transmitter.take(alloc) else {
        return NO_TRANSMITTER;
    };
    let answer = there.end.hear(word);
    transmitter.put(there);
    row_ended(answer)
}

// The result of a call that gives a state of this end's own.
fn local_ended(answer: Result<(), LocalRefused>) -> u32
    ensures { GivesLocalResult answer result }
{
    match answer {
        Ok(()) => DONE,
        Err(why) => local_code(why),
    }
}

/// Says whether the far end may send on a channel: it may if `on` is not 0. It is `DONE`, `FINISHED`, `NO_CHANNEL` or
/// `NO_TRANSMITTER`.
pub fn local(alloc: Global, transmitter: &mut TransmitterHandle, channel: u16, on: u32) -> u32
    ensures { GivesLocal transmitter.old.at.transmitter transmitter.new.at.transmitter channel on result }
{
    let Some(mut there) = transmitter.take(alloc) else {
        return NO_TRANSMITTER;
    };
    let answer = there.end.local(channel, on != 0);
    transmitter.put(there);
    local_ended(answer)
}

// Takes the next bytes of a lane, if it is there; none are taken so far.
fn take_of(transmitter: &mut LiveTransmitter, lane: u32, bytes: &mut [u8], taken: &mut usize) -> u32
    requires { taken.old ≡ 0 }
    ensures { TakesOf transmitter.old transmitter.new lane bytes.old bytes.new result taken.new }
{
    if lane as usize >= transmitter.lane_count() {
        return NO_LANE;
    }
    *taken = transmitter.take(lane, bytes);
    DONE
}

// Takes the next bytes of a lane, unless a part of a byte of it is left; none are taken so far.
fn take_whole(
    transmitter: &mut BitTransmitter,
    lane: u32,
    bytes: &mut [u8],
    taken: &mut usize,
) -> u32
    requires { taken.old ≡ 0 }
    ensures { TakesWhole transmitter.old transmitter.new lane bytes.old bytes.new result taken.new }
{
    let whole = transmitter.parts.is_whole(lane);
    if !whole {
        return PART_BYTE;
    }
    take_of(&mut transmitter.end, lane, bytes, taken)
}

/// Takes the next bytes of a lane, as many as there is room for if no other lane holds them back, and writes how many that is. It is
/// `DONE`, `NO_LANE`, `PART_BYTE` if a part of a byte of the lane is left, or `NO_TRANSMITTER`.
pub fn take(
    alloc: Global,
    transmitter: &mut TransmitterHandle,
    lane: u32,
    bytes: &mut [u8],
    taken: &mut usize,
) -> u32
    ensures { TakesBytes transmitter.old.at.transmitter transmitter.new.at.transmitter lane bytes.old bytes.new result taken.new }
{
    *taken = 0;
    let Some(mut there) = transmitter.take(alloc) else {
        return NO_TRANSMITTER;
    };
    let result = take_whole(&mut there, lane, bytes, taken);
    transmitter.put(there);
    result
}

// Takes the next bits of a lane that is there, 64 at most.
fn take_there(transmitter: &mut BitTransmitter, lane: u32, count: u32) -> Given
    requires count { count ≤ 64 }
    requires there { lane < length transmitter.old.end.lanes.lanes }
    ensures { AreGiven transmitter.old transmitter.new lane count result.bits result.count }
{
    let room = transmitter.parts.bytes_for(lane, count);
    let mut eight = [0u8; 8];
    let bytes = &mut eight[..room];
    let came = transmitter.end.take(lane, bytes);
    transmitter.parts.give(lane, &bytes[..came], count)
}

// Takes the next bits of a lane, if it is there; none are taken so far.
fn take_completed(
    transmitter: &mut BitTransmitter,
    lane: u32,
    count: u32,
    bits: &mut u64,
    taken: &mut u32,
) -> u32
    requires bits { bits.old ≡ 0 }
    requires taken { taken.old ≡ 0 }
    ensures { TakesCompleted transmitter.old transmitter.new lane count result bits.new taken.new }
{
    if count > MOST_BITS {
        return OUT_OF_RANGE;
    }
    if lane as usize >= transmitter.end.lane_count() {
        return NO_LANE;
    }
    let given = take_there(transmitter, lane, count);
    *bits = given.bits;
    *taken = given.count;
    DONE
}

/// Takes the next `count` bits of a lane, 64 at most, or fewer if a ring has no room or the lanes have ended. Writes them as a number,
/// the first bit highest, and how many they are. It is `DONE`, `NO_LANE`, `OUT_OF_RANGE` or `NO_TRANSMITTER`.
pub fn take_bits(
    alloc: Global,
    transmitter: &mut TransmitterHandle,
    lane: u32,
    count: u32,
    bits: &mut u64,
    taken: &mut u32,
) -> u32
    ensures { TakesBits transmitter.old.at.transmitter transmitter.new.at.transmitter lane count result bits.new taken.new }
{
    *bits = 0;
    *taken = 0;
    let Some(mut there) = transmitter.take(alloc) else {
        return NO_TRANSMITTER;
    };
    let result = take_completed(&mut there, lane, count, bits, taken);
    transmitter.put(there);
    result
}

/// No further packet comes. It is `DONE` or `NO_TRANSMITTER`.
pub fn close(alloc: Global, transmitter: &mut TransmitterHandle) -> u32
    ensures { ClosesPackets transmitter.old.at.transmitter transmitter.new.at.transmitter result }
{
    let Some(mut there) = transmitter.take(alloc) else {
        return NO_TRANSMITTER;
    };
    there.end.close_packets();
    transmitter.put(there);
    DONE
}

/// No further packet and no further row comes. It is `DONE` or `NO_TRANSMITTER`.
pub fn finish(alloc: Global, transmitter: &mut TransmitterHandle) -> u32
    ensures { ClosesTransmitter transmitter.old.at.transmitter transmitter.new.at.transmitter result }
{
    let Some(mut there) = transmitter.take(alloc) else {
        return NO_TRANSMITTER;
    };
    there.end.finish();
    transmitter.put(there);
    DONE
}

// The result of a call that gives the counts of a channel; all are 0 so far.
fn counted(answer: Option<Counts>, counts: &mut CCounts) -> u32
    requires { counts.old ≡ no_counts }
    ensures { GivesCounts answer result counts.new }
{
    match answer {
        Some(found) => {
            *counts = as_counts(found);
            DONE
        }
        None => NO_CHANNEL,
    }
}

/// Writes what was given to a channel and what was sent of it. It is `DONE`, `NO_CHANNEL` or `NO_TRANSMITTER`.
pub fn sent(
    alloc: Global,
    transmitter: &mut TransmitterHandle,
    channel: u16,
    counts: &mut CCounts,
) -> u32
    ensures { TellsSent transmitter.old.at.transmitter transmitter.new.at.transmitter channel result counts.new }
{
    *counts = no_counts();
    let Some(there) = transmitter.take(alloc) else {
        return NO_TRANSMITTER;
    };
    let answer = there.end.counts(channel);
    transmitter.put(there);
    counted(answer, counts)
}

/// Writes how many payload words were made. It is `DONE` or `NO_TRANSMITTER`.
pub fn slots(alloc: Global, transmitter: &mut TransmitterHandle, slots: &mut u64) -> u32
    ensures { TellsSlots transmitter.old.at.transmitter transmitter.new.at.transmitter result slots.new }
{
    *slots = 0;
    let Some(there) = transmitter.take(alloc) else {
        return NO_TRANSMITTER;
    };
    *slots = there.end.slots();
    transmitter.put(there);
    DONE
}

// The result of a call that gives the status of a lane; all is 0 so far.
fn stands(answer: Option<Status>, status: &mut CStatus) -> u32
    requires { status.old ≡ no_status }
    ensures { GivesStatus answer result status.new }
{
    match answer {
        Some(found) => {
            *status = as_status(found);
            DONE
        }
        None => NO_LANE,
    }
}

/// Writes the state of a lane, and what is left to send. It is `DONE`, `NO_LANE` or `NO_TRANSMITTER`.
pub fn status_of(
    alloc: Global,
    transmitter: &mut TransmitterHandle,
    lane: u32,
    status: &mut CStatus,
) -> u32
    ensures { TellsStatus transmitter.old.at.transmitter transmitter.new.at.transmitter lane result status.new }
{
    *status = no_status();
    let Some(there) = transmitter.take(alloc) else {
        return NO_TRANSMITTER;
    };
    let answer = there.end.status(lane);
    transmitter.put(there);
    stands(answer, status)
}
