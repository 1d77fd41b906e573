//! The calls on a transmitter.
ghost use Rattle.c_transmitter.specs.Held.{ClosesPackets, ClosesTransmitter, FreesTransmitter, GivesFlow, GivesLocal, GivesPacket, MakesTransmitter, TakesBits, TakesBytes, TellsSent, TellsSlots, TellsStatus};

use c_parts::Refusal;
use c_transmitter::{CCounts, CStatus, TransmitterHandle};
use std::alloc::Global;

/// Opens a transmitter of the plan of these bytes behind a handle that has none, and writes why a plan is refused. It is `DONE`,
/// `OUT_OF_MEMORY`, `BAD_PLAN` or `IN_USE`.
#[unsafe(no_mangle)]
pub extern "C" fn interlaken_transmitter_new(
    alloc: Global,
    transmitter: &mut TransmitterHandle,
    plan: &[u8],
    refusal: &mut Refusal,
) -> u32
    ensures { MakesTransmitter transmitter.old.at.transmitter transmitter.new.at.transmitter plan.now result refusal.new }
{
    c_transmitter::new(alloc, transmitter, plan, refusal)
}

/// Frees a transmitter. Its handle has none afterwards. It is `DONE` or `NO_TRANSMITTER`.
#[unsafe(no_mangle)]
pub extern "C" fn interlaken_transmitter_free(
    alloc: Global,
    transmitter: &mut TransmitterHandle,
) -> u32
    ensures { FreesTransmitter transmitter.old.at.transmitter transmitter.new.at.transmitter result }
{
    c_transmitter::free(alloc, transmitter)
}

/// Gives a packet, with its bytes copied. It is `DONE`, `OUT_OF_MEMORY`, `FINISHED`, `TOO_MANY`, `NO_CHANNEL`, `BAD_LENGTH` or
/// `NO_TRANSMITTER`.
#[unsafe(no_mangle)]
pub extern "C" fn interlaken_transmitter_packet(
    alloc: Global,
    transmitter: &mut TransmitterHandle,
    channel: u16,
    bytes: &[u8],
) -> u32
    ensures { GivesPacket transmitter.old.at.transmitter transmitter.new.at.transmitter channel bytes.now result }
{
    c_transmitter::packet(alloc, transmitter, channel, bytes)
}

/// Gives a control word of the far end that was verified: its checksum may cover data before it. It is `DONE`, `FINISHED` or
/// `NO_TRANSMITTER`.
#[unsafe(no_mangle)]
pub extern "C" fn interlaken_transmitter_flow(
    alloc: Global,
    transmitter: &mut TransmitterHandle,
    word: u64,
) -> u32
    ensures { GivesFlow transmitter.old.at.transmitter transmitter.new.at.transmitter word result }
{
    c_transmitter::flow(alloc, transmitter, word)
}

/// Says whether the far end may send on a channel: it may if `on` is not 0. It is `DONE`, `FINISHED`, `NO_CHANNEL` or
/// `NO_TRANSMITTER`.
#[unsafe(no_mangle)]
pub extern "C" fn interlaken_transmitter_local(
    alloc: Global,
    transmitter: &mut TransmitterHandle,
    channel: u16,
    on: u32,
) -> u32
    ensures { GivesLocal transmitter.old.at.transmitter transmitter.new.at.transmitter channel on result }
{
    c_transmitter::local(alloc, transmitter, channel, on)
}

/// Takes the next bytes of a lane, as many as there is room for if no other lane holds them back, and writes how many that is. It is
/// `DONE`, `NO_LANE`, `PART_BYTE` if a part of a byte of the lane is left, or `NO_TRANSMITTER`.
#[unsafe(no_mangle)]
pub extern "C" fn interlaken_transmitter_take(
    alloc: Global,
    transmitter: &mut TransmitterHandle,
    lane: u32,
    bytes: &mut [u8],
    taken: &mut usize,
) -> u32
    ensures { TakesBytes transmitter.old.at.transmitter transmitter.new.at.transmitter lane bytes.old bytes.new result taken.new }
{
    c_transmitter::take(alloc, transmitter, lane, bytes, taken)
}

/// Takes the next `count` bits of a lane, 64 at most, or fewer if a ring has no room or the lanes have ended. Writes them as a number,
/// the first bit highest, and how many they are. It is `DONE`, `NO_LANE`, `OUT_OF_RANGE` or `NO_TRANSMITTER`.
#[unsafe(no_mangle)]
pub extern "C" fn interlaken_transmitter_take_bits(
    alloc: Global,
    transmitter: &mut TransmitterHandle,
    lane: u32,
    count: u32,
    bits: &mut u64,
    taken: &mut u32,
) -> u32
    ensures { TakesBits transmitter.old.at.transmitter transmitter.new.at.transmitter lane count result bits.new taken.new }
{
    c_transmitter::take_bits(alloc, transmitter, lane, count, bits, taken)
}

/// No further packet comes. It is `DONE` or `NO_TRANSMITTER`.
#[unsafe(no_mangle)]
pub extern "C" fn interlaken_transmitter_close(
    alloc: Global,
    transmitter: &mut TransmitterHandle,
) -> u32
    ensures { ClosesPackets transmitter.old.at.transmitter transmitter.new.at.transmitter result }
{
    c_transmitter::close(alloc, transmitter)
}

/// No further packet and no further row comes. It is `DONE` or `NO_TRANSMITTER`.
#[unsafe(no_mangle)]
pub extern "C" fn interlaken_transmitter_finish(
    alloc: Global,
    transmitter: &mut TransmitterHandle,
) -> u32
    ensures { ClosesTransmitter transmitter.old.at.transmitter transmitter.new.at.transmitter result }
{
    c_transmitter::finish(alloc, transmitter)
}

/// Writes what was given to a channel and what was sent of it. It is `DONE`, `NO_CHANNEL` or `NO_TRANSMITTER`.
#[unsafe(no_mangle)]
pub extern "C" fn interlaken_transmitter_sent(
    alloc: Global,
    transmitter: &mut TransmitterHandle,
    channel: u16,
    counts: &mut CCounts,
) -> u32
    ensures { TellsSent transmitter.old.at.transmitter transmitter.new.at.transmitter channel result counts.new }
{
    c_transmitter::sent(alloc, transmitter, channel, counts)
}

/// Writes how many payload words were made. It is `DONE` or `NO_TRANSMITTER`.
#[unsafe(no_mangle)]
pub extern "C" fn interlaken_transmitter_slots(
    alloc: Global,
    transmitter: &mut TransmitterHandle,
    slots: &mut u64,
) -> u32
    ensures { TellsSlots transmitter.old.at.transmitter transmitter.new.at.transmitter result slots.new }
{
    c_transmitter::slots(alloc, transmitter, slots)
}

/// Writes the state of a lane, and what is left to send. It is `DONE`, `NO_LANE` or `NO_TRANSMITTER`.
#[unsafe(no_mangle)]
pub extern "C" fn interlaken_transmitter_status_of(
    alloc: Global,
    transmitter: &mut TransmitterHandle,
    lane: u32,
    status: &mut CStatus,
) -> u32
    ensures { TellsStatus transmitter.old.at.transmitter transmitter.new.at.transmitter lane result status.new }
{
    c_transmitter::status_of(alloc, transmitter, lane, status)
}
