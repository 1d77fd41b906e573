//! The records of packets, put into captures that grow, and counted.
ghost use Rattle.std.specs.Prelude.{◌≡◌, ◌<◌, ◌+◌, ◌^◌, ℕ, List, get_or, length, set, Contains, Option, IfOk, OnOk};
ghost use Rattle.lk_base.specs.Limits.{longest_packet};
ghost use Rattle.lk_outside.specs.Files.{Files};
ghost use Rattle.pcap_files.specs.Written.{record_bytes};
ghost use Rattle.reassembly.specs.OutputLaws.{HasSize};
ghost use Rattle.run_stops.specs.Stops.{StopCount, StoreStops};
ghost use Rattle.run_shell.specs.Outputs.{Differ, IsOpen, Grown, more, open_names};
ghost use Rattle.receipts.specs.declared.receipt.ChannelReceipt.{ChannelReceipt as Count};
ghost use Rattle.receipts.specs.Counts.{with_packet};

use crate::channels::one_more;
use crate::receipt::ChannelReceipt;
use lk_base::OutOfMemory;
use lk_outside::Store;
use pcap_files::write_packet;
use run_shell::Outputs;
use run_stops::Stop;
use std::alloc::Global;

/// Where the record of a packet goes, and where the packet is counted.
#[derive(Clone, Copy, Debug, PartialEq, Eq)]
pub struct CapturePlace {
    /// How many outputs are ahead of the captures.
    pub ahead: u16,
    /// The number of the capture after these, and of the count, from 0.
    pub place: usize,
}

/// The record of a packet, made whole.
#[derive(Clone, Copy, Debug)]
pub struct MadeRecord<'r> {
    /// The record.
    pub bytes: &'r [u8],
    /// How many bytes the packet has.
    pub size: u64,
}

// Makes the record of a packet in a capture.
fn record_of(alloc: Global, packet: &[u8]) -> Result<Vec<u8>, OutOfMemory>
    requires { HasSize longest_packet packet.now }
    ensures { IfOk result (λ bytes. bytes.items ≡ record_bytes packet.now) }
{
    let mut bytes = Vec::new(alloc);
    write_packet(&mut bytes, packet)?;
    Ok(bytes)
}

/// Puts a record that is made into the capture at this place, after the outputs ahead, and counts its packet at the
/// place. After an error each output has a prefix of what it was given, the record among it.
pub fn put_made<S: Store>(
    alloc: Global,
    store: &mut S,
    outputs: &mut Outputs,
    counts: &mut Vec<ChannelReceipt>,
    at: CapturePlace,
    made: &MadeRecord,
) -> Result<(), Stop>
    requires count { S.faults store.old < 2 ^ 60 }
    requires place { at.place < length counts.old.items }
    requires output { at.ahead + at.place < length outputs.old }
    requires differ { Differ (open_names outputs.old) }
    requires open { (given : List (List ℕ)) × (was : Option Files) × IsOpen outputs.old given was (S.files store.old) }
    ensures names { open_names outputs.new ≡ open_names outputs.old }
    ensures cause { StopCount result (S.faults store.old) (S.faults store.new) }
    ensures stops { StoreStops (Contains (open_names outputs.old)) result }
    ensures grown { (given : List (List ℕ)) (was : Option Files) → IsOpen outputs.old given was (S.files store.old) →
        Grown outputs.old outputs.new (more given (at.ahead + at.place) made.now.bytes.now) result was (S.files store.new) }
    ensures counted { OnOk result ((d : Count) → counts.new.items ≡ set counts.old.items at.place (with_packet made.now.size (get_or counts.old.items at.place d))) }
{
    let now = one_more(counts[at.place], made.size)?;
    let output = usize::from(at.ahead) + at.place;
    outputs.put(alloc, store, output, made.bytes)?;
    counts[at.place] = now;
    Ok(())
}

/// Puts the record of a packet into the capture at this place, after the outputs ahead, and counts it at the place. After
/// an error each output has a prefix of what it was given, the record among it.
pub fn put_record<S: Store>(
    alloc: Global,
    store: &mut S,
    outputs: &mut Outputs,
    counts: &mut Vec<ChannelReceipt>,
    at: CapturePlace,
    packet: &[u8],
) -> Result<(), Stop>
    requires count { S.faults store.old < 2 ^ 60 }
    requires sized { HasSize longest_packet packet.now }
    requires place { at.place < length counts.old.items }
    requires output { at.ahead + at.place < length outputs.old }
    requires differ { Differ (open_names outputs.old) }
    requires open { (given : List (List ℕ)) × (was : Option Files) × IsOpen outputs.old given was (S.files store.old) }
    ensures names { open_names outputs.new ≡ open_names outputs.old }
    ensures cause { StopCount result (S.faults store.old) (S.faults store.new) }
    ensures stops { StoreStops (Contains (open_names outputs.old)) result }
    ensures grown { (given : List (List ℕ)) (was : Option Files) → IsOpen outputs.old given was (S.files store.old) →
        Grown outputs.old outputs.new (more given (at.ahead + at.place) (record_bytes packet.now)) result was (S.files store.new) }
    ensures counted { OnOk result ((d : Count) → counts.new.items ≡ set counts.old.items at.place (with_packet (length packet.now) (get_or counts.old.items at.place d))) }
{
    let record = record_of(alloc, packet)?;
    let made = MadeRecord {
        bytes: &record,
        size: packet.len() as u64,
    };
    put_made(alloc, store, outputs, counts, at, &made)
}
