//! The slots of a run: packets arrive, and are put into captures that grow.
ghost use Rattle.std.specs.Prelude.{◌≡◌, ◌<◌, ◌^◌, ℕ, List, length, IfOk, OnOk};
ghost use Rattle.lk_base.specs.Limits.{longest_packet};
ghost use Rattle.lk_base.specs.declared.position.Pos.{Pos};
ghost use Rattle.receive_model.specs.Pieces.{Packet};
ghost use Rattle.reassembly.specs.OutputLaws.{HasSize};
ghost use Rattle.duplex_model.specs.DuplexRun.{Ends, Settings};
ghost use Rattle.duplex.specs.Duplexes.{IsGiven, Lends, lent_bytes};
ghost use Rattle.run_stops.specs.Stops.{StopCount};
ghost use Rattle.duplex_commands.specs.Captures.{Beginning, AreKept, Keeps, more_at_a, more_at_b};
ghost use Rattle.duplex_commands.specs.Slots.{IsAt, Takes};

use crate::captures::Captures;
use duplex::{Duplex, Got};
use lk_base::OutOfMemory;
use lk_outside::Store;
use run_stops::Stop;
use std::alloc::Global;

// The bytes of the packet that is lent.
fn lent_packet(alloc: Global, duplex: &Duplex, size: u32) -> Result<Vec<u8>, OutOfMemory>
    requires lends { Lends duplex.now }
    requires tells { size ≡ length (lent_bytes duplex.now) }
    ensures { IfOk result (λ bytes. bytes.items ≡ lent_bytes duplex.now) }
{
    let mut bytes = vec![in alloc; 0u8; size as usize]?;
    duplex.packet_read(0, &mut bytes);
    Ok(bytes)
}

// A packet arrived.
fn take_packet<S: Store>(
    alloc: Global,
    store: &mut S,
    captures: &mut Captures,
    duplex: &Duplex,
    got: Got,
) -> Result<(), Stop>
    requires count { S.faults store.old < 2 ^ 60 }
    requires lends { Lends duplex.now }
    requires tells { got.length ≡ length (lent_bytes duplex.now) }
    requires sized { HasSize longest_packet (lent_bytes duplex.now) }
    requires kept { (b : Beginning) × (got_a : List (ℕ × Packet)) × (got_b : List (ℕ × Packet)) × AreKept b got_a got_b captures.old (S.files store.old) }
    ensures cause { StopCount result (S.faults store.old) (S.faults store.new) }
    ensures keeps { (b : Beginning) (got_a got_b : List (ℕ × Packet)) (first last : Pos) → AreKept b got_a got_b captures.old (S.files store.old) →
        Keeps b (more_at_a got.end got.channel (record { bytes = lent_bytes duplex.now; first = first; last = last }) got_a) (more_at_b got.end got.channel (record { bytes = lent_bytes duplex.now; first = first; last = last }) got_b) result captures.new (S.files store.new) }
{
    let bytes = lent_packet(alloc, duplex, got.length)?;
    captures.put(alloc, store, got.end, got.channel, &bytes)
}

// Takes all packets that arrived in a slot.
fn take_packets<S: Store>(
    alloc: Global,
    store: &mut S,
    captures: &mut Captures,
    duplex: &mut Duplex,
) -> Result<(), Stop>
    requires count { S.faults store.old < 2 ^ 60 }
    requires at { (b : Beginning) × (settings : Settings) × (ends : Ends) × (slots : ℕ) × IsAt b settings ends slots duplex.old captures.old (S.files store.old) }
    ensures cause { StopCount result (S.faults store.old) (S.faults store.new) }
    ensures given { OnOk result (IsGiven duplex.new) }
    ensures takes { (b : Beginning) (settings : Settings) (ends : Ends) (slots : ℕ) → IsAt b settings ends slots duplex.old captures.old (S.files store.old) →
        Takes b settings ends slots result duplex.new captures.new (S.files store.new) }
{
    while let Some(got) = duplex.next() {
        take_packet(alloc, store, captures, duplex, got)?;
    }
    Ok(())
}

/// Does this many slots from the first on, and puts the packets that arrive into the captures, slot by slot. It takes no memory by
/// the slot.
pub fn run_slots<S: Store>(
    alloc: Global,
    store: &mut S,
    captures: &mut Captures,
    duplex: &mut Duplex,
    slots: u32,
) -> Result<(), Stop>
    requires count { S.faults store.old < 2 ^ 60 }
    requires few { slots < 2 ^ 24 }
    requires given { IsGiven duplex.old }
    requires at { (b : Beginning) × (settings : Settings) × (ends : Ends) × IsAt b settings ends 0 duplex.old captures.old (S.files store.old) }
    ensures cause { StopCount result (S.faults store.old) (S.faults store.new) }
    ensures given { OnOk result (IsGiven duplex.new) }
    ensures takes { (b : Beginning) (settings : Settings) (ends : Ends) → IsAt b settings ends 0 duplex.old captures.old (S.files store.old) →
        Takes b settings ends slots result duplex.new captures.new (S.files store.new) }
{
    let mut slot = 0;
    while slot < slots {
        duplex.slot();
        take_packets(alloc, store, captures, duplex)?;
        slot += 1;
    }
    Ok(())
}
