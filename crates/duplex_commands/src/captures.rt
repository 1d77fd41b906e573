//! The captures of both ends, which grow while packets come, and what came for each channel.
ghost use Rattle.std.specs.Prelude.{◌≡◌, ◌<◌, ◌≤◌, ◌^◌, IsTrue, ℕ, List, length};
ghost use Rattle.lk_base.specs.Limits.{longest_packet};
ghost use Rattle.lk_base.specs.declared.position.Pos.{Pos};
ghost use Rattle.receive_model.specs.Events.{Setting, is_rising};
ghost use Rattle.receive_model.specs.Pieces.{Packet};
ghost use Rattle.reassembly.specs.OutputLaws.{HasSize};
ghost use Rattle.run_stops.specs.Stops.{StopCount};
ghost use Rattle.duplex.specs.declared.duplex.End.TheVariants.{A, B};
ghost use Rattle.duplex_commands.specs.Captures.{Beginning, AreKept, Keeps, Opens, more_at_a, more_at_b};

use crate::names::capture_names;
use duplex::End;
use lk_outside::Store;
use receipts::{CapturePlace, ChannelReceipt, create_headed, nothing_yet, place_of, put_record};
use run_shell::Outputs;
use run_stops::Stop;
use std::alloc::Global;

/// The captures of both ends. Each packet that is put goes on to the capture of its channel at once.
#[derive(Drop)]
pub struct Captures {
    /// The captures of end a, in order of number, and then those of end b.
    pub outputs: Outputs,
    /// What came at end a for each channel, in order of number.
    pub a: Vec<ChannelReceipt>,
    /// What came at end b for each channel, in order of number.
    pub b: Vec<ChannelReceipt>,
}

impl Captures {
    /// Creates the captures of these channels, by number, at end a and then at end b, under names that begin with `out`. Each
    /// has its header, of this link type; nothing came yet. The channels stand in order of number, each once, and are at most 1,024.
    pub fn open<S: Store>(
        alloc: Global,
        store: &mut S,
        out: &str,
        channels: &[u16],
        link_type: u32,
    ) -> Result<Captures, Stop>
        requires count { S.faults store.old < 2 ^ 60 }
        requires in_order { IsTrue (is_rising channels.now) }
        requires few { length channels.now ≤ 1024 }
        ensures cause { StopCount result (S.faults store.old) (S.faults store.new) }
        ensures opens { (setting : Setting) → setting.channels ≡ channels.now →
            Opens (record { setting = setting; link_type = link_type; out = out.now; was = S.files store.old }) result (S.files store.new) }
    {
        let a = nothing_yet(alloc, channels)?;
        let b = nothing_yet(alloc, channels)?;
        let names = capture_names(alloc, out, channels)?;
        let outputs = create_headed(alloc, store, names, link_type)?;
        Ok(Captures { outputs, a, b })
    }

    // A packet came at end a.
    fn put_a<S: Store>(
        &mut self,
        alloc: Global,
        store: &mut S,
        channel: u16,
        packet: &[u8],
    ) -> Result<(), Stop>
        requires count { S.faults store.old < 2 ^ 60 }
        requires sized { HasSize longest_packet packet.now }
        requires kept { (b : Beginning) × (got_a : List (ℕ × Packet)) × (got_b : List (ℕ × Packet)) × AreKept b got_a got_b self.old (S.files store.old) }
        ensures cause { StopCount result (S.faults store.old) (S.faults store.new) }
        ensures keeps { (b : Beginning) (got_a got_b : List (ℕ × Packet)) (first last : Pos) → AreKept b got_a got_b self.old (S.files store.old) →
            Keeps b (more_at_a A channel (record { bytes = packet.now; first = first; last = last }) got_a) got_b result self.new (S.files store.new) }
    {
        match place_of(&self.a, channel) {
            Some(place) => {
                let at = CapturePlace { ahead: 0, place };
                put_record(alloc, store, &mut self.outputs, &mut self.a, at, packet)
            }
            None => Ok(()),
        }
    }

    // A packet came at end b.
    fn put_b<S: Store>(
        &mut self,
        alloc: Global,
        store: &mut S,
        channel: u16,
        packet: &[u8],
    ) -> Result<(), Stop>
        requires count { S.faults store.old < 2 ^ 60 }
        requires sized { HasSize longest_packet packet.now }
        requires kept { (b : Beginning) × (got_a : List (ℕ × Packet)) × (got_b : List (ℕ × Packet)) × AreKept b got_a got_b self.old (S.files store.old) }
        ensures cause { StopCount result (S.faults store.old) (S.faults store.new) }
        ensures keeps { (b : Beginning) (got_a got_b : List (ℕ × Packet)) (first last : Pos) → AreKept b got_a got_b self.old (S.files store.old) →
            Keeps b got_a (more_at_b B channel (record { bytes = packet.now; first = first; last = last }) got_b) result self.new (S.files store.new) }
    {
        let ahead = self.a.len() as u16;
        match place_of(&self.b, channel) {
            Some(place) => {
                let at = CapturePlace { ahead, place };
                put_record(alloc, store, &mut self.outputs, &mut self.b, at, packet)
            }
            None => Ok(()),
        }
    }

    /// A packet came at an end, with these bytes. It is kept where its channel is one of those of the captures.
    pub fn put<S: Store>(
        &mut self,
        alloc: Global,
        store: &mut S,
        end: End,
        channel: u16,
        packet: &[u8],
    ) -> Result<(), Stop>
        requires count { S.faults store.old < 2 ^ 60 }
        requires sized { HasSize longest_packet packet.now }
        requires kept { (b : Beginning) × (got_a : List (ℕ × Packet)) × (got_b : List (ℕ × Packet)) × AreKept b got_a got_b self.old (S.files store.old) }
        ensures cause { StopCount result (S.faults store.old) (S.faults store.new) }
        ensures keeps { (b : Beginning) (got_a got_b : List (ℕ × Packet)) (first last : Pos) → AreKept b got_a got_b self.old (S.files store.old) →
            Keeps b (more_at_a end channel (record { bytes = packet.now; first = first; last = last }) got_a) (more_at_b end channel (record { bytes = packet.now; first = first; last = last }) got_b) result self.new (S.files store.new) }
    {
        match end {
            End::A => self.put_a(alloc, store, channel, packet),
            End::B => self.put_b(alloc, store, channel, packet),
        }
    }
}
