//! The packets of both ends, lent to a run.
ghost use Rattle.std.specs.Prelude.{◌≡◌, ◌+◌, ◌<◌, ◌≤◌, ◌^◌, ℕ, List, All, Contains, IfOk, OnOk, length, sum_by};
ghost use Rattle.lk_base.specs.declared.shape.Shape.{Shape};
ghost use Rattle.link_plan.specs.Listing.{numbers_of, channels_in_order};
ghost use Rattle.duplex_model.specs.DuplexRun.{Ends, Settings as RunSettings};
ghost use Rattle.duplex.specs.Duplexes.{Waits, KeepsInboxes, empty_ends, packet_added, packets_of as sent_by};
ghost use Rattle.duplex.specs.declared.duplex.End.TheVariants.{A, B};
ghost use Rattle.plan_inputs.specs.Inputs.{on_channel};
ghost use Rattle.plan_inputs.specs.Values.{packets_of, packet_values, size_of, AreOn};
ghost use Rattle.duplex_commands.specs.Values.{duplex_reading};
ghost use Rattle.duplex_commands.specs.Loaded.{FitEnds, IsLoaded, all_added};
ghost use Rattle.duplex_commands.specs.Run.{AreOfBytes};

use crate::reading::DuplexInputs;
use duplex::{BothEnds, Duplex, End, Settings};
use duplex_plan::DuplexPlan;
use lk_base::OutOfMemory;
use plan_inputs::CapturePackets;
use std::alloc::Global;

// Lends a packet, which an end sends after those that it has. Its bytes are below 256, by their type.
fn lend_packet<'a>(
    duplex: &mut Duplex<'a>,
    end: End,
    channel: u16,
    packet: &'a [u8],
) -> Result<(), OutOfMemory>
    requires waits { (settings : RunSettings) × (ends : Ends) × Waits duplex.old settings ends × Contains ends.channels channel × (sum_by (λ (p : ℕ × List ℕ). length p.1) (sent_by ends end) < 2 ^ 40) }
    requires low { 1 ≤ length packet.now }
    requires high { length packet.now ≤ 262144 }
    ensures ok { OnOk result ((settings : RunSettings) (ends : Ends) → Waits duplex.old settings ends → Waits duplex.new settings (packet_added ends end channel packet.now)) }
    ensures inboxes { KeepsInboxes duplex.old duplex.new }
    ensures bytes { All (λ byte. byte < 256) packet.now }
{
    duplex.packet(end, channel, packet)
}

// Lends the packets of a capture, which an end sends after those that it has.
fn lend<'a>(
    duplex: &mut Duplex<'a>,
    end: End,
    capture: &'a CapturePackets,
) -> Result<(), OutOfMemory>
    requires { (settings : RunSettings) × (ends : Ends) × Waits duplex.old settings ends × AreOn ends.channels (on_channel capture.now.channel (packets_of capture.now)) × (size_of (sent_by ends end) + size_of (on_channel capture.now.channel (packets_of capture.now)) < 2 ^ 40) }
    ensures waits { OnOk result ((settings : RunSettings) (ends : Ends) → Waits duplex.old settings ends → Waits duplex.new settings (all_added ends end (on_channel capture.now.channel (packets_of capture.now)))) }
    ensures inboxes { KeepsInboxes duplex.old duplex.new }
    ensures bytes { OnOk result (AreOfBytes (on_channel capture.now.channel (packets_of capture.now))) }
{
    for number in 0..capture.count() {
        lend_packet(duplex, end, capture.channel, capture.packet(number))?;
    }
    Ok(())
}

// Lends the packets of captures, which an end sends.
fn lend_all<'a>(
    duplex: &mut Duplex<'a>,
    end: End,
    captures: &'a [CapturePackets],
) -> Result<(), OutOfMemory>
    requires { (settings : RunSettings) × (ends : Ends) × Waits duplex.old settings ends × AreOn ends.channels (packet_values captures.now) × (size_of (sent_by ends end) + size_of (packet_values captures.now) < 2 ^ 40) }
    ensures waits { OnOk result ((settings : RunSettings) (ends : Ends) → Waits duplex.old settings ends → Waits duplex.new settings (all_added ends end (packet_values captures.now))) }
    ensures inboxes { KeepsInboxes duplex.old duplex.new }
    ensures bytes { OnOk result (AreOfBytes (packet_values captures.now)) }
{
    for capture in captures {
        lend(duplex, end, capture)?;
    }
    Ok(())
}

// Lends the packets of both ends to a run that has none.
fn lend_both<'a>(duplex: &mut Duplex<'a>, inputs: &'a DuplexInputs) -> Result<(), OutOfMemory>
    requires { (settings : RunSettings) × (shape : Shape) × (channels : List ℕ) × (entries : List ℕ) × Waits duplex.old settings (empty_ends shape channels entries) × FitEnds channels (packet_values inputs.now.packets_of_a.items) (packet_values inputs.now.packets_of_b.items) }
    ensures waits { OnOk result ((settings : RunSettings) (ends : Ends) → Waits duplex.old settings ends → Waits duplex.new settings (all_added (all_added ends A (packet_values inputs.now.packets_of_a.items)) B (packet_values inputs.now.packets_of_b.items))) }
    ensures inboxes { OnOk result (KeepsInboxes duplex.old duplex.new) }
    ensures bytes_of_a { OnOk result (AreOfBytes (packet_values inputs.now.packets_of_a.items)) }
    ensures bytes_of_b { OnOk result (AreOfBytes (packet_values inputs.now.packets_of_b.items)) }
{
    lend_all(duplex, End::A, &inputs.packets_of_a)?;
    lend_all(duplex, End::B, &inputs.packets_of_b)?;
    Ok(())
}

// The settings of a run, without its slots.
fn settings_of(settings: &DuplexPlan) -> Settings
    ensures delay { result.delay ≡ settings.now.delay }
    ensures mark { result.mark ≡ settings.now.mark }
    ensures drain { result.drain ≡ settings.now.drain }
{
    Settings {
        delay: settings.delay,
        mark: settings.mark,
        drain: settings.drain,
    }
}

/// The run of what was read, before its first slot, with the packets of both ends. The channels are those of the plan in order of
/// number.
pub fn loaded<'a>(
    alloc: Global,
    inputs: &'a DuplexInputs,
    channels: &[u16],
) -> Result<Duplex<'a>, OutOfMemory>
    requires channels { channels.now ≡ channels_in_order (numbers_of inputs.now.plan.channels.items) }
    requires fit { FitEnds (numbers_of inputs.now.plan.channels.items) (packet_values inputs.now.packets_of_a.items) (packet_values inputs.now.packets_of_b.items) }
    ensures { IfOk result (IsLoaded (duplex_reading inputs.now)) }
{
    let ends = BothEnds {
        shape: inputs.plan.shape(),
        channels,
        entries: &inputs.plan.entries,
        max_packet: inputs.plan.link.max_packet(),
        wide: inputs.plan.wide,
    };
    let mut duplex = Duplex::new(alloc, &ends, settings_of(&inputs.settings))?;
    lend_both(&mut duplex, inputs)?;
    Ok(duplex)
}
