ghost use Rattle.std.specs.Prelude.{◌≡◌, ℕ, ◌+◌, ◌^◌, ◌≤◌, ◌<◌, length, IfOk, OnOk};
ghost use Rattle.duplex.specs.Duplexes.{IsGiven};
ghost use Rattle.word_calls.specs.Calls.{IsReady, IsRunning};

use crate::lines::tell_no_memory;
use duplex::{BothEnds, Duplex, End, Settings};
use lk_base::{OutOfMemory, Shape};
use std::alloc::Global;
use std::io;

// What came at an end.
#[derive(Clone, Copy)]
struct Came {
    packets: u64,
    bytes: u64,
}

impl Came {
    fn add(&mut self, bytes: u32) {
        self.packets = self.packets.saturating_add(1);
        self.bytes = self.bytes.saturating_add(bytes as u64);
    }
}

// Channel 1 on one lane with metaframes of 32 words, without packets.
fn two_ends<'a>(alloc: Global, settings: Settings) -> Result<Duplex<'a>, OutOfMemory>
    ensures { IfOk result (IsReady 0) }
{
    let shape = Shape {
        burst_max: 256,
        burst_short: 64,
        burst_min: 0,
        group: 28,
        warmup: 4,
    };
    let ends = BothEnds {
        shape,
        channels: &[1],
        entries: &[1],
        max_packet: 262_144,
        wide: false,
    };
    Duplex::new(alloc, &ends, settings)
}

// A packet that end a sends.
fn add<'a>(duplex: &mut Duplex<'a>, packet: &'a [u8]) -> Result<(), OutOfMemory>
    requires ready { (total : ℕ) × IsReady total duplex.old × (total < 2 ^ 30) }
    requires low { 1 ≤ length packet.now }
    requires high { length packet.now ≤ 262144 }
    ensures { OnOk result ((total : ℕ) → IsReady total duplex.old → IsReady (total + length packet.now) duplex.new) }
{
    duplex.packet(End::A, 1, packet)
}

// Takes the packets that arrived in a slot.
fn take(duplex: &mut Duplex, at_a: &mut Came, at_b: &mut Came)
    requires { (n : ℕ) × IsRunning duplex.old n }
    ensures { (n : ℕ) → IsRunning duplex.old n → IsRunning duplex.new n × IsGiven duplex.new }
{
    while let Some(got) = duplex.next() {
        match got.end {
            End::A => at_a.add(got.length),
            End::B => at_b.add(got.length),
        }
    }
}

// Does this many slots, and counts what came.
fn run(duplex: &mut Duplex, slots: u32) -> (Came, Came)
    requires ready { (total : ℕ) × IsReady total duplex.old }
    requires few { slots < 2 ^ 24 }
    ensures { IsRunning duplex.new slots }
{
    let mut at_a = Came {
        packets: 0,
        bytes: 0,
    };
    let mut at_b = Came {
        packets: 0,
        bytes: 0,
    };
    for _slot in 0..slots {
        duplex.slot();
        take(duplex, &mut at_a, &mut at_b);
    }
    (at_a, at_b)
}

fn tell(rt: &HostRuntime, duplex: &mut Duplex, slots: u32) -> io::Result<()>
    requires ready { (total : ℕ) × IsReady total duplex.old }
    requires few { slots < 2 ^ 24 }
{
    let (at_a, at_b) = run(duplex, slots);
    let peak_a = duplex.peak(End::A, 1);
    let peak_b = duplex.peak(End::B, 1);
    let queue_a = duplex.queue(End::A, 1);
    let queue_b = duplex.queue(End::B, 1);
    println!(rt;
        "end a channel=1 packets={} bytes={} peak={peak_a} queue={queue_a}",
        at_a.packets, at_a.bytes
    )?;
    println!(rt;
        "end b channel=1 packets={} bytes={} peak={peak_b} queue={queue_b}",
        at_b.packets, at_b.bytes
    )?;
    println!(rt; "slots {slots}")
}

// Three packets of 256 bytes, whose queue loses a word in 1,024 slots.
fn three_packets<'a>(alloc: Global, packet: &'a [u8]) -> Result<Duplex<'a>, OutOfMemory>
    requires { length packet.now ≡ 256 }
    ensures { IfOk result (IsReady 768) }
{
    let settings = Settings {
        delay: 10,
        mark: 8,
        drain: 1024,
    };
    let mut duplex = two_ends(alloc, settings)?;
    add(&mut duplex, packet)?;
    add(&mut duplex, packet)?;
    add(&mut duplex, packet)?;
    Ok(duplex)
}

/// Three packets on a channel whose queue is drained too slowly, so that the second burst waits.
pub fn tell_all(rt: &HostRuntime) -> io::Result<()> {
    match three_packets(rt.alloc(), &[7; 256]) {
        Ok(mut duplex) => tell(rt, &mut duplex, 400),
        Err(_) => tell_no_memory(rt, "two ends"),
    }
}
