//! The call of `tx_end` that gives a lane's bytes one by one.
ghost use Rattle.std.specs.Prelude.{◌≡◌};
ghost use Rattle.tx_end.specs.Sending.{Sending, Sends};

use crate::lines::tell_no_memory;
use crate::links::link_of;
use crate::values::tell_value;
use lk_base::{Link, OutOfMemory};
use std::alloc::Global;
use std::io;
use tx_end::Transmitter;
use tx_words::{Packet, StreamSource};

// What came of a lane.
#[derive(Clone, Copy, Debug)]
struct LaneBytes {
    // How many bytes.
    count: u32,
    // A number for all of them in their order.
    digest: u32,
    // How many bytes of other lanes came before the first.
    before: u32,
}

impl LaneBytes {
    fn add(&mut self, byte: u8) {
        self.count = self.count.saturating_add(1);
        self.digest = self.digest.wrapping_mul(31).wrapping_add(byte as u32);
    }
}

// The bytes of a lane, if all lanes together have fewer than 4,000 bytes.
fn bytes_of(transmitter: &mut Transmitter, lane: u32) -> LaneBytes
    requires { (a : Sending) × Sends transmitter.old a }
{
    let mut bytes = LaneBytes {
        count: 0,
        digest: 0,
        before: 0,
    };
    for _step in 0..4000u32 {
        match transmitter.next() {
            None => return bytes,
            Some(out) => {
                if out.lane == lane {
                    bytes.add(out.byte);
                } else if bytes.count == 0 {
                    bytes.before = bytes.before.saturating_add(1);
                }
            }
        }
    }
    bytes
}

// Lane 1 of a link of two that carries a packet of 16 bytes on channel 1.
fn one_packet(alloc: Global, link: &Link) -> Result<LaneBytes, OutOfMemory>
    requires { link.now.lanes ≡ 2 }
{
    let bytes = [7; 16];
    let packets = [Packet {
        channel: 1,
        bytes: &bytes,
    }];
    let source = StreamSource::new(link.shape(), &[1], &[1], &packets, &[], &[]);
    let mut transmitter = Transmitter::new(alloc, link, &source)?;
    Ok(bytes_of(&mut transmitter, 1))
}

/// Prints the bytes of a lane whose file ends within a byte.
///
/// # Errors
///
/// What printing gave.
pub fn tell_all(rt: &HostRuntime) -> io::Result<()> {
    let name = "lane 1 of two, a byte at a time";
    let Some(link) = link_of(2, 33) else {
        return tell_value(rt, "a link within its limits", &false);
    };
    match one_packet(rt.alloc(), &link) {
        Ok(bytes) => tell_value(rt, name, &bytes),
        Err(_) => tell_no_memory(rt, name),
    }
}
