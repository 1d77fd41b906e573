ghost use Rattle.std.specs.Prelude.{◌≡◌, length};
ghost use Rattle.tx_words.specs.SentLaw.{EachHasBytes};
ghost use Rattle.tx_words.specs.Sources.{source_by, IsKept};

use crate::packet::Packet;
use lk_base::Shape;
use std::marker::Model;
use stream_model::{FlowRow, LocalRow};

// why: A stream is made of a StreamSource (shape, channels, calendar, packets, rows) and not of a plan: burst of one capture
// has no plan, and its group of one word is not a link's. StreamSource::new asks once what its parts must meet; all
// packets together have fewer than 2⁴⁰ bytes. The transmitter lists packets by numbers of 32 bits, so it also asks for
// fewer than 2³² of them. It asks for a source whose shape is the link's except for BurstMin, which is the plan's and not
// the link's.
/// The packets and rows of a stream, lent, with the numbers that shape it. A contract sees it as the source of the stream.
#[derive(Drop)]
pub struct StreamSource<'a> {
    pub(crate) shape: Shape,
    pub(crate) channels: &'a [u16],
    pub(crate) entries: &'a [u16],
    pub(crate) packets: &'a [Packet<'a>],
    pub(crate) flow: &'a [FlowRow],
    pub(crate) local: &'a [LocalRow],
}

impl<'a> Model for StreamSource<'a> {
    ghost use Rattle.std.specs.Prelude.{◌≤◌, All};
    ghost use Rattle.stream_model.specs.BurstStream.{Source};
    ghost use Rattle.tx_words.specs.Sources.{source_by, IsKept};

    ghost Value = { Source };

    ghost view = { λ s. source_by s.shape s.channels.now s.entries.now s.packets.now s.flow.now s.local.now };

    ghost invariant = { λ s. IsKept s.channels.now s.entries.now s.packets.now s.flow.now s.local.now × All (λ c. c ≤ 65535) s.channels.now };
}

impl<'a> StreamSource<'a> {
    /// The channels are those that are listed, 1 to 1,024 different numbers, and the entries are those of the calendar, 1 to
    /// 1,024 listed channels. Each packet is on a listed channel and has 1 to 262,144 bytes, together fewer than 2^40; those
    /// of one channel are sent in their order. The flow rows are what the far end says of its channels, at slots of at most
    /// 16,777,215, and the local rows are this end's own states. Each list of rows is in order of slot, and rows of one slot
    /// count in their order.
    pub fn new(
        shape: Shape,
        channels: &'a [u16],
        entries: &'a [u16],
        packets: &'a [Packet<'a>],
        flow: &'a [FlowRow],
        local: &'a [LocalRow],
    ) -> StreamSource<'a>
        requires { IsKept channels.now entries.now packets.now flow.now local.now }
        ensures { result ≡ source_by shape channels.now entries.now packets.now flow.now local.now }
    {
        StreamSource {
            shape,
            channels,
            entries,
            packets,
            flow,
            local,
        }
    }

    /// How many packets there are. Each has a byte.
    pub fn packet_count(&self) -> usize
        ensures count { result ≡ length self.now.packets }
        ensures bytes { EachHasBytes self.now }
    {
        self.packets.len()
    }
}
