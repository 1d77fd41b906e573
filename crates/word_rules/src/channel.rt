//! What is kept of one channel.
ghost use Rattle.std.specs.Prelude.{◌≡◌, ◌<◌, ◌^◌, Option};
ghost use Rattle.word_rules.specs.Channels.{bytes_before, channel_after, going_seen, grown, long_by, packet_seen};

use crate::burst::Burst;
use crate::placed::{burst_bytes, ends};
use control_words::ControlWord;

/// What is kept of a channel.
#[derive(Clone, Copy, Debug, PartialEq, Eq)]
pub struct ChannelState {
    /// How many Bad words had come when it last changed. What stands before a Bad word is unknown after it.
    pub since: u64,
    /// Whether its packet goes on after its last burst, if it had one.
    pub going: Option<bool>,
    /// The bytes of its packet so far, each burst counted whole, where it goes on and has at most the most bytes of a packet.
    pub packet: Option<u32>,
    /// Whether it is listed.
    pub listed: bool,
}

impl ChannelState {
    /// Whether its packet goes on after its last known burst, if it has one; `bads` Bad words came so far.
    pub fn going(self, bads: u64) -> Option<bool>
        ensures { result ≡ going_seen bads self }
    {
        if self.since == bads { self.going } else { None }
    }

    // The bytes of its packet, where that is known.
    fn packet(self, bads: u64) -> Option<u32>
        ensures { result ≡ packet_seen bads self }
    {
        if self.since == bads {
            self.packet
        } else {
            None
        }
    }

    // The bytes of its packet before the burst of this word.
    fn bytes_before(self, bads: u64, word: ControlWord) -> Option<u32>
        ensures { result ≡ bytes_before bads self word.0 }
    {
        if word.starts_packet() {
            Some(0)
        } else {
            self.packet(bads)
        }
    }

    /// The channel after a burst on it.
    pub fn after_burst(self, bads: u64, most: u32, burst: Burst) -> ChannelState
        requires { burst.size < 2 ^ 60 }
        ensures { result ≡ channel_after bads most self burst }
    {
        let before = self.bytes_before(bads, ControlWord(burst.word));
        ChannelState {
            since: bads,
            going: Some(!ends(ControlWord(burst.closer))),
            packet: grown(most, burst, before),
            listed: self.listed,
        }
    }

    /// Whether the Control word that closes the burst breaks `long`.
    pub fn breaks_long(self, bads: u64, most: u32, burst: Burst) -> bool
        requires { burst.size < 2 ^ 60 }
        ensures { result ≡ long_by bads most self burst }
    {
        let closer = ControlWord(burst.closer);
        let own = burst_bytes(burst.size, closer.end_format());
        let before = self.bytes_before(bads, ControlWord(burst.word));
        closer.is_accepted() && before.is_some_and(|bytes| (most as u64) < bytes as u64 + own)
    }
}

// The bytes of a packet with those of a burst, where it goes on and has at most the most.
fn grown(most: u32, burst: Burst, bytes: Option<u32>) -> Option<u32>
    requires { burst.size < 2 ^ 60 }
    ensures { result ≡ grown most burst bytes }
{
    match bytes {
        Some(bytes) => {
            let end = ends(ControlWord(burst.closer));
            let all = 8 * burst.size + bytes as u64;
            if !end && all <= most as u64 {
                Some(all as u32)
            } else {
                None
            }
        }
        None => None,
    }
}
