//! What C holds: a transmitter, with the parts of bytes of its lanes.
ghost use Rattle.std.specs.Prelude.{◌≡◌};
ghost use Rattle.c_bits.specs.Bits.{no_parts};

use c_bits::LaneParts;
use live_end::LiveTransmitter;

/// A transmitter whose lanes may be taken by bits, with the part of a byte of each lane that was made and not given.
#[derive(Drop)]
pub struct BitTransmitter {
    pub end: LiveTransmitter,
    pub parts: LaneParts,
}

impl BitTransmitter {
    /// No lane has a part of a byte.
    pub fn of(end: LiveTransmitter) -> BitTransmitter
        ensures end { result.end ≡ end }
        ensures whole { result.parts ≡ no_parts }
    {
        BitTransmitter {
            end,
            parts: LaneParts::new(),
        }
    }
}
