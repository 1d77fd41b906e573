//! What C holds: a gatherer, with the parts of bytes of its lanes.
ghost use Rattle.std.specs.Prelude.{◌≡◌};
ghost use Rattle.c_bits.specs.Bits.{no_parts};

use c_bits::LaneParts;
use live_gatherer::LiveGatherer;

/// A gatherer whose lanes may be fed by bits, with the part of a byte of each lane that it has not taken.
#[derive(Drop)]
pub struct BitGatherer {
    pub lanes: LiveGatherer,
    pub parts: LaneParts,
}

impl BitGatherer {
    /// No lane has a part of a byte.
    pub fn of(lanes: LiveGatherer) -> BitGatherer
        ensures lanes { result.lanes ≡ lanes }
        ensures whole { result.parts ≡ no_parts }
    {
        BitGatherer {
            lanes,
            parts: LaneParts::new(),
        }
    }
}
