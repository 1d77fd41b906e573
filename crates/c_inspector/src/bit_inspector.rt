//! What C holds: an inspector, with the parts of bytes of its lanes.
ghost use Rattle.std.specs.Prelude.{◌≡◌};
ghost use Rattle.c_bits.specs.Bits.{no_parts};

use c_bits::LaneParts;
use live_inspector::LiveInspector;

/// An inspector whose lanes may be fed by bits, with the part of a byte of each lane that it has not taken.
#[derive(Drop)]
pub struct BitInspector {
    pub lanes: LiveInspector,
    pub parts: LaneParts,
}

impl BitInspector {
    /// No lane has a part of a byte.
    pub fn of(lanes: LiveInspector) -> BitInspector
        ensures lanes { result.lanes ≡ lanes }
        ensures whole { result.parts ≡ no_parts }
    {
        BitInspector {
            lanes,
            parts: LaneParts::new(),
        }
    }
}
