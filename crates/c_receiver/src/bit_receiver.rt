//! What C holds: a receiver, with the parts of bytes of its lanes.
ghost use Rattle.std.specs.Prelude.{◌≡◌};
ghost use Rattle.c_bits.specs.Bits.{no_parts};

use c_bits::LaneParts;
use live_receiver::Session;

/// A receiver whose lanes may be fed by bits, with the part of a byte of each lane that it has not taken.
#[derive(Drop)]
pub struct BitReceiver {
    pub session: Session,
    pub parts: LaneParts,
}

impl BitReceiver {
    /// No lane has a part of a byte.
    pub fn of(session: Session) -> BitReceiver
        ensures session { result.session ≡ session }
        ensures whole { result.parts ≡ no_parts }
    {
        BitReceiver {
            session,
            parts: LaneParts::new(),
        }
    }
}
