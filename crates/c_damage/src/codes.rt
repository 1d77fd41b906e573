//! The results of calls that are refused.
ghost use Rattle.std.specs.Prelude.{◌≡◌};
ghost use Rattle.c_damage.specs.Codes.{damage_code};

use c_parts::codes::{NO_LANE, OUT_OF_MEMORY, OUT_OF_RANGE, PASSED, TOO_MANY};
use lane_damage::Refused;

/// The result of a call on damage that is refused.
pub fn damage_code(why: Refused) -> u32
    ensures { result ≡ damage_code why }
{
    match why {
        Refused::NoLane => NO_LANE,
        Refused::OutOfRange => OUT_OF_RANGE,
        Refused::Passed => PASSED,
        Refused::TooMany => TOO_MANY,
        Refused::OutOfMemory => OUT_OF_MEMORY,
    }
}
