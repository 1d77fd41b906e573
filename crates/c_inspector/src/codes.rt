//! The numbers of misuses and of kinds of events.
ghost use Rattle.std.specs.Prelude.{◌≡◌};
ghost use Rattle.c_inspector.specs.Codes.{kind_code, misuse_code};

use c_parts::codes::{FINISHED, NO_LANE, TOO_MANY};
use live_inspector::{EventKind, Misuse};

/// The result of a misuse.
pub fn misuse_code(why: Misuse) -> u32
    ensures { result ≡ misuse_code why }
{
    match why {
        Misuse::NoLane => NO_LANE,
        Misuse::Finished => FINISHED,
        Misuse::TooMany => TOO_MANY,
    }
}

/// The number of a kind of event.
pub fn kind_code(kind: EventKind) -> u32
    ensures { result ≡ kind_code kind }
{
    kind as u32 + 1
}
