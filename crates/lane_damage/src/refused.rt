//! The reasons for which a call is refused.

use std::alloc::AllocFailed;

/// The reason for which a call is refused.
#[derive(Clone, Copy, Debug, PartialEq, Eq)]
pub enum Refused {
    /// No lane has this number.
    NoLane,
    /// It names a bit that no lane has, of number 2^44 or higher.
    OutOfRange,
    /// All bits that it names have passed.
    Passed,
    /// The lane has 2^40 bytes or more, or the piece has.
    TooMany,
    /// Memory ran out.
    OutOfMemory,
}

impl<T: Drop> From<AllocFailed<T>> for Refused {
    ghost use Rattle.std.specs.Prelude.{◌≡◌};
    ghost use Rattle.lane_damage.specs.declared.refused.Refused.TheVariants as refusals;

    ghost from_gives = { λ _ e. e ≡ refusals.OutOfMemory };

    fn from(_: AllocFailed<T>) -> Refused {
        Refused::OutOfMemory
    }
}
