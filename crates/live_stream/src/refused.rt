use lk_base::OutOfMemory;
use thiserror::Error;

/// Why a packet is not accepted. Nothing has changed then.
#[derive(Clone, Copy, Debug, PartialEq, Eq, Error)]
pub enum Refused {
    /// The packets were closed before, or the stream.
    #[error("the packets were closed")]
    Closed,
    /// The channel is not listed.
    #[error("the channel is not listed")]
    UnknownChannel,
    /// The packet has no bytes.
    #[error("the packet is empty")]
    Empty,
    /// The packet has more bytes than the longest that is accepted.
    #[error("the packet is too long")]
    TooLong,
    /// The channel would be given more than `MOST_BYTES` bytes.
    #[error("the channel was given too many bytes")]
    TooMuch,
    /// Memory ran out.
    #[error("out of memory")]
    OutOfMemory,
}

impl From<OutOfMemory> for Refused {
    ghost use Rattle.std.specs.Prelude.{◌≡◌};
    ghost use Rattle.live_stream.specs.declared.refused.Refused.TheVariants as refused;

    ghost from_gives = { λ _ e. e ≡ refused.OutOfMemory };

    fn from(_: OutOfMemory) -> Refused {
        Refused::OutOfMemory
    }
}

/// Why a state of this end's own is not accepted. Nothing has changed then.
#[derive(Clone, Copy, Debug, PartialEq, Eq, Error)]
pub enum LocalRefused {
    /// The stream was closed before.
    #[error("the stream was closed")]
    Closed,
    /// The channel is not listed.
    #[error("the channel is not listed")]
    UnknownChannel,
}

/// The stream was closed, so that no row is accepted.
#[derive(Clone, Copy, Debug, PartialEq, Eq, Error)]
#[error("the stream was closed")]
pub struct Closed;
