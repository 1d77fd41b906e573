//! The state of a lane of a transmitter, as C sees it.
ghost use Rattle.std.specs.Prelude.{◌≡◌};
ghost use Rattle.c_transmitter.specs.Held.{as_status, no_status};

use live_end::Status;

/// The state of a lane of a transmitter, and what is left to send.
#[repr(C)]
#[derive(Clone, Copy)]
pub struct CStatus {
    /// The bytes of the lane that were made and not taken.
    pub waiting: u64,
    /// The packets of all channels that were given and whose last burst was not sent, or the most that 64 bits can say.
    pub left: u64,
    /// 1 if the lanes have ended, so that no byte more is made, and otherwise 0.
    pub ended: u32,
    /// 1 if some lane has so many bytes that wait that no word is made before some of them are taken, and otherwise 0.
    pub held: u32,
}

/// The status of no lane.
pub fn no_status() -> CStatus
    ensures { result ≡ no_status }
{
    CStatus {
        waiting: 0,
        left: 0,
        ended: 0,
        held: 0,
    }
}

/// The status of a lane, as C sees it.
pub fn as_status(status: Status) -> CStatus
    ensures { result ≡ as_status status }
{
    CStatus {
        waiting: status.waiting,
        left: status.left,
        ended: status.ended as u32,
        held: status.held as u32,
    }
}
