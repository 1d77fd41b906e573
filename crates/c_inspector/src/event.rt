//! An event of a lane as C sees it.
ghost use Rattle.std.specs.Prelude.{◌≡◌};
ghost use Rattle.c_inspector.specs.Shown.{shown as shown_of};

use crate::codes::kind_code;
use c_parts::codes::NO_LANE_EVENT;
use live_inspector::LiveEvent;

/// An event of a lane, or none. If there is none, all is 0.
#[repr(C)]
#[derive(Clone, Copy)]
pub struct CLaneEvent {
    /// The number of an `EventKind`, from 1 on, or `NO_LANE_EVENT`.
    pub kind: u32,
    /// The lane's number.
    pub lane: u32,
    /// The bit position of the first bit of the word concerned.
    pub bit: u64,
}

/// An event as C sees it.
pub fn shown(event: Option<LiveEvent>) -> CLaneEvent
    ensures { result ≡ shown_of event }
{
    match event {
        Some(event) => CLaneEvent {
            kind: kind_code(event.kind),
            lane: event.lane,
            bit: event.bit,
        },
        None => CLaneEvent {
            kind: NO_LANE_EVENT,
            lane: 0,
            bit: 0,
        },
    }
}
