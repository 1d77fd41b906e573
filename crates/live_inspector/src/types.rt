use lane_events::EventKind;

/// An event of a lane.
#[derive(Clone, Copy, Debug, PartialEq, Eq)]
pub struct LiveEvent {
    /// The lane's number.
    pub lane: u32,
    /// The bit position of the word concerned: of its first bit, from the first bit of the lane on.
    pub bit: u64,
    /// Its kind.
    pub kind: EventKind,
}
