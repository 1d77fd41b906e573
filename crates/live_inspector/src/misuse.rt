/// What a call is asked that it does not do.
#[derive(Clone, Copy, Debug, PartialEq, Eq)]
pub enum Misuse {
    /// There is no such lane.
    NoLane,
    /// The lane was finished before.
    Finished,
    /// The lane has 2^40 bytes or more, or the piece has.
    TooMany,
}
