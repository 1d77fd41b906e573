//! What a call is asked that it does not do.
ghost use Rattle.std.specs.Prelude.{◌≡◌};
ghost use Rattle.c_parts.specs.Misuses.{lane_misuse_by, misuse_by};

use lane_model::LANE_BYTES_LIMIT;

/// What a call is asked that it does not do.
#[derive(Clone, Copy, Debug, PartialEq, Eq)]
pub enum Misuse {
    /// There is no such lane.
    NoLane,
    /// The lane was finished before.
    Finished,
    /// The lane has 2^40 bytes or more, or the piece has.
    TooMany,
    /// The last event is no packet.
    NoPacket,
}

/// Why a lane takes no byte and no end, where these lanes are finished.
pub fn lane_misuse(finished: &[bool], lane: u32) -> Option<Misuse>
    ensures { result ≡ lane_misuse_by finished.now lane }
{
    let i = lane as usize;
    if i >= finished.len() {
        return Some(Misuse::NoLane);
    }
    if finished[i] {
        return Some(Misuse::Finished);
    }
    None
}

/// Why a lane does not take a piece of this many bytes, where it has this many.
pub fn piece_misuse(fed: usize, count: usize) -> Option<Misuse>
    ensures { result ≡ misuse_by fed count }
{
    if fed >= LANE_BYTES_LIMIT || count >= LANE_BYTES_LIMIT {
        return Some(Misuse::TooMany);
    }
    None
}
