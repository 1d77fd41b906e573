//! The sending end of a link whose packets and rows are given while it sends: bytes of its lanes out, as they are asked for.
#![tactic(auto)]

pub mod laws;
mod row;
mod status;
mod transmitter;

pub use live_stream::{Closed, Counts, LocalRefused, Refused};
pub use status::Status;
pub use transmitter::LiveTransmitter;
