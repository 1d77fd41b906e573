//! The key of a lane, and payloads under it.
#![tactic(auto)]

mod scrambler;
mod strides;

pub use scrambler::Scrambler;
