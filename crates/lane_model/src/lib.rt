//! What a lane carries: the framing of metaframes, the key, codes and running disparity, bits and bytes, striping and
//! damage, with the laws on them.
#![tactic(auto)]

mod constants;
pub mod examples;
pub mod laws;
mod role;

pub use constants::{CODE_BITS, DIAGNOSTIC, LANE_BYTES_LIMIT, SCRAMBLER_STATE, SKIP, SYNC};
pub use role::Role;
