//! Lanes that are fed, or taken, by bits: whole bytes, and of each lane the part of a byte that is left.
#![tactic(auto)]

mod cut;
mod lane_parts;
pub mod laws;
mod part;

pub use cut::Cut;
pub use lane_parts::{Given, LaneParts};
pub use part::{MOST_BITS, Part};
