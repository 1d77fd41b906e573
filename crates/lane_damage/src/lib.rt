//! Damage of lanes, piece by piece: flips and dark stretches of bits, counted from the first bit of each lane.
#![tactic(auto)]

mod damage;
mod lane;
pub mod laws;
mod marks;
mod refused;
mod rows;

pub use damage::Damage;
pub use marks::{clear, invert};
pub use refused::Refused;
