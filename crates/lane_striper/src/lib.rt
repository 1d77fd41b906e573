//! Which words of a stream go to which lane, both ways.
#![tactic(auto)]

pub mod laws;
mod lists;
mod places;

pub use lists::{gather, stripe};
pub use places::{lane_of, number_of, place_of};
