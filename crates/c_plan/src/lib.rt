//! The plan of a link for C, in calls without a handle: its numbers, its channels, and where on the lanes a word is.
#![tactic(auto)]

mod calls;
pub mod laws;
mod numbers;
mod places;

pub use calls::{channels, place, read, slot};
pub use numbers::PlanNumbers;
