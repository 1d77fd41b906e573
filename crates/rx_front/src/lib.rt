//! The front of a receiver of the lanes of a link: it takes their bytes in whatever pieces and order they come, and gives their
//! words, groups and breaks in one order.
#![tactic(auto)]

mod batch;
mod block;
mod fed_lane;
mod front;
mod lanes;
mod shown;
mod steps;

pub use front::Front;
