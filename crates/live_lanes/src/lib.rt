//! The lanes of a link as they are sent, one word of each at a time, and their bytes until they are taken.
#![tactic(auto)]

mod columns;
mod lane;
pub mod laws;
mod live;

pub use live::LiveLanes;
