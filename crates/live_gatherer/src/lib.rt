//! The words of the aligned lanes of a link, told as the bytes of the lanes come: each with its place, its number among all words, and
//! the lane and the bit at which its code begins.
#![tactic(auto)]

mod gatherer;
mod items;
pub mod laws;
mod misuse;
mod numbering;
mod taker;
mod types;

pub use gatherer::LiveGatherer;
pub use lock_model::LaneReport;
pub use misuse::Misuse;
pub use numbering::Numbering;
pub use taker::Taker;
pub use types::{Gathered, GatheredBreak, GatheredWord};
