//! The words of aligned lanes in one order, and where their groups and breaks stand among them.
#![tactic(auto)]

pub mod laws;
mod places;
mod words;

pub use places::PlaceRow;
pub use words::words_bytes;
