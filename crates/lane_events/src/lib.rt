//! The events of one lane: what is wrong with the words that its locks cover, and that locks are declared and lost. An inspector shows
//! them as the bytes of the lane arrive.
#![tactic(auto)]

mod balance;
mod due_events;
pub mod examples;
mod inspector;
pub mod laws;
mod told;
mod types;
mod windows;
mod word_events;

pub use due_events::DueEvents;
pub use inspector::LaneInspector;
pub use types::{EventKind, LaneEvent};
pub use word_events::WordEvents;
