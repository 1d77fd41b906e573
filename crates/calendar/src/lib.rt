//! The calendar of flow control: which channels the far end turned off, and what this end tells of its own.
#![tactic(auto)]

mod change;
mod incoming;
mod outgoing;
mod worded;

pub use change::Change;
pub use incoming::CalendarIn;
pub use outgoing::CalendarOut;
pub use worded::{flow_word, valid_word, verified_word};
