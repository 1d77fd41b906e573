//! An inspector of the lanes of a link behind a handle for C, and the calls on it.
#![tactic(auto)]

mod bit_inspector;
mod block;
mod calls;
mod codes;
mod event;
mod handle;

pub use calls::{feed, feed_bits, finish, free, new, next, report};
pub use event::CLaneEvent;
pub use handle::InspectorHandle;
