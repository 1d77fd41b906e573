//! A receiver of the lanes of a link behind a handle for C, and the calls on it.
#![tactic(auto)]

mod bit_receiver;
mod block;
mod calls;
mod event;
mod handle;

pub use calls::{feed, feed_bits, finish, free, is_on, lane_state, new, next, read, report};
pub use event::CEvent;
pub use handle::ReceiverHandle;
