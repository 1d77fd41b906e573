//! A gatherer of the lanes of a link behind a handle for C, and the calls on it.
#![tactic(auto)]

mod bit_gatherer;
mod block;
mod calls;
mod codes;
mod gathered;
mod handle;
mod many;

pub use calls::{feed, feed_bits, finish, free, new, next, report, words};
pub use gathered::CGathered;
pub use handle::GathererHandle;
