//! A checker of a sender's words behind a handle for C, and the calls on it.
#![tactic(auto)]

mod block;
mod calls;
mod codes;
mod fault;
mod handle;
mod many;

pub use calls::{finish, flow, free, new, next, word, words};
pub use fault::CFault;
pub use handle::CheckerHandle;
pub use many::CWord;
