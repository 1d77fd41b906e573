//! Damage of lanes on their way behind a handle for C, and the calls on it.
#![tactic(auto)]

mod block;
mod calls;
mod codes;
mod handle;

pub use calls::{apply, dark, flip, free, new};
pub use handle::DamageHandle;
