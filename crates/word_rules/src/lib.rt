//! The rules that a sender's words keep: what each says of a list of words.
#![tactic(auto)]

mod before;
mod burst;
mod channel;
mod channels;
mod checker;
mod control_rows;
mod due;
mod fault;
mod flow;
pub mod laws;
mod limits;
mod placed;
mod plan;
mod rows;
mod rule;

pub use checker::{Checker, check};
pub use fault::Fault;
pub use limits::WordLimits;
pub use plan::WordPlan;
pub use rule::WordRule;
