//! The command that judges words: `check` tells the faults of a sender's words, by the rules, in a table.
// why: check judges 512 words at a time and then gives their rows to its output, so that memory stays flat in the number of
// faults.
#![tactic(auto)]

mod check;
mod fault_maker;
mod inputs;
pub mod laws;
mod pass;
mod table;
mod tally;

pub use check::Check;
