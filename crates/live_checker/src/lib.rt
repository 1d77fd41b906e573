//! The rules that a sender's words keep, told as the words come, with flow control told while they come.
// why: live_checker gives the row of empty a word later and keeps nothing for it: the checker knows the burst word right before
// a place. Faults of one word are at most 17, in a vector that is made with that room, so that no word takes memory. It
// refuses words while faults are due; so it holds at most the faults of one word.
#![tactic(auto)]

mod checker;
pub mod examples;
pub mod laws;
mod misuse;

pub use checker::LiveChecker;
pub use misuse::Misuse;
