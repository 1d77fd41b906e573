//! The laws on the rules of a sender's words: the payload stream of a source breaks none of them, and words that break none are received
//! whole.
#![tactic(auto)]

pub mod laws;
