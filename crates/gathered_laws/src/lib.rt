//! The laws on words without their first ones: of the stream of a source, and of what `gather` writes of the lanes that carry a stream.
#![tactic(auto)]

pub mod laws;
pub mod outcomes;
