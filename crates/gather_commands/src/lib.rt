//! The command that gathers: the lanes of a plan become the words file of their words, and a table of where their groups and breaks
//! stand.
// why: gather and inspect read lanes while they write, as receive does. Their maker would need a step that asks for bytes, and
// what it gave would be stated for the files that it read.
#![tactic(auto)]

mod files;
mod front_words;
mod gather;
mod gathered;
mod gatherer;
mod lanes;
pub mod laws;
mod open_lanes;
mod table;

pub use gather::Gather;
