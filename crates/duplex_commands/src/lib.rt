//! The command of two ends that hold each other back: what it reads, and what it makes of that.
#![tactic(auto)]

mod back;
mod captures;
mod command;
pub mod laws;
mod lending;
mod names;
mod reading;
mod settings_file;
mod shared_plan;
mod slots;
mod text;
mod write;

pub use command::DuplexFile;
pub use reading::{DuplexInputs, read_duplex_inputs};
