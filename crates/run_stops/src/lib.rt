//! Why the work of a command stops, each cause with its line, and inputs read whole or in pieces.
// why: If a call of the store runs out of memory, which counts as no fault, the run stops with status 6.
#![tactic(auto)]

mod input_error;
mod inputs;
pub mod laws;
mod lines;
mod stop;
mod words_input;

pub use input_error::InputError;
pub use inputs::{probe_input, read_input, read_piece, read_plan};
pub use lines::{memory_line, stop_line, usage_line};
pub use stop::{Stop, input_stop, store_stop};
pub use words_input::read_words_file;
