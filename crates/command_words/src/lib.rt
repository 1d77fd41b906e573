//! The words of a command line: the table of commands, which arguments each is given, and the reading of accepted words.
#![tactic(auto)]

mod arguments;
mod command_line;
mod digits;
pub mod laws;
mod table;

pub use arguments::{Arguments, arguments_of};
pub use command_line::{CommandLine, line_of, read_line};
pub use table::{Name, Row, Rule, row_in, rows};
