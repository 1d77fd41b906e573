//! The commands of listings: `list` writes a words file or a lane file as text, and `assemble` makes the file of a text.
// why: The bounds of list and assemble are such that the listing of every file within the first is within the second.
// why: What list and assemble make is a relation of a text and its bytes, so neither has a reader or a writer in its
// definition. A Work needs a function from files to inputs; each of the two is a Conversion.
#![tactic(auto)]

mod assemble_text;
mod conversion;
pub mod laws;
mod limits;
mod list_file;

pub use assemble_text::AssembleText;
pub use conversion::MadeFile;
pub use limits::{LISTED_LIMIT, TEXT_LIMIT};
pub use list_file::ListFile;
