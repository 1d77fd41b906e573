//! Words as numbers and kinds: nine bytes for each.
#![tactic(auto)]

mod kind;
mod list;
mod rx_block;

pub use list::WordList;
pub use rx_block::RxBlock;
