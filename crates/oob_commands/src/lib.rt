//! The commands of out-of-band status: `oobwrite` makes the samples of a plan's calendar, and `oobread` the flow file that
//! samples give.
#![tactic(auto)]

mod flow_text;
pub mod laws;
mod limits;
mod oob_read;
mod oob_write;
mod output;
mod reading;
mod row_maker;
mod sample_maker;

pub use limits::SAMPLES_LIMIT;
pub use oob_read::OobRead;
pub use oob_write::OobWrite;
