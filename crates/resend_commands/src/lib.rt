//! The command `resend`, which carries the stream of a plan over a link that loses, repeats and delays.
// why: resend reports no held stream: it carries whatever stream the plan has.
// why: A row of events is done event by event, also if the event does nothing.
// why: resend makes its stream before it creates its words file: if memory runs out for the stream, the files are unchanged. A
// step of its maker does at most 4,096 events of one row. In one row at most a window of pieces is accepted, so the bytes
// of at most 255 pieces are kept twice.
#![tactic(auto)]

mod carrying;
mod command;
pub mod laws;
mod place;
mod reading;
mod resend_maker;
mod write;

pub use command::ResendPlan;
pub use reading::{ResendInputs, read_resend};
pub use write::write_plan;
