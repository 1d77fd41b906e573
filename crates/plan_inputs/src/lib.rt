//! The plan of a command and the inputs that it names, from the files of a store: each read and checked whole before the
//! next.
// why: The packets of a plan's captures are judged by the plan's max_packet: a longer one is a refused record of its capture.
// why: All bytes of a capture count against the limit for the captures of a plan, also its headers.
#![tactic(auto)]

mod captures;
mod channel_packets;
mod inputs;
pub mod laws;
mod lending;
mod plan_file;
mod reading;
mod row_files;

pub use captures::{ReadCaptures, read_captures_within};
pub use channel_packets::CapturePackets;
pub use inputs::{PlanInputs, PlanReading};
pub use plan_file::{plan_stop, read_plan_file};
pub use reading::{read_inputs, read_plan_inputs};
pub use row_files::{read_flow_file, read_local_file, read_schedule_file, rows_stop};
