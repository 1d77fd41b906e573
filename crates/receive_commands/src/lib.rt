//! The command that receives: the lanes of a plan become captures and a table of fault spans.
// why: receive always feeds the lane of which the least was fed, so each piece finds an empty ring and no byte is fed twice. A
// lane that was read up to its limit is over, without a byte read past it.
#![tactic(auto)]

mod lane_buffer;
mod lanes;
mod lanes_in;
mod open_lanes;
mod receive;

pub use lanes::FileLanes;
pub use receive::{PlanLanes, Receive, read_plan_lanes};
