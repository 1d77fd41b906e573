//! The events of the lanes of a link, shown as the bytes of the lanes arrive.
#![tactic(auto)]

mod inspector;
mod lane;
pub mod laws;
mod misuse;
mod types;

pub use inspector::LiveInspector;
pub use lane_events::EventKind;
pub use lock_model::LaneReport;
pub use misuse::Misuse;
pub use types::LiveEvent;
