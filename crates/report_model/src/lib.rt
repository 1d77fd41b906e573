//! What is counted of a run, and told in its report: plain records, which the crates that count and the crates that tell share.
// why: The counts of a run that its report tells are a plain record of report_model. The crates that count and link_reports
// share it, so neither depends on the other. A missing packet is such a record from link_replay::missing_of on.
#![tactic(auto)]

mod counts;

pub use counts::{Accidents, Missing, SentCount};
