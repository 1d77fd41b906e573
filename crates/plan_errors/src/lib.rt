//! Why plans and other files of rows are refused, and what is reported of it.
// why: plan_errors is not part of csv_rows: it names the keys of plans, and csv_rows and command_words know no plan.
#![tactic(auto)]

mod error;

pub use error::{Key, PlanError};
