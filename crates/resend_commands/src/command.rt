//! `resend FILE`: the stream of a plan is carried over a link that loses, repeats and delays.

use crate::reading::{let_go, read_resend};
use crate::write::write_plan;
use lk_outside::Store;
use run_shell::{FileCommand, Finished};
use run_stops::Stop;
use std::alloc::Global;

/// `resend FILE`.
pub struct ResendPlan;

impl FileCommand for ResendPlan {
    ghost use Rattle.resend_commands.specs.Command.{resend_meaning};

    ghost meaning = { resend_meaning };

    fn obey<S: Store>(alloc: Global, store: &mut S, file: &str) -> Result<Finished, Stop> {
        let inputs = read_resend(alloc, store, file)?;
        let window = inputs.reading.plan.window;
        let finished = write_plan(alloc, store, &inputs.reading, window, &inputs.rows);
        let_go(inputs.reading.plan);
        finished
    }
}
