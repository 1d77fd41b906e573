//! The words file of a plan, written as the pieces of its stream are accepted.
ghost use Rattle.std.specs.Prelude.{◌≡◌, ◌<◌, ◌≤◌, ◌^◌, [], ◌∷◌, false, string_bytes};
ghost use Rattle.link_plan.specs.Listing.{numbers_of};
ghost use Rattle.plan_inputs.specs.Values.{inputs_value, reading_value, FitPlan};
ghost use Rattle.run_stops.specs.Stops.{StopCount};
ghost use Rattle.run_shell.specs.Writing.{Writes};
ghost use Rattle.resend_events.specs.Events.{count_of};
ghost use Rattle.run_shell.specs.Names.{words_name};
ghost use Rattle.resend_commands.specs.Plan.{IsPlanResent};

use crate::resend_maker::ResendMaker;
use lk_outside::Store;
use plan_inputs::PlanReading;
use resend_events::EventRow;
use run_shell::{Finished, make_all};
use run_stops::Stop;
use std::alloc::Global;

/// Makes the stream of a plan that is not wide and its inputs, creates the words file of the plan, and carries the stream by the
/// events of these rows. The words of the pieces that are accepted go into the file meanwhile.
pub fn write_plan<S: Store>(
    alloc: Global,
    store: &mut S,
    reading: &PlanReading,
    window: u32,
    rows: &[EventRow],
) -> Result<Finished, Stop>
    requires count { S.faults store.old < 2 ^ 60 }
    requires fit { FitPlan (numbers_of reading.now.plan.channels.items) (inputs_value reading.now.inputs) }
    requires narrow { reading.now.plan.wide ≡ false }
    requires some_window { 1 ≤ window }
    requires small_window { window ≤ 255 }
    requires few { count_of rows.now ≤ 2 ^ 60 }
    ensures cause { StopCount result (S.faults store.old) (S.faults store.new) }
    ensures writes { Writes (IsPlanResent (record { reading = reading_value reading.now; window = window; rows = rows.now })) (words_name (string_bytes reading.now.plan.out) ∷ []) result (S.files store.old) (S.files store.new) }
{
    let mut maker = ResendMaker::new(alloc, reading, window, rows)?;
    make_all(alloc, store, &mut maker)
}
