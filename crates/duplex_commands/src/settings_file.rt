//! The settings of a run.
ghost use Rattle.std.specs.Prelude.{◌≡◌, ◌<◌, ◌^◌, IfSome};
ghost use Rattle.duplex_plan.specs.Views.{duplex_value};
ghost use Rattle.run_stops.specs.Reading.{Reads};
ghost use Rattle.run_stops.specs.Stops.{StopCount};
ghost use Rattle.duplex_commands.specs.Reading.{settings_in};

use duplex_plan::{DuplexPlan, read_duplex};
use lk_base::PLAN_LIMIT;
use lk_outside::Store;
use plan_inputs::plan_stop;
use run_stops::{Stop, read_plan as read_plan_bytes};
use std::alloc::Global;

/// The settings in the file of this name. They are refused exactly where the file is absent, has more than 1,048,576 bytes, or
/// its rows are refused, unless the store fails or memory runs out. The files are as they were.
// why: its frame, of a csv reader, is gone before the plan is read.
#[tactic(auto, unfolding(crate::specs::Reading::settings_in))]
#[inline(never)]
pub fn read_settings_file<S: Store>(
    alloc: Global,
    store: &mut S,
    name: &str,
) -> Result<DuplexPlan, Stop>
    requires { S.faults store.old < 2 ^ 60 }
    ensures cause { StopCount result (S.faults store.old) (S.faults store.new) }
    ensures unchanged { S.files store.new ≡ S.files store.old }
    ensures reads { IfSome (S.files store.old) (λ files. Reads duplex_value (λ n. n ≡ name.now) result (settings_in files name.now)) }
{
    let bytes = read_plan_bytes(alloc, store, name, PLAN_LIMIT)?;
    // proof: by a closure, since the module of `plan_stop` is private to its crate.
    read_duplex(alloc, &bytes).map_err(|why| plan_stop(why))
}
