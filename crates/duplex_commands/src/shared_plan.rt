//! The plan of both ends, which is an input.
ghost use Rattle.std.specs.Prelude.{◌≡◌, ◌<◌, ◌^◌, IfSome};
ghost use Rattle.link_plan.specs.Views.{plan_value};
ghost use Rattle.run_stops.specs.Reading.{Reads};
ghost use Rattle.run_stops.specs.Stops.{StopCount};
ghost use Rattle.duplex_commands.specs.Reading.{shared_plan_in};

use link_plan::{Plan, read_plan};
use lk_base::PLAN_LIMIT;
use lk_outside::Store;
use plan_inputs::rows_stop;
use run_stops::{Stop, read_input};
use std::alloc::Global;

/// The plan in the file of this name, as an input. It is refused exactly where the file is absent, has more than 1,048,576
/// bytes, or its rows are refused, unless the store fails or memory runs out. The files are as they were.
#[tactic(auto, unfolding(crate::specs::Reading::shared_plan_in))]
pub fn read_shared_plan<S: Store>(alloc: Global, store: &mut S, name: &str) -> Result<Plan, Stop>
    requires { S.faults store.old < 2 ^ 60 }
    ensures cause { StopCount result (S.faults store.old) (S.faults store.new) }
    ensures unchanged { S.files store.new ≡ S.files store.old }
    ensures reads { IfSome (S.files store.old) (λ files. Reads plan_value (λ n. n ≡ name.now) result (shared_plan_in files name.now)) }
{
    let bytes = read_input(alloc, store, name, PLAN_LIMIT)?;
    read_plan(alloc, &bytes).map_err(|why| rows_stop(alloc, name, why))
}
