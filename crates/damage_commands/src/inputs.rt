//! A plan, its schedule, and its lanes, each read whole.
ghost use Rattle.std.specs.Prelude.{◌≡◌, ◌<◌, ◌≤◌, ◌^◌, ℕ, All, Contains, IfOk, IfSome, Vec, length, map, string_bytes};
ghost use Rattle.std.specs.declared.alloc.Global.{Global};
ghost use Rattle.link_plan.specs.Views.{plan_value};
ghost use Rattle.run_stops.specs.Stops.{StopCount};
ghost use Rattle.run_stops.specs.Reading.{Reads, vec_items};
ghost use Rattle.lane_receipts.specs.LaneReports.{names_of_lanes};
ghost use Rattle.damage_commands.specs.PlanLanes.{IsReadFor, damage_inputs_in, lanes_in, whole_lane_limit};
ghost use Rattle.damage_commands.specs.Values.{inputs_value};

use link_plan::{Plan, Schedule};
use lk_outside::Store;
use plan_inputs::{read_plan_file, read_schedule_file};
use run_shell::lane_names;
use run_stops::{Stop, read_input};
use std::alloc::Global;

// The most bytes of a lane that is read whole.
const WHOLE_LANE_LIMIT: u64 = 268_435_456;

/// What is read for `damage`.
#[derive(Drop)]
pub struct DamageInputs {
    /// The plan.
    pub plan: Plan,
    /// What happens to its lanes; nothing, where it names no schedule.
    pub schedule: Schedule,
    /// The bytes of its lanes, by number.
    pub lanes: Vec<Vec<u8>>,
}

// The lanes in the files of these names, in their order.
fn read_lanes<S: Store>(
    alloc: Global,
    store: &mut S,
    names: &[String],
) -> Result<Vec<Vec<u8>>, Stop>
    requires { S.faults store.old < 2 ^ 60 }
    ensures cause { StopCount result (S.faults store.old) (S.faults store.new) }
    ensures unchanged { S.files store.new ≡ S.files store.old }
    ensures many { IfOk result (λ lanes. length lanes.items ≡ length names.now) }
    ensures few { IfOk result (λ lanes. All (λ (v : Vec ℕ Global). length v.items ≤ whole_lane_limit) lanes.items) }
    ensures reads { IfSome (S.files store.old) (λ files. Reads (λ lanes. map vec_items lanes.items) (Contains (map string_bytes names.now)) result (lanes_in files (map string_bytes names.now))) }
{
    let mut lanes = Vec::new(alloc);
    for name in names {
        lanes.push(read_input(alloc, store, name.as_str(), WHOLE_LANE_LIMIT)?)?;
    }
    Ok(lanes)
}

// The lanes of a plan, by number.
fn read_plan_lanes<S: Store>(
    alloc: Global,
    store: &mut S,
    plan: &Plan,
) -> Result<Vec<Vec<u8>>, Stop>
    requires { S.faults store.old < 2 ^ 60 }
    ensures cause { StopCount result (S.faults store.old) (S.faults store.new) }
    ensures unchanged { S.files store.new ≡ S.files store.old }
    ensures many { IfOk result (λ lanes. length lanes.items ≡ plan.now.link.lanes) }
    ensures few { IfOk result (λ lanes. All (λ (v : Vec ℕ Global). length v.items ≤ whole_lane_limit) lanes.items) }
    ensures reads { IfSome (S.files store.old) (λ files. Reads (λ lanes. map vec_items lanes.items) (Contains (names_of_lanes (plan_value plan.now))) result (lanes_in files (names_of_lanes (plan_value plan.now)))) }
{
    let names = lane_names(alloc, plan.out.as_str(), plan.link.lanes())?;
    read_lanes(alloc, store, &names)
}

/// Drops a plan.
// proof: a function that drops one by itself is slow to prove
pub fn let_go(_plan: Plan) {}

/// The plan of this name, after it its schedule, where it names one, and then its lanes, each read and checked whole before the
/// next. The first that is absent, too large or refused is refused, unless the store fails or memory runs out; a lane may have
/// 268,435,456 bytes. The files are as they were.
pub fn read_damage_inputs<S: Store>(
    alloc: Global,
    store: &mut S,
    file: &str,
) -> Result<DamageInputs, Stop>
    requires { S.faults store.old < 2 ^ 60 }
    ensures cause { StopCount result (S.faults store.old) (S.faults store.new) }
    ensures unchanged { S.files store.new ≡ S.files store.old }
    ensures many { IfOk result (λ i. length i.lanes.items ≡ i.plan.link.lanes) }
    ensures skews { IfOk result (λ i. length i.schedule.skews.items ≡ i.plan.link.lanes) }
    ensures few { IfOk result (λ i. All (λ (v : Vec ℕ Global). length v.items ≤ whole_lane_limit) i.lanes.items) }
    ensures reads { IfSome (S.files store.old) (λ files. Reads inputs_value (IsReadFor file.now files) result (damage_inputs_in files file.now)) }
{
    let plan = read_plan_file(alloc, store, file)?;
    let schedule = match read_schedule_file(alloc, store, &plan) {
        Ok(schedule) => schedule,
        Err(stop) => {
            let_go(plan);
            return Err(stop);
        }
    };
    match read_plan_lanes(alloc, store, &plan) {
        Ok(lanes) => Ok(DamageInputs {
            plan,
            schedule,
            lanes,
        }),
        Err(stop) => {
            let_go(plan);
            Err(stop)
        }
    }
}
