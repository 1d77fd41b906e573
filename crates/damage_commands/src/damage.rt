//! `damage FILE`: the schedule of a plan is applied to its lanes.
ghost use Rattle.std.specs.Prelude.{◌≡◌, ◌<◌, ◌≤◌, ◌^◌, ℕ, All, Vec, length};
ghost use Rattle.std.specs.declared.alloc.Global.{Global};
ghost use Rattle.link_plan.specs.Views.{plan_value};
ghost use Rattle.run_stops.specs.Stops.{StopCount};
ghost use Rattle.run_shell.specs.Writing.{Writes};
ghost use Rattle.damage_commands.specs.PlanLanes.{whole_lane_limit};
ghost use Rattle.damage_commands.specs.Damage.{IsDamaged, damaged_names};
ghost use Rattle.damage_commands.specs.Values.{inputs_value};

use crate::inputs::{DamageInputs, let_go, read_damage_inputs};
use crate::lane_maker::DamageMaker;
use lk_outside::Store;
use run_shell::{FileCommand, Finished, make_all};
use run_stops::Stop;
use std::alloc::Global;

// The files of the damaged lanes of what was read.
fn write_damaged<S: Store>(
    alloc: Global,
    store: &mut S,
    inputs: &DamageInputs,
) -> Result<Finished, Stop>
    requires count { S.faults store.old < 2 ^ 60 }
    requires many { length inputs.now.lanes.items ≡ inputs.now.plan.link.lanes }
    requires skews { length inputs.now.schedule.skews.items ≡ inputs.now.plan.link.lanes }
    requires few { All (λ (v : Vec ℕ Global). length v.items ≤ whole_lane_limit) inputs.now.lanes.items }
    ensures cause { StopCount result (S.faults store.old) (S.faults store.new) }
    ensures writes { Writes (IsDamaged (inputs_value inputs.now)) (damaged_names (plan_value inputs.now.plan)) result (S.files store.old) (S.files store.new) }
{
    let mut maker = DamageMaker::new(alloc, inputs);
    make_all(alloc, store, &mut maker)
}

/// `damage FILE`: the lanes of a plan, all of whose bits count as sent, are damaged by its schedule, and become `OUT.damaged.lane.I`
/// by number. The text has a line for each lane: its skew, how many of its bits were struck, and how many rows of the schedule name
/// no bit of it.
pub struct Damage;

impl FileCommand for Damage {
    ghost use Rattle.damage_commands.specs.Damage.{damage_meaning};

    ghost meaning = { damage_meaning };

    fn obey<S: Store>(alloc: Global, store: &mut S, file: &str) -> Result<Finished, Stop> {
        let inputs = read_damage_inputs(alloc, store, file)?;
        let finished = write_damaged(alloc, store, &inputs);
        let_go(inputs.plan);
        finished
    }
}
