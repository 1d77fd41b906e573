//! The damaged lanes of a plan, made one after another, and what is told of each.
ghost use Rattle.std.specs.Prelude.{◌≡◌, ◌<◌, ◌≤◌, ◌++◌, [], ℕ, All, IfOk, Vec, length, map, string_bytes};
ghost use Rattle.std.specs.declared.alloc.Global.{Global};
ghost use Rattle.link_plan.specs.ScheduleViews.{schedule_value};
ghost use Rattle.link_plan.specs.Views.{plan_value};
ghost use Rattle.run_shell.specs.Outputs.{Differ, blank};
ghost use Rattle.damage_commands.specs.PlanLanes.{whole_lane_limit};
ghost use Rattle.damage_commands.specs.Struck.{damaged_line};
ghost use Rattle.damage_commands.specs.Damage.{IsArrived, damaged_names, line_of};
ghost use Rattle.damage_commands.specs.Making.{GaveLanes};

use crate::inputs::DamageInputs;
use crate::line::{DamagedLane, damaged_line};
use crate::struck::struck_bits;
use crate::unused::unused_rows;
use link_plan::{Plan, Schedule};
use link_replay::damage;
use lk_base::OutOfMemory;
use run_shell::{Finished, Maker, Outputs, Step, lane_names};
use std::alloc::Global;
use std::mem;

// The names of the damaged lanes of a plan, by number.
fn damaged_names(alloc: Global, plan: &Plan) -> Result<Vec<String>, OutOfMemory>
    ensures names { IfOk result (λ v. map string_bytes v.items ≡ damaged_names (plan_value plan.now)) }
    ensures differ { IfOk result (λ v. Differ (map string_bytes v.items)) }
{
    let out = plan.out.as_str();
    let prefix = format!(in alloc; "{out}.damaged")?;
    Ok(lane_names(alloc, prefix.as_str(), plan.link.lanes())?)
}

// What is told of a lane that was received so.
fn told_of(lane: u32, sent: &[u8], received: &[u8], schedule: &Schedule) -> DamagedLane
    requires few { length sent.now ≤ whole_lane_limit }
    requires lane { lane < length schedule.now.skews.items }
    requires received { IsArrived (schedule_value schedule.now) lane sent.now received.now }
    ensures { damaged_line result.lane result.skew result.bits result.unused ≡ line_of (schedule_value schedule.now) lane sent.now }
{
    let skew = schedule.skews[lane as usize];
    DamagedLane {
        lane,
        skew,
        bits: struck_bits(sent, received, skew),
        unused: unused_rows(schedule, lane, 8 * sent.len() as u64),
    }
}

// A lane as it is received, all of whose bits were sent. What is told of it goes after the lines of the lanes before it.
fn received_lane(
    alloc: Global,
    lines: &mut Vec<u8>,
    number: u32,
    sent: &[u8],
    schedule: &Schedule,
) -> Result<Vec<u8>, OutOfMemory>
    requires few { length sent.now ≤ whole_lane_limit }
    requires number { number < length schedule.now.skews.items }
    ensures arrived { IfOk result (λ v. IsArrived (schedule_value schedule.now) number sent.now v.items) }
    ensures told { IfOk result (λ v. lines.new.items ≡ lines.old.items ++ line_of (schedule_value schedule.now) number sent.now) }
{
    let received = damage(alloc, number, sent, 8 * sent.len() as u64, schedule)?;
    let told = told_of(number, sent, &received, schedule);
    damaged_line(alloc, lines, &told)?;
    Ok(received)
}

/// What makes the damaged lanes of a plan, a lane a step.
#[derive(Drop)]
pub struct DamageMaker<'a> {
    /// The plan, its schedule and its lanes.
    pub inputs: &'a DamageInputs,
    /// The lines of the lanes that were given.
    pub lines: Vec<u8>,
    /// How many lanes were given.
    pub count: u32,
}

impl<'a> DamageMaker<'a> {
    /// A maker that gave nothing yet.
    pub fn new(alloc: Global, inputs: &'a DamageInputs) -> DamageMaker<'a>
        requires many { length inputs.now.lanes.items ≡ inputs.now.plan.link.lanes }
        requires skews { length inputs.now.schedule.skews.items ≡ inputs.now.plan.link.lanes }
        requires few { All (λ (v : Vec ℕ Global). length v.items ≤ whole_lane_limit) inputs.now.lanes.items }
        ensures inputs { result.inputs.now ≡ inputs.now }
        ensures fresh { GaveLanes result.inputs.now result.lines result.count (blank (damaged_names (plan_value inputs.now.plan))) }
    {
        DamageMaker {
            inputs,
            lines: Vec::new(alloc),
            count: 0,
        }
    }
}

impl Maker for DamageMaker<'_> {
    ghost use Rattle.std.specs.Prelude.{◌-◌, length};
    ghost use Rattle.damage_commands.specs.PlanLanes.{DamageInputs};
    ghost use Rattle.damage_commands.specs.Damage.{IsDamaged, damaged_names};
    ghost use Rattle.damage_commands.specs.Making.{GaveLanes};
    ghost use Rattle.damage_commands.specs.Values.{inputs_value};

    ghost Inputs = { DamageInputs };

    ghost inputs = { λ m. inputs_value m.inputs.now };

    ghost named = { λ i. damaged_names i.plan };

    ghost IsMade = { IsDamaged };

    ghost gave = { λ m given. GaveLanes m.inputs.now m.lines m.count given };

    ghost left = { λ m. length m.inputs.now.lanes.items - m.count };

    fn lawful(&self) {}

    fn names(&self, alloc: Global) -> Result<Vec<String>, OutOfMemory> {
        damaged_names(alloc, &self.inputs.plan)
    }

    fn step(&mut self, alloc: Global, outputs: &mut Outputs) -> Result<Step, OutOfMemory> {
        let number = self.count;
        if number == self.inputs.plan.link.lanes() {
            let text = mem::replace(&mut self.lines, Vec::new(alloc));
            return Ok(Step::Done(Finished { held: false, text }));
        }
        let sent = &self.inputs.lanes[number as usize];
        let received = received_lane(alloc, &mut self.lines, number, sent, &self.inputs.schedule)?;
        outputs.give_owned(number as usize, received)?;
        self.count += 1;
        Ok(Step::More)
    }
}
