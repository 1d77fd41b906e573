//! A plan that names events, the inputs that it names, and its events, read in their order.
ghost use Rattle.std.specs.Prelude.{◌≡◌, ◌<◌, ◌≤◌, ◌^◌, Some, [], true, false, IfOk, IfSome};
ghost use Rattle.link_plan.specs.Listing.{numbers_of};
ghost use Rattle.link_plan.specs.Views.{plan_value};
ghost use Rattle.plan_inputs.specs.Inputs.{rows_in};
ghost use Rattle.plan_inputs.specs.Values.{inputs_value, FitPlan};
ghost use Rattle.resend_events.specs.Events.{events_of, count_of, most_events};
ghost use Rattle.run_stops.specs.Reading.{Reads};
ghost use Rattle.run_stops.specs.Stops.{StopCount};
ghost use Rattle.resend_commands.specs.Reading.{refusal_of, resend_plan_in, resend_in, events_in, IsResendRead};
ghost use Rattle.resend_commands.specs.Values.{resend_value};

use link_plan::{Key, Plan, PlanError};
use lk_base::ROWS_LIMIT;
use lk_outside::Store;
use plan_inputs::{PlanReading, read_inputs, read_plan_file, rows_stop};
use resend_events::{EventRow, read_events};
use run_stops::{Stop, read_input};
use std::alloc::Global;

/// A plan with its inputs, and the rows of its events.
#[derive(Drop)]
pub struct ResendInputs {
    /// The plan and its inputs.
    pub reading: PlanReading,
    /// The events, each with how often it comes.
    pub rows: Vec<EventRow>,
}

// The number of the row that says that a plan is wide, which each wide plan has.
fn wide_row(plan: &Plan) -> u32
    requires { plan.now.wide ≡ true }
    ensures { plan.now.wide_row ≡ Some result }
{
    match plan.wide_row {
        Some(row) => row,
        // A plan is wide only where a row says so.
        None => unreachable!(),
    }
}

// Why a plan is none for this command, if it is none: it names no events, or it is wide.
fn refusal(plan: &Plan) -> Option<PlanError>
    ensures { result ≡ refusal_of (plan_value plan.now) }
{
    if plan.events.is_none() {
        return Some(PlanError::Missing(Key::Events));
    }
    if plan.wide {
        return Some(PlanError::Clash(wide_row(plan)));
    }
    None
}

/// Drops a plan.
// proof: a function that drops one by itself is slow to prove
pub fn let_go(_plan: Plan) {}

// The plan in the file of this name, which names events and is not wide. The files are as they were.
#[tactic(auto, unfolding(crate::specs::Reading::resend_plan_in))]
fn read_resend_plan<S: Store>(alloc: Global, store: &mut S, name: &str) -> Result<Plan, Stop>
    requires { S.faults store.old < 2 ^ 60 }
    ensures cause { StopCount result (S.faults store.old) (S.faults store.new) }
    ensures unchanged { S.files store.new ≡ S.files store.old }
    ensures reads { IfSome (S.files store.old) (λ files. Reads plan_value (λ n. n ≡ name.now) result (resend_plan_in files name.now)) }
    ensures narrow { IfOk result (λ plan. plan.wide ≡ false) }
{
    let plan = read_plan_file(alloc, store, name)?;
    match refusal(&plan) {
        None => Ok(plan),
        Some(why) => {
            let_go(plan);
            Err(Stop::Plan(why))
        }
    }
}

// The rows of the events file; none where the plan names no such file. It is refused exactly where it is absent, has more than
// 16,777,216 bytes, or its rows are refused, unless the store fails or memory runs out. The files are as they were.
fn read_events_file<S: Store>(
    alloc: Global,
    store: &mut S,
    plan: &Plan,
) -> Result<Vec<EventRow>, Stop>
    requires { S.faults store.old < 2 ^ 60 }
    ensures cause { StopCount result (S.faults store.old) (S.faults store.new) }
    ensures unchanged { S.files store.new ≡ S.files store.old }
    ensures reads { IfSome (S.files store.old) (λ files. Reads (λ v. v.items) (λ q. (plan_value plan.now).events ≡ Some q) result (rows_in files [] events_of (plan_value plan.now).events)) }
    ensures few { IfOk result (λ v. count_of v.items ≤ most_events) }
{
    let Some(name) = &plan.events else {
        return Ok(Vec::new(alloc));
    };
    let name = name.as_str();
    let bytes = read_input(alloc, store, name, ROWS_LIMIT)?;
    read_events(alloc, &bytes).map_err(|why| rows_stop(alloc, name, why))
}

/// The plan in the file of this name, after it its inputs, and after these its events, each read and checked whole before the
/// next. The first that is absent, too large or refused is refused, and so is a plan that names no events or is wide, unless
/// the store fails or memory runs out. The files are as they were.
pub fn read_resend<S: Store>(alloc: Global, store: &mut S, name: &str) -> Result<ResendInputs, Stop>
    requires { S.faults store.old < 2 ^ 60 }
    ensures cause { StopCount result (S.faults store.old) (S.faults store.new) }
    ensures unchanged { S.files store.new ≡ S.files store.old }
    ensures reads { IfSome (S.files store.old) (λ files. Reads resend_value (IsResendRead files name.now) result (resend_in files name.now)) }
    ensures fit { IfOk result (λ r. FitPlan (numbers_of r.reading.plan.channels.items) (inputs_value r.reading.inputs)) }
    ensures narrow { IfOk result (λ r. r.reading.plan.wide ≡ false) }
    ensures few { IfOk result (λ r. count_of r.rows.items ≤ most_events) }
{
    let plan = read_resend_plan(alloc, store, name)?;
    let inputs = match read_inputs(alloc, store, &plan) {
        Ok(inputs) => inputs,
        Err(stop) => {
            let_go(plan);
            return Err(stop);
        }
    };
    match read_events_file(alloc, store, &plan) {
        Ok(rows) => Ok(ResendInputs {
            reading: PlanReading { plan, inputs },
            rows,
        }),
        Err(stop) => {
            let_go(plan);
            Err(stop)
        }
    }
}
