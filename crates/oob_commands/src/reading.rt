//! A plan with its local rows, or with the samples that it names.
ghost use Rattle.std.specs.Prelude.{◌≡◌, ◌<◌, ◌≤◌, ◌^◌, IfOk, IfSome, IsTrue, Some, All, length};
ghost use Rattle.std.specs.List.{list_all};
ghost use Rattle.std.specs.List.Sorted.{IsNonDecreasingBy};
ghost use Rattle.stream_model.specs.declared.rows.LocalRow.{LocalRow};
ghost use Rattle.link_plan.specs.Listing.{numbers_of};
ghost use Rattle.link_plan.specs.Timed.{is_local};
ghost use Rattle.link_plan.specs.Views.{plan_value};
ghost use Rattle.run_stops.specs.Reading.{Reads, vec_items};
ghost use Rattle.run_stops.specs.Stops.{StopCount};
ghost use Rattle.oob_flow.specs.Samples.{is_sample};
ghost use Rattle.oob_commands.specs.WriteSamples.{local_reading_in, IsLocalRead};
ghost use Rattle.oob_commands.specs.ReadRows.{samples_in, samples_reading_in, IsSamplesRead};
ghost use Rattle.oob_commands.specs.Values.{local_value, samples_value};

use crate::limits::SAMPLES_LIMIT;
use link_plan::{Key, LocalRow, Plan, PlanError};
use lk_outside::Store;
use oob_flow::bad_sample;
use plan_inputs::{read_local_file, read_plan_file};
use run_stops::{InputError, Stop, input_stop, read_input};
use std::alloc::Global;

/// A plan with its local rows.
#[derive(Drop)]
pub struct PlanLocal {
    /// The plan.
    pub plan: Plan,
    /// The rows of its local file, in order of slot; none where it names no such file.
    pub local: Vec<LocalRow>,
}

/// A plan with the samples that it names.
#[derive(Drop)]
pub struct PlanSamples {
    /// The plan.
    pub plan: Plan,
    /// The samples.
    pub samples: Vec<u8>,
}

/// Drops a plan.
// proof: a function that drops one by itself is slow to prove
pub fn let_go(_plan: Plan) {}

/// The plan in the file of this name, and after it its local rows. The files are as they were.
pub fn read_plan_local<S: Store>(
    alloc: Global,
    store: &mut S,
    name: &str,
) -> Result<PlanLocal, Stop>
    requires { S.faults store.old < 2 ^ 60 }
    ensures cause { StopCount result (S.faults store.old) (S.faults store.new) }
    ensures unchanged { S.files store.new ≡ S.files store.old }
    ensures reads { IfSome (S.files store.old) (λ files. Reads local_value (IsLocalRead files name.now) result (local_reading_in files name.now)) }
    ensures order { IfOk result (λ r. IsNonDecreasingBy (λ (row : LocalRow). row.slot) r.local.items) }
    ensures low { IfOk result (λ r. IsTrue (list_all (is_local (numbers_of r.plan.channels.items)) r.local.items)) }
{
    let plan = read_plan_file(alloc, store, name)?;
    match read_local_file(alloc, store, &plan) {
        Ok(local) => Ok(PlanLocal { plan, local }),
        Err(stop) => {
            let_go(plan);
            Err(stop)
        }
    }
}

// The samples in the file that the plan names. It is refused exactly where it is absent, has more than 4,194,304 bytes, or a
// byte of it is no sample, unless the store fails or memory runs out. A plan that names no such file is refused. The
// files are as they were.
fn read_samples<S: Store>(alloc: Global, store: &mut S, plan: &Plan) -> Result<Vec<u8>, Stop>
    requires { S.faults store.old < 2 ^ 60 }
    ensures cause { StopCount result (S.faults store.old) (S.faults store.new) }
    ensures unchanged { S.files store.new ≡ S.files store.old }
    ensures reads { IfSome (S.files store.old) (λ files. Reads vec_items (λ q. (plan_value plan.now).oob ≡ Some q) result (samples_in files (plan_value plan.now).oob)) }
    ensures samples { IfOk result (λ v. All (λ byte. IsTrue (is_sample byte)) v.items) }
    ensures short { IfOk result (λ v. length v.items ≤ 4194304) }
{
    let Some(name) = &plan.oob else {
        return Err(Stop::Plan(PlanError::Missing(Key::Oob)));
    };
    let name = name.as_str();
    let bytes = read_input(alloc, store, name, SAMPLES_LIMIT)?;
    match bad_sample(&bytes) {
        None => Ok(bytes),
        Some(offset) => Err(input_stop(alloc, name, InputError::Samples(offset))),
    }
}

/// The plan in the file of this name, and after it its samples. The files are as they were.
pub fn read_plan_samples<S: Store>(
    alloc: Global,
    store: &mut S,
    name: &str,
) -> Result<PlanSamples, Stop>
    requires { S.faults store.old < 2 ^ 60 }
    ensures cause { StopCount result (S.faults store.old) (S.faults store.new) }
    ensures unchanged { S.files store.new ≡ S.files store.old }
    ensures reads { IfSome (S.files store.old) (λ files. Reads samples_value (IsSamplesRead files name.now) result (samples_reading_in files name.now)) }
    ensures samples { IfOk result (λ r. All (λ byte. IsTrue (is_sample byte)) r.samples.items) }
    ensures short { IfOk result (λ r. length r.samples.items ≤ 4194304) }
{
    let plan = read_plan_file(alloc, store, name)?;
    match read_samples(alloc, store, &plan) {
        Ok(samples) => Ok(PlanSamples { plan, samples }),
        Err(stop) => {
            let_go(plan);
            Err(stop)
        }
    }
}
