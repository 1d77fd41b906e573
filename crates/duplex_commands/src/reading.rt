//! The settings of a run, the plan of both ends, and the captures of each, read in this order.
ghost use Rattle.std.specs.Prelude.{◌≡◌, ◌<◌, ◌^◌, IfOk, IfSome};
ghost use Rattle.run_stops.specs.Reading.{Reads};
ghost use Rattle.run_stops.specs.Stops.{StopCount};
ghost use Rattle.link_plan.specs.Views.{plan_value};
ghost use Rattle.link_plan.specs.Listing.{numbers_of};
ghost use Rattle.plan_inputs.specs.Values.{packet_values};
ghost use Rattle.duplex_plan.specs.Views.{duplex_value};
ghost use Rattle.duplex_commands.specs.Reading.{duplex_in, with_plan, IsReadFor, IsReadAfter};
ghost use Rattle.duplex_commands.specs.Values.{duplex_reading};
ghost use Rattle.duplex_commands.specs.Loaded.{FitEnds};
ghost use Rattle.duplex_commands.specs.declared.reading.BothPackets.{BothPackets};

use crate::back::{back_channels, unlisted_row};
use crate::settings_file::read_settings_file;
use crate::shared_plan::read_shared_plan;
use duplex_plan::DuplexPlan;
use link_plan::{Plan, PlanError};
use lk_base::CAPTURE_LIMIT;
use lk_outside::Store;
use plan_inputs::{CapturePackets, read_captures_within};
use run_stops::Stop;
use std::alloc::Global;

/// What a run is made of.
#[derive(Drop)]
pub struct DuplexInputs {
    /// The settings of the run.
    pub settings: DuplexPlan,
    /// The plan of both ends.
    pub plan: Plan,
    /// The packets that end a sends, by capture.
    pub packets_of_a: Vec<CapturePackets>,
    /// The packets that end b sends, by capture.
    pub packets_of_b: Vec<CapturePackets>,
}

// The packets that both ends send.
#[derive(Drop)]
struct BothPackets {
    // Those of end a, by capture.
    a: Vec<CapturePackets>,
    // Those of end b, by capture.
    b: Vec<CapturePackets>,
}

// What stands after the plan: where each channel of end b is listed, the captures of end a, and then those of end b.
fn read_both<S: Store>(
    alloc: Global,
    store: &mut S,
    settings: &DuplexPlan,
    plan: &Plan,
) -> Result<BothPackets, Stop>
    requires { S.faults store.old < 2 ^ 60 }
    ensures cause { StopCount result (S.faults store.old) (S.faults store.new) }
    ensures unchanged { S.files store.new ≡ S.files store.old }
    ensures reads { IfSome (S.files store.old) (λ files. Reads (λ (both : BothPackets). duplex_reading (record { settings = settings.now; plan = plan.now; packets_of_a = both.a; packets_of_b = both.b })) (IsReadAfter (duplex_value settings.now) (plan_value plan.now)) result (with_plan files (duplex_value settings.now) (plan_value plan.now))) }
    ensures fit { IfOk result (λ both. FitEnds (numbers_of plan.now.channels.items) (packet_values both.a.items) (packet_values both.b.items)) }
{
    if let Some(row) = unlisted_row(&plan.channels, &settings.back) {
        return Err(Stop::Plan(PlanError::Clash(row)));
    }
    let back = back_channels(alloc, &settings.back)?;
    let most = plan.link.max_packet();
    let a = read_captures_within(alloc, store, &plan.channels, most, CAPTURE_LIMIT)?;
    let b = read_captures_within(alloc, store, &back, most, a.room)?;
    Ok(BothPackets {
        a: a.packets,
        b: b.packets,
    })
}

/// Drops a plan.
// proof: a function that drops one by itself is slow to prove
pub fn let_go(_plan: Plan) {}

// A run of these settings and this plan, and what stands after the plan.
fn read_after_plan<S: Store>(
    alloc: Global,
    store: &mut S,
    settings: DuplexPlan,
    plan: Plan,
) -> Result<DuplexInputs, Stop>
    requires { S.faults store.old < 2 ^ 60 }
    ensures cause { StopCount result (S.faults store.old) (S.faults store.new) }
    ensures unchanged { S.files store.new ≡ S.files store.old }
    ensures reads { IfSome (S.files store.old) (λ files. Reads duplex_reading (IsReadAfter (duplex_value settings) (plan_value plan)) result (with_plan files (duplex_value settings) (plan_value plan))) }
    ensures fit { IfOk result (λ i. FitEnds (numbers_of i.plan.channels.items) (packet_values i.packets_of_a.items) (packet_values i.packets_of_b.items)) }
{
    match read_both(alloc, store, &settings, &plan) {
        Ok(both) => Ok(DuplexInputs {
            settings,
            plan,
            packets_of_a: both.a,
            packets_of_b: both.b,
        }),
        Err(stop) => {
            let_go(plan);
            Err(stop)
        }
    }
}

/// What `duplex FILE` reads: FILE, the plan that it names, and then the captures of end a as the plan names them and those of end
/// b as FILE does; or the first refusal, unless the store fails or memory runs out. The files are as they were.
pub fn read_duplex_inputs<S: Store>(
    alloc: Global,
    store: &mut S,
    name: &str,
) -> Result<DuplexInputs, Stop>
    requires { S.faults store.old < 2 ^ 60 }
    ensures cause { StopCount result (S.faults store.old) (S.faults store.new) }
    ensures unchanged { S.files store.new ≡ S.files store.old }
    ensures reads { IfSome (S.files store.old) (λ files. Reads duplex_reading (IsReadFor name.now files) result (duplex_in files name.now)) }
    ensures fit { IfOk result (λ i. FitEnds (numbers_of i.plan.channels.items) (packet_values i.packets_of_a.items) (packet_values i.packets_of_b.items)) }
{
    let settings = read_settings_file(alloc, store, name)?;
    let plan = read_shared_plan(alloc, store, settings.plan.as_str())?;
    read_after_plan(alloc, store, settings, plan)
}
