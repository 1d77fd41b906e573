//! `receive FILE`, where FILE is a plan.
ghost use Rattle.std.specs.Prelude.{◌≡◌, ◌<◌, ◌^◌, ◌++◌, List, ℕ, Ok, Some, All, Contains, length, map, replicate, IfOk, IfSome, string_bytes};
ghost use Rattle.lk_outside.specs.Files.{Told};
ghost use Rattle.link_plan.specs.Views.{plan_value};
ghost use Rattle.plan_inputs.specs.Inputs.{plan_in};
ghost use Rattle.rx_end.specs.Standing.{IsUnfed};
ghost use Rattle.run_shell.specs.Outcome.{LeavesOthers};
ghost use Rattle.run_stops.specs.Stops.{StopCount};
ghost use Rattle.run_stops.specs.Reading.{Probes};
ghost use Rattle.run_shell.specs.Writing.{Fills};
ghost use Rattle.receipts.specs.Settings.{plan_names};
ghost use Rattle.receive_commands.specs.Receive.{IsReceiveInput, IsReceived, lanes_in, plan_lanes_in};
ghost use Rattle.receive_commands.specs.ReadLanes.{AreBuffers, IsFresh};
ghost use Rattle.lane_receipts.specs.LaneReports.{names_of_lanes};

use crate::lanes_in::probe_lanes;
use crate::open_lanes::OpenLanes;
use link_plan::{Plan, channels_in_order};
use lk_outside::Store;
use plan_inputs::read_plan_file;
use receipts::Receipt;
use run_shell::{FileCommand, Finished, lane_names};
use run_stops::Stop;
use std::alloc::Global;

/// A plan and the names of its lanes' files.
#[derive(Drop)]
pub struct PlanLanes {
    /// The plan.
    pub plan: Plan,
    /// The names of its lanes' files, by number.
    pub names: Vec<String>,
}

// The names of the files of a plan's lanes, in their order, which are there and no longer than their limit.
fn probe_plan_lanes<S: Store>(
    alloc: Global,
    store: &mut S,
    plan: &Plan,
) -> Result<Vec<String>, Stop>
    requires { S.faults store.old < 2 ^ 60 }
    ensures cause { StopCount result (S.faults store.old) (S.faults store.new) }
    ensures unchanged { S.files store.new ≡ S.files store.old }
    ensures names { IfOk result (λ names. map string_bytes names.items ≡ names_of_lanes (plan_value plan.now)) }
    ensures probes { IfSome (S.files store.old) (λ files. Probes (Contains (names_of_lanes (plan_value plan.now))) result (lanes_in files (names_of_lanes (plan_value plan.now)))) }
{
    let names = lane_names(alloc, plan.out.as_str(), plan.link.lanes())?;
    probe_lanes(alloc, store, &names)?;
    Ok(names)
}

// Drops a plan.
// proof: a function that drops one by itself is slow to prove
fn let_go(_plan: Plan) {}

/// The plan of this name, whose lanes are there and no longer than their limit. The first of these files that is absent, too large
/// or refused is refused, unless the store fails or memory runs out. The files are as they were.
pub fn read_plan_lanes<S: Store>(
    alloc: Global,
    store: &mut S,
    file: &str,
) -> Result<PlanLanes, Stop>
    requires { S.faults store.old < 2 ^ 60 }
    ensures cause { StopCount result (S.faults store.old) (S.faults store.new) }
    ensures unchanged { S.files store.new ≡ S.files store.old }
    ensures names { IfOk result (λ read. map string_bytes read.names.items ≡ names_of_lanes (plan_value read.plan)) }
    ensures reads { IfSome (S.files store.old) (λ files. Probes (IsReceiveInput file.now files) result (plan_lanes_in files file.now)) }
    ensures there { IfOk result (λ read. IfSome (S.files store.old) (λ files. (lanes : List (List ℕ)) × (lanes_in files (names_of_lanes (plan_value read.plan)) ≡ Ok lanes))) }
    ensures plan { IfOk result (λ read. IfSome (S.files store.old) (λ files. plan_in files file.now ≡ Ok (plan_value read.plan))) }
{
    let plan = read_plan_file(alloc, store, file)?;
    match probe_plan_lanes(alloc, store, &plan) {
        Ok(names) => Ok(PlanLanes { plan, names }),
        Err(stop) => {
            let_go(plan);
            Err(stop)
        }
    }
}

// What lanes become of which nothing was read. They are lent to all calls that may fail, so that one place lets them go.
fn receive_open<S: Store>(
    alloc: Global,
    store: &mut S,
    read: &PlanLanes,
    lanes: &mut OpenLanes,
) -> Result<Finished, Stop>
    requires count { S.faults store.old < 2 ^ 60 }
    requires names { map string_bytes read.now.names.items ≡ names_of_lanes (plan_value read.now.plan) }
    requires receiver { IsUnfed read.now.plan lanes.old.receiver }
    requires opened { lanes.old.lanes.names.now ≡ read.now.names.items }
    requires buffers { AreBuffers (map string_bytes lanes.old.lanes.names.now) lanes.old.lanes.buffers.items }
    requires fresh { All IsFresh lanes.old.lanes.buffers.items }
    requires offsets { lanes.old.offsets.items ≡ replicate (length read.now.names.items) (Some 0) }
    ensures cause { StopCount result (S.faults store.old) (S.faults store.new) }
    ensures others { Told (S.files store.old) (S.files store.new) (LeavesOthers (λ files q. Contains (plan_names (plan_value read.now.plan)) q)) }
    ensures fills { IfSome (S.files store.old) (λ files. (lanes : List (List ℕ)) → lanes_in files (names_of_lanes (plan_value read.now.plan)) ≡ Ok lanes →
        Fills (IsReceived (record { plan = plan_value read.now.plan; lanes = lanes })) (plan_names (plan_value read.now.plan) ++ names_of_lanes (plan_value read.now.plan)) result (S.files store.old) (S.files store.new)) }
{
    let plan = &read.plan;
    let channels = channels_in_order(alloc, plan.channels.as_slice())?;
    let mut receipt = Receipt::open(alloc, store, plan.out.as_str(), &channels, plan.link_type)?;
    let text = lanes.take_all(alloc, store, plan, &mut receipt)?;
    receipt.finish(alloc, store, text)
}

// What the lanes become.
fn receive_lanes<S: Store>(alloc: Global, store: &mut S, read: &PlanLanes) -> Result<Finished, Stop>
    requires count { S.faults store.old < 2 ^ 60 }
    requires names { map string_bytes read.now.names.items ≡ names_of_lanes (plan_value read.now.plan) }
    requires there { IfSome (S.files store.old) (λ files. (lanes : List (List ℕ)) × (lanes_in files (names_of_lanes (plan_value read.now.plan)) ≡ Ok lanes)) }
    ensures cause { StopCount result (S.faults store.old) (S.faults store.new) }
    ensures others { Told (S.files store.old) (S.files store.new) (LeavesOthers (λ files q. Contains (plan_names (plan_value read.now.plan)) q)) }
    ensures fills { IfSome (S.files store.old) (λ files. (lanes : List (List ℕ)) → lanes_in files (names_of_lanes (plan_value read.now.plan)) ≡ Ok lanes →
        Fills (IsReceived (record { plan = plan_value read.now.plan; lanes = lanes })) (plan_names (plan_value read.now.plan) ++ names_of_lanes (plan_value read.now.plan)) result (S.files store.old) (S.files store.new)) }
{
    let mut lanes = OpenLanes::new(alloc, &read.plan, read.names.as_slice())?;
    receive_open(alloc, store, read, &mut lanes)
}

/// `receive FILE`: the lanes of a plan become the captures of the plan's channels, by number, and the table of the fault spans,
/// under names that begin with the plan's `out`. The lanes are asked for before anything is created, and read during the work.
pub struct Receive;

impl FileCommand for Receive {
    ghost use Rattle.receive_commands.specs.Receive.{receive_meaning};

    ghost meaning = { receive_meaning };

    fn obey<S: Store>(alloc: Global, store: &mut S, file: &str) -> Result<Finished, Stop> {
        let read = read_plan_lanes(alloc, store, file)?;
        let finished = receive_lanes(alloc, store, &read);
        let_go(read.plan);
        finished
    }
}
