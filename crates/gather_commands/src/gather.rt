//! `gather FILE`, where FILE is a plan.
ghost use Rattle.std.specs.Prelude.{◌≡◌, ◌<◌, ◌^◌, ◌++◌, List, ℕ, Option, Some, Ok, All, Contains, length, map, replicate, IfSome, string_bytes};
ghost use Rattle.lk_outside.specs.Files.{Files, Told};
ghost use Rattle.link_plan.specs.Views.{plan_value};
ghost use Rattle.run_shell.specs.Outcome.{LeavesOthers};
ghost use Rattle.run_stops.specs.Stops.{StopCount};
ghost use Rattle.run_shell.specs.Writing.{Fills};
ghost use Rattle.lane_receipts.specs.LaneReports.{names_of_lanes};
ghost use Rattle.rx_front.specs.Calls.{nothing_fed};
ghost use Rattle.receive_commands.specs.Receive.{lanes_in};
ghost use Rattle.receive_commands.specs.ReadLanes.{AreBuffers, IsFresh};
ghost use Rattle.gather_commands.specs.Table.{gathered_names};
ghost use Rattle.gather_commands.specs.Gather.{IsGathered};
ghost use Rattle.gather_commands.specs.Taking.{IsGathering};

use crate::gatherer::Gatherer;
use crate::open_lanes::OpenLanes;
use lk_outside::Store;
use receive_commands::{PlanLanes, read_plan_lanes};
use run_shell::{FileCommand, Finished};
use run_stops::Stop;
use std::alloc::Global;

// What lanes become of which nothing was read. They are lent, with what they are gathered into, so that one place lets them go.
fn gather_open<S: Store>(
    alloc: Global,
    store: &mut S,
    read: &PlanLanes,
    lanes: &mut OpenLanes,
    gatherer: &mut Gatherer,
) -> Result<Finished, Stop>
    requires count { S.faults store.old < 2 ^ 60 }
    requires names { map string_bytes lanes.old.lanes.names.now ≡ names_of_lanes (plan_value read.now.plan) }
    requires buffers { AreBuffers (map string_bytes lanes.old.lanes.names.now) lanes.old.lanes.buffers.items }
    requires fresh { All IsFresh lanes.old.lanes.buffers.items }
    requires offsets { lanes.old.offsets.items ≡ replicate (length lanes.old.lanes.names.now) (Some 0) }
    requires gathering { (was : Option Files) × IsGathering (plan_value read.now.plan).out read.now.plan.link (nothing_fed read.now.plan.link.lanes) gatherer.old was (S.files store.old) }
    ensures cause { StopCount result (S.faults store.old) (S.faults store.new) }
    ensures others { (was : Option Files) → IsGathering (plan_value read.now.plan).out read.now.plan.link (nothing_fed read.now.plan.link.lanes) gatherer.old was (S.files store.old) →
        Told was (S.files store.new) (LeavesOthers (λ files q. Contains (gathered_names (plan_value read.now.plan).out) q)) }
    ensures fills { (was : Option Files) → IsGathering (plan_value read.now.plan).out read.now.plan.link (nothing_fed read.now.plan.link.lanes) gatherer.old was (S.files store.old) →
        IfSome was (λ files. (lanes : List (List ℕ)) → lanes_in files (names_of_lanes (plan_value read.now.plan)) ≡ Ok lanes →
        Fills (IsGathered (record { plan = plan_value read.now.plan; lanes = lanes })) (gathered_names (plan_value read.now.plan).out ++ names_of_lanes (plan_value read.now.plan)) result was (S.files store.new)) }
{
    let text = lanes.gather_all(alloc, store, &read.plan, gatherer)?;
    gatherer.gathered.finish(alloc, store, text)
}

// What the lanes become.
fn gather_lanes<S: Store>(alloc: Global, store: &mut S, read: &PlanLanes) -> Result<Finished, Stop>
    requires count { S.faults store.old < 2 ^ 60 }
    requires names { map string_bytes read.now.names.items ≡ names_of_lanes (plan_value read.now.plan) }
    requires there { IfSome (S.files store.old) (λ files. (lanes : List (List ℕ)) × (lanes_in files (names_of_lanes (plan_value read.now.plan)) ≡ Ok lanes)) }
    ensures cause { StopCount result (S.faults store.old) (S.faults store.new) }
    ensures others { Told (S.files store.old) (S.files store.new) (LeavesOthers (λ files q. Contains (gathered_names (plan_value read.now.plan).out) q)) }
    ensures fills { IfSome (S.files store.old) (λ files. (lanes : List (List ℕ)) → lanes_in files (names_of_lanes (plan_value read.now.plan)) ≡ Ok lanes →
        Fills (IsGathered (record { plan = plan_value read.now.plan; lanes = lanes })) (gathered_names (plan_value read.now.plan).out ++ names_of_lanes (plan_value read.now.plan)) result (S.files store.old) (S.files store.new)) }
{
    let plan = &read.plan;
    let mut lanes = OpenLanes::new(alloc, read.names.as_slice())?;
    let mut gatherer = Gatherer::new(alloc, store, &plan.link, plan.out.as_str())?;
    gather_open(alloc, store, read, &mut lanes, &mut gatherer)
}

// Drops a plan with the names of its lanes.
// proof: a function that drops one by itself is slow to prove
fn let_go(_read: PlanLanes) {}

/// `gather FILE`: the words of the lanes of a plan become the words file of the plan's `out`, one Bad word between two epochs, and
/// the places of their groups and breaks a table, `OUT.places.csv`. The lanes are asked for before anything is created, and read
/// during the work.
pub struct Gather;

impl FileCommand for Gather {
    ghost use Rattle.gather_commands.specs.Gather.{gather_meaning};

    ghost meaning = { gather_meaning };

    fn obey<S: Store>(alloc: Global, store: &mut S, file: &str) -> Result<Finished, Stop> {
        let read = read_plan_lanes(alloc, store, file)?;
        let finished = gather_lanes(alloc, store, &read);
        let_go(read);
        finished
    }
}
