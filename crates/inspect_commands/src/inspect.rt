//! `inspect FILE`, where FILE is a plan.
ghost use Rattle.std.specs.Prelude.{◌≡◌, ◌<◌, ◌^◌, ◌++◌, [], ◌∷◌, List, ℕ, Ok, Contains, map, IfOk, IfSome, string_bytes};
ghost use Rattle.lk_outside.specs.Files.{Told};
ghost use Rattle.link_plan.specs.Views.{plan_value};
ghost use Rattle.run_shell.specs.Outcome.{LeavesOthers};
ghost use Rattle.run_stops.specs.Stops.{StopCount};
ghost use Rattle.run_shell.specs.Outputs.{Differ};
ghost use Rattle.run_shell.specs.Writing.{Fills};
ghost use Rattle.lane_receipts.specs.LaneReports.{names_of_lanes};
ghost use Rattle.receive_commands.specs.Receive.{lanes_in};
ghost use Rattle.inspect_commands.specs.Inspect.{IsInspected, events_name};

use crate::lanes::write_table;
use lk_base::OutOfMemory;
use lk_outside::Store;
use receive_commands::{FileLanes, PlanLanes, read_plan_lanes};
use run_shell::{FileCommand, Finished, Outputs, only_name};
use run_stops::Stop;
use std::alloc::Global;

// The name of the table, as the only one.
fn table_names(alloc: Global, out: &str) -> Result<Vec<String>, OutOfMemory>
    ensures names { IfOk result (λ v. map string_bytes v.items ≡ events_name out.now ∷ []) }
    ensures differ { IfOk result (λ v. Differ (map string_bytes v.items)) }
{
    only_name(alloc, format!(in alloc; "{out}.events.csv")?)
}

// What the lanes become.
fn inspect_lanes<S: Store>(alloc: Global, store: &mut S, read: &PlanLanes) -> Result<Finished, Stop>
    requires count { S.faults store.old < 2 ^ 60 }
    requires names { map string_bytes read.now.names.items ≡ names_of_lanes (plan_value read.now.plan) }
    requires there { IfSome (S.files store.old) (λ files. (lanes : List (List ℕ)) × (lanes_in files (names_of_lanes (plan_value read.now.plan)) ≡ Ok lanes)) }
    ensures cause { StopCount result (S.faults store.old) (S.faults store.new) }
    ensures others { Told (S.files store.old) (S.files store.new) (LeavesOthers (λ files q. Contains (events_name (plan_value read.now.plan).out ∷ []) q)) }
    ensures fills { IfSome (S.files store.old) (λ files. (lanes : List (List ℕ)) → lanes_in files (names_of_lanes (plan_value read.now.plan)) ≡ Ok lanes →
        Fills (IsInspected (record { plan = plan_value read.now.plan; lanes = lanes })) ((events_name (plan_value read.now.plan).out ∷ []) ++ names_of_lanes (plan_value read.now.plan)) result (S.files store.old) (S.files store.new)) }
{
    let plan = &read.plan;
    // proof: the lanes are few
    plan.link.keeps_limits();
    let names = table_names(alloc, plan.out.as_str())?;
    let mut lanes = FileLanes::new(alloc, read.names.as_slice())?;
    let mut outputs = Outputs::create(alloc, store, names)?;
    write_table(alloc, store, &mut outputs, &mut lanes, &plan.link)
}

// Drops a plan with the names of its lanes.
// proof: a function that drops one by itself is slow to prove
fn let_go(_read: PlanLanes) {}

/// `inspect FILE`: what each lane of a plan shows, and where, becomes a table, `OUT.events.csv`: what is wrong with the words that its
/// locks cover, and where locks are declared and lost. The lanes are asked for before anything is created, and then read to their
/// ends, one after another. The text has the line of each lane, and how many events there are.
pub struct Inspect;

impl FileCommand for Inspect {
    ghost use Rattle.inspect_commands.specs.Inspect.{inspect_meaning};

    ghost meaning = { inspect_meaning };

    fn obey<S: Store>(alloc: Global, store: &mut S, file: &str) -> Result<Finished, Stop> {
        let read = read_plan_lanes(alloc, store, file)?;
        let finished = inspect_lanes(alloc, store, &read);
        let_go(read);
        finished
    }
}
