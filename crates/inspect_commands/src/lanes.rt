//! Lanes are inspected, one after another.
ghost use Rattle.std.specs.Prelude.{◌≡◌, ◌<◌, ◌+◌, ◌^◌, ℕ, List, Option, IfSome, OnOk, Contains, length};
ghost use Rattle.lk_outside.specs.Files.{Files};
ghost use Rattle.run_stops.specs.Stops.{StopCount};
ghost use Rattle.run_shell.specs.Outputs.{Differ, IsOpen, blank, open_names};
ghost use Rattle.inspect_commands.specs.Telling.{AreShort, AreTold, FillsTable, TellsLanes, WritesTable};

use crate::lane::InspectedLane;
use crate::table::heading;
use lane_receipts::LanePieces;
use link_reports::{count_line, lane_line};
use lk_base::{Link, OutOfMemory};
use lk_outside::Store;
use run_shell::{Finished, Outputs};
use run_stops::Stop;
use std::alloc::Global;

/// What is kept of the lanes that were told.
#[derive(Drop)]
pub struct ToldLanes {
    /// The lines of their reports.
    pub lines: Vec<u8>,
    /// How many events they showed.
    pub events: u64,
}

// Tells the events of the next lane, and keeps the line of its report.
fn tell_lane<S: Store, P: LanePieces>(
    alloc: Global,
    store: &mut S,
    outputs: &mut Outputs,
    lanes: &mut P,
    link: &Link,
    lane: u32,
    told: &mut ToldLanes,
) -> Result<(), Stop>
    requires count { S.faults store.old < 2 ^ 60 }
    requires one { length outputs.old ≡ 1 }
    requires differ { Differ (open_names outputs.old) }
    requires number { lane < 64 }
    requires place { lane < P.lane_count lanes.old }
    requires limits { P.fits lanes.old }
    requires apart { (q : List ℕ) → Contains (P.file_names lanes.old) q → Contains (open_names outputs.old) q → ⊥ }
    requires told { (all : List (List ℕ)) × (was : Option Files) × (lane < length all) × AreTold link.now lane all (P.are_lanes lanes.old was all × AreShort all) told.old outputs.old was (S.files store.old) }
    ensures names { open_names outputs.new ≡ open_names outputs.old }
    ensures lanes { P.lane_count lanes.new ≡ P.lane_count lanes.old }
    ensures files { P.file_names lanes.new ≡ P.file_names lanes.old }
    ensures limits { OnOk result (P.fits lanes.new) }
    ensures cause { StopCount result (S.faults store.old) (S.faults store.new) }
    ensures tells { (all : List (List ℕ)) (was : Option Files) → lane < length all → AreTold link.now lane all (P.are_lanes lanes.old was all × AreShort all) told.old outputs.old was (S.files store.old) →
        TellsLanes link.now (lane + 1) all (P.are_lanes lanes.new was all × AreShort all) (P.file_names lanes.old) result told.new outputs.old outputs.new was (S.files store.new) }
{
    let mut inspected = InspectedLane::new(alloc, link)?;
    inspected.tell_all(alloc, store, outputs, lanes, lane)?;
    lane_line(alloc, &mut told.lines, lane, &inspected.inspector.report())?;
    told.events += inspected.events;
    Ok(())
}

// Tells the events of all lanes, lane 0 first.
fn tell_lanes<S: Store, P: LanePieces>(
    alloc: Global,
    store: &mut S,
    outputs: &mut Outputs,
    lanes: &mut P,
    link: &Link,
    told: &mut ToldLanes,
) -> Result<(), Stop>
    requires count { S.faults store.old < 2 ^ 60 }
    requires one { length outputs.old ≡ 1 }
    requires differ { Differ (open_names outputs.old) }
    requires many { P.lane_count lanes.old ≡ link.now.lanes }
    requires limits { P.fits lanes.old }
    requires apart { (q : List ℕ) → Contains (P.file_names lanes.old) q → Contains (open_names outputs.old) q → ⊥ }
    requires told { (all : List (List ℕ)) × (was : Option Files) × (length all ≡ link.now.lanes) × AreTold link.now 0 all (P.are_lanes lanes.old was all × AreShort all) told.old outputs.old was (S.files store.old) }
    ensures names { open_names outputs.new ≡ open_names outputs.old }
    ensures cause { StopCount result (S.faults store.old) (S.faults store.new) }
    ensures tells { (all : List (List ℕ)) (was : Option Files) → length all ≡ link.now.lanes → AreTold link.now 0 all (P.are_lanes lanes.old was all × AreShort all) told.old outputs.old was (S.files store.old) →
        TellsLanes link.now link.now.lanes all (P.are_lanes lanes.new was all × AreShort all) (P.file_names lanes.old) result told.new outputs.old outputs.new was (S.files store.new) }
{
    // proof: the lanes are few
    link.keeps_limits();
    for lane in 0..link.lanes() {
        tell_lane(alloc, store, outputs, lanes, link, lane, told)?;
    }
    Ok(())
}

// Gives the one output, which is empty, the table of the events of all lanes. It returns the text.
fn fill_table<S: Store, P: LanePieces>(
    alloc: Global,
    store: &mut S,
    outputs: &mut Outputs,
    lanes: &mut P,
    link: &Link,
) -> Result<Vec<u8>, Stop>
    requires count { S.faults store.old < 2 ^ 60 }
    requires one { length outputs.old ≡ 1 }
    requires differ { Differ (open_names outputs.old) }
    requires many { P.lane_count lanes.old ≡ link.now.lanes }
    requires limits { P.fits lanes.old }
    requires apart { (q : List ℕ) → Contains (P.file_names lanes.old) q → Contains (open_names outputs.old) q → ⊥ }
    requires open { (all : List (List ℕ)) × (was : Option Files) × (length all ≡ link.now.lanes) × IsOpen outputs.old (blank (open_names outputs.old)) was (S.files store.old) × IfSome was (λ files. P.are_lanes lanes.old was all × AreShort all) }
    ensures names { open_names outputs.new ≡ open_names outputs.old }
    ensures cause { StopCount result (S.faults store.old) (S.faults store.new) }
    ensures fills { (all : List (List ℕ)) (was : Option Files) → length all ≡ link.now.lanes → IsOpen outputs.old (blank (open_names outputs.old)) was (S.files store.old) → IfSome was (λ files. P.are_lanes lanes.old was all × AreShort all) →
        FillsTable link.now all (P.file_names lanes.old) result outputs.old outputs.new was (S.files store.new) }
{
    outputs.put(alloc, store, 0, heading())?;
    let mut told = ToldLanes {
        lines: Vec::new(alloc),
        events: 0,
    };
    tell_lanes(alloc, store, outputs, lanes, link, &mut told)?;
    count_line(alloc, &mut told.lines, "events", told.events)?;
    Ok(told.lines)
}

/// Writes the table of the events of all lanes into the one output, which is empty. The text is that of their reports and events.
/// No lane is read from a file that is the output.
pub fn write_table<S: Store, P: LanePieces>(
    alloc: Global,
    store: &mut S,
    outputs: &mut Outputs,
    lanes: &mut P,
    link: &Link,
) -> Result<Finished, Stop>
    requires count { S.faults store.old < 2 ^ 60 }
    requires one { length outputs.old ≡ 1 }
    requires differ { Differ (open_names outputs.old) }
    requires many { P.lane_count lanes.old ≡ link.now.lanes }
    requires limits { P.fits lanes.old }
    requires apart { (q : List ℕ) → Contains (P.file_names lanes.old) q → Contains (open_names outputs.old) q → ⊥ }
    requires open { (all : List (List ℕ)) × (was : Option Files) × (length all ≡ link.now.lanes) × IsOpen outputs.old (blank (open_names outputs.old)) was (S.files store.old) × IfSome was (λ files. P.are_lanes lanes.old was all × AreShort all) }
    ensures cause { StopCount result (S.faults store.old) (S.faults store.new) }
    ensures writes { (all : List (List ℕ)) (was : Option Files) → length all ≡ link.now.lanes → IsOpen outputs.old (blank (open_names outputs.old)) was (S.files store.old) → IfSome was (λ files. P.are_lanes lanes.old was all × AreShort all) →
        WritesTable link.now all (P.file_names lanes.old) result outputs.old was (S.files store.new) }
{
    let text = fill_table(alloc, store, outputs, lanes, link)?;
    outputs.finish(alloc, store)?;
    Ok(Finished { held: false, text })
}
