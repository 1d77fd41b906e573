//! One lane while it is inspected.
ghost use Rattle.std.specs.Prelude.{◌≡◌, ◌<◌, ◌≤◌, ◌+◌, ◌*◌, ◌^◌, ◌++◌, [], ◌∷◌, ℕ, true, Bool, List, Option, Ok, IfOk, OnOk, Contains, get_or, length};
ghost use Rattle.lk_base.specs.Checksum.{bits_of_bytes};
ghost use Rattle.lk_base.specs.Limits.{lane_limit};
ghost use Rattle.lk_base.specs.Link.{Settings};
ghost use Rattle.lk_outside.specs.Files.{Files};
ghost use Rattle.run_stops.specs.Stops.{StopCount, StoreStops};
ghost use Rattle.run_shell.specs.Outputs.{Differ, Grown, IsOpen, open_names};
ghost use Rattle.lane_events.specs.Events.{AreLaneEvents};
ghost use Rattle.lane_events.specs.Inspection.{Inspects};
ghost use Rattle.inspect_commands.specs.Table.{event_rows};
ghost use Rattle.inspect_commands.specs.Telling.{AreShort, IsTelling, IsWithin, TellsLane, TellsNext, TellsPiece};

use crate::table::event_rows;
use lane_events::{LaneEvent, LaneInspector};
use lane_receipts::LanePieces;
use lk_base::{LANE_LIMIT, Link, OutOfMemory};
use lk_outside::Store;
use run_shell::Outputs;
use run_stops::Stop;
use std::alloc::Global;

/// A lane that is inspected from its first byte on.
#[derive(Drop)]
pub struct InspectedLane {
    /// What shows its events.
    pub inspector: LaneInspector,
    /// How many of its bytes were taken.
    pub offset: u64,
    /// How many events they showed.
    pub events: u64,
}

// Gives the one output the rows of these events of the lane of this number.
fn put_events<S: Store>(
    alloc: Global,
    store: &mut S,
    outputs: &mut Outputs,
    lane: u32,
    events: &[LaneEvent],
) -> Result<(), Stop>
    requires count { S.faults store.old < 2 ^ 60 }
    requires one { length outputs.old ≡ 1 }
    requires differ { Differ (open_names outputs.old) }
    requires open { (given : List ℕ) × (was : Option Files) × IsOpen outputs.old (given ∷ []) was (S.files store.old) }
    ensures names { open_names outputs.new ≡ open_names outputs.old }
    ensures cause { StopCount result (S.faults store.old) (S.faults store.new) }
    ensures stops { StoreStops (Contains (open_names outputs.old)) result }
    ensures grown { (given : List ℕ) (was : Option Files) → IsOpen outputs.old (given ∷ []) was (S.files store.old) →
        Grown outputs.old outputs.new ((given ++ event_rows lane events.now) ∷ []) result was (S.files store.new) }
{
    // Most pieces show no event: then no writer of rows is made.
    if events.is_empty() {
        return Ok(());
    }
    let rows = event_rows(alloc, lane, events)?;
    outputs.put(alloc, store, 0, &rows)
}

impl InspectedLane {
    /// A lane of which nothing was taken.
    pub fn new(alloc: Global, link: &Link) -> Result<InspectedLane, OutOfMemory>
        ensures fresh { IfOk result (λ lane. (lane.offset ≡ 0) × (lane.events ≡ 0) × IsWithin lane) }
        ensures begins { IfOk result (λ lane. Inspects lane.inspector link.now [] × AreLaneEvents link.now [] []) }
    {
        let inspector = LaneInspector::new(alloc, link)?;
        Ok(InspectedLane {
            inspector,
            offset: 0,
            events: 0,
        })
    }

    // Takes the next bytes, and tells their events.
    fn tell<S: Store>(
        &mut self,
        alloc: Global,
        store: &mut S,
        outputs: &mut Outputs,
        lane: u32,
        piece: &[u8],
    ) -> Result<(), Stop>
        requires count { S.faults store.old < 2 ^ 60 }
        requires one { length outputs.old ≡ 1 }
        requires differ { Differ (open_names outputs.old) }
        requires open { (given : List ℕ) × (was : Option Files) × IsOpen outputs.old (given ∷ []) was (S.files store.old) }
        requires fits { IsWithin self.old }
        requires below { self.old.offset < lane_limit }
        requires few { length piece.now ≤ 4096 }
        ensures names { open_names outputs.new ≡ open_names outputs.old }
        ensures cause { StopCount result (S.faults store.old) (S.faults store.new) }
        ensures fits { OnOk result (IsWithin self.new) }
        ensures moved { OnOk result (self.new.offset ≡ self.old.offset + length piece.now) }
        ensures tells { (given : List ℕ) (was : Option Files) → IsOpen outputs.old (given ∷ []) was (S.files store.old) →
            TellsPiece lane piece.now given self.old self.new outputs.old outputs.new result was (S.files store.new) }
    {
        let mut found = Vec::new(alloc);
        self.inspector.inspect(piece, &mut found)?;
        put_events(alloc, store, outputs, lane, &found)?;
        self.offset += piece.len() as u64;
        self.events += found.len() as u64;
        Ok(())
    }

    // Takes the next bytes, if there are some, and tells their events; false where the lane is over. No byte past the limit of a lane
    // is told.
    fn tell_next<S: Store, P: LanePieces>(
        &mut self,
        alloc: Global,
        store: &mut S,
        outputs: &mut Outputs,
        lanes: &mut P,
        lane: u32,
    ) -> Result<bool, Stop>
        requires count { S.faults store.old < 2 ^ 60 }
        requires one { length outputs.old ≡ 1 }
        requires differ { Differ (open_names outputs.old) }
        requires place { lane < P.lane_count lanes.old }
        requires limits { P.fits lanes.old }
        requires apart { (q : List ℕ) → Contains (P.file_names lanes.old) q → Contains (open_names outputs.old) q → ⊥ }
        requires fits { IsWithin self.old }
        requires telling { (s : Settings) × (all : List (List ℕ)) × (given : List ℕ) × (was : Option Files) × IsTelling s lane (get_or all lane []) given (P.are_lanes lanes.old was all × AreShort all) self.old outputs.old was (S.files store.old) }
        ensures names { open_names outputs.new ≡ open_names outputs.old }
        ensures lanes { P.lane_count lanes.new ≡ P.lane_count lanes.old }
        ensures files { P.file_names lanes.new ≡ P.file_names lanes.old }
        ensures limits { OnOk result (P.fits lanes.new) }
        ensures cause { StopCount result (S.faults store.old) (S.faults store.new) }
        ensures fits { OnOk result (IsWithin self.new) }
        ensures further { result ≡ Ok true → self.old.offset < self.new.offset }
        ensures tells { (s : Settings) (all : List (List ℕ)) (given : List ℕ) (was : Option Files) → IsTelling s lane (get_or all lane []) given (P.are_lanes lanes.old was all × AreShort all) self.old outputs.old was (S.files store.old) →
            TellsNext s lane (get_or all lane []) given (P.are_lanes lanes.new was all × AreShort all) (P.file_names lanes.old) result self.new outputs.old outputs.new was (S.files store.new) }
    {
        if self.offset >= LANE_LIMIT {
            return Ok(false);
        }
        lanes.read_on(alloc, store, lane, self.offset)?;
        let piece = lanes.piece(lane, self.offset);
        if piece.is_empty() {
            return Ok(false);
        }
        self.tell(alloc, store, outputs, lane, piece)?;
        Ok(true)
    }

    /// Takes all bytes of a lane of which nothing was taken, and tells their events. The lane is read from no file that is an output.
    pub fn tell_all<S: Store, P: LanePieces>(
        &mut self,
        alloc: Global,
        store: &mut S,
        outputs: &mut Outputs,
        lanes: &mut P,
        lane: u32,
    ) -> Result<(), Stop>
        requires count { S.faults store.old < 2 ^ 60 }
        requires one { length outputs.old ≡ 1 }
        requires differ { Differ (open_names outputs.old) }
        requires place { lane < P.lane_count lanes.old }
        requires limits { P.fits lanes.old }
        requires apart { (q : List ℕ) → Contains (P.file_names lanes.old) q → Contains (open_names outputs.old) q → ⊥ }
        requires fits { IsWithin self.old }
        requires telling { (s : Settings) × (all : List (List ℕ)) × (given : List ℕ) × (was : Option Files) × IsTelling s lane (get_or all lane []) given (P.are_lanes lanes.old was all × AreShort all) self.old outputs.old was (S.files store.old) }
        ensures names { open_names outputs.new ≡ open_names outputs.old }
        ensures lanes { P.lane_count lanes.new ≡ P.lane_count lanes.old }
        ensures files { P.file_names lanes.new ≡ P.file_names lanes.old }
        ensures limits { OnOk result (P.fits lanes.new) }
        ensures cause { StopCount result (S.faults store.old) (S.faults store.new) }
        ensures fits { OnOk result (IsWithin self.new) }
        ensures tells { (s : Settings) (all : List (List ℕ)) (given : List ℕ) (was : Option Files) → IsTelling s lane (get_or all lane []) given (P.are_lanes lanes.old was all × AreShort all) self.old outputs.old was (S.files store.old) →
            TellsLane s lane (get_or all lane []) given (P.are_lanes lanes.new was all × AreShort all) (P.file_names lanes.old) result self.new outputs.old outputs.new was (S.files store.new) }
    {
        // proof: the label names the loop in its invariant
        'pieces: loop {
            if !self.tell_next(alloc, store, outputs, lanes, lane)? {
                return Ok(());
            }
        }
    }
}
