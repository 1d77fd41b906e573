//! The lanes of a plan while they are gathered from their files.
ghost use Rattle.std.specs.Prelude.{◌≡◌, ◌<◌, ◌^◌, ℕ, List, Option, Some, length, map, replicate, All, IfOk, Contains, string_bytes};
ghost use Rattle.lk_outside.specs.Files.{Files};
ghost use Rattle.rx_front.specs.Calls.{nothing_fed};
ghost use Rattle.run_stops.specs.Stops.{StopCount};
ghost use Rattle.run_shell.specs.Outputs.{open_names};
ghost use Rattle.receive_commands.specs.ReadLanes.{AreBuffers, AreFileLanes, IsFresh};
ghost use Rattle.gather_commands.specs.Taking.{IsGathering};
ghost use Rattle.gather_commands.specs.Lanes.{AreLinesOf, TakesLanes};

use crate::gatherer::Gatherer;
use crate::lanes::{lane_lines, take_lanes};
use lane_receipts::nothing_read;
use link_plan::Plan;
use lk_base::OutOfMemory;
use lk_outside::Store;
use receive_commands::FileLanes;
use run_stops::Stop;
use std::alloc::Global;

/// The lanes of a plan in their files, and how far each was read.
#[derive(Drop)]
pub struct OpenLanes<'n> {
    /// The lanes in their files.
    pub lanes: FileLanes<'n>,
    /// How far each was read.
    pub offsets: Vec<Option<u64>>,
}

impl<'n> OpenLanes<'n> {
    /// The lanes in the files of these names, of which nothing was read.
    pub fn new(alloc: Global, names: &'n [String]) -> Result<OpenLanes<'n>, OutOfMemory>
        ensures names { IfOk result (λ begun. begun.lanes.names.now ≡ names.now) }
        ensures buffers { IfOk result (λ begun. AreBuffers (map string_bytes begun.lanes.names.now) begun.lanes.buffers.items) }
        ensures fresh { IfOk result (λ begun. All IsFresh begun.lanes.buffers.items) }
        ensures offsets { IfOk result (λ begun. begun.offsets.items ≡ replicate (length names.now) (Some 0)) }
    {
        let offsets = nothing_read(alloc, names.len())?;
        let lanes = FileLanes::new(alloc, names)?;
        Ok(OpenLanes { lanes, offsets })
    }

    /// Feeds all lanes of the plan to their ends, and gathers all items of theirs. It returns the lines of their reports.
    pub fn gather_all<S: Store>(
        &mut self,
        alloc: Global,
        store: &mut S,
        plan: &Plan,
        gatherer: &mut Gatherer,
    ) -> Result<Vec<u8>, Stop>
        requires count { S.faults store.old < 2 ^ 60 }
        requires names { length self.old.lanes.names.now ≡ plan.now.link.lanes }
        requires buffers { AreBuffers (map string_bytes self.old.lanes.names.now) self.old.lanes.buffers.items }
        requires offsets { self.old.offsets.items ≡ replicate plan.now.link.lanes (Some 0) }
        requires apart { (q : List ℕ) → Contains (map string_bytes self.old.lanes.names.now) q → Contains (open_names gatherer.old.gathered.files.outputs) q → ⊥ }
        requires gathering { (out : List ℕ) × (was : Option Files) × IsGathering out plan.now.link (nothing_fed plan.now.link.lanes) gatherer.old was (S.files store.old) }
        ensures cause { StopCount result (S.faults store.old) (S.faults store.new) }
        ensures takes { (out : List ℕ) (was : Option Files) → IsGathering out plan.now.link (nothing_fed plan.now.link.lanes) gatherer.old was (S.files store.old) →
            TakesLanes out plan.now.link (nothing_fed plan.now.link.lanes) (AreFileLanes (map string_bytes self.old.lanes.names.now) self.old.lanes.buffers.items was) (map string_bytes self.old.lanes.names.now) result gatherer.new was (S.files store.new) }
        ensures lines { IfOk result (AreLinesOf gatherer.new.front plan.now.link.lanes) }
    {
        take_lanes(alloc, store, gatherer, &mut self.lanes, &mut self.offsets)?;
        let text = lane_lines(alloc, &gatherer.front, plan.link.lanes())?;
        Ok(text)
    }
}
