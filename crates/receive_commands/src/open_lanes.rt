//! The lanes of a plan while they are received from their files.
ghost use Rattle.std.specs.Prelude.{◌≡◌, ◌<◌, ◌^◌, [], ℕ, List, Some, length, map, replicate, All, IfOk, Contains, string_bytes};
ghost use Rattle.rx_front.specs.Calls.{nothing_fed};
ghost use Rattle.rx_end.specs.Standing.{IsUnfed};
ghost use Rattle.run_stops.specs.Stops.{StopCount};
ghost use Rattle.run_shell.specs.Outputs.{open_names};
ghost use Rattle.receipts.specs.Receipts.{Beginning};
ghost use Rattle.lane_receipts.specs.Feeding.{IsTaking};
ghost use Rattle.lane_receipts.specs.Taking.{TakesLanes};
ghost use Rattle.receive_commands.specs.OpenLanes.{AreLinesOf};
ghost use Rattle.receive_commands.specs.ReadLanes.{AreBuffers, AreFileLanes, IsFresh};

use crate::lanes::FileLanes;
use lane_receipts::{lane_lines, nothing_read, take_lanes};
use link_plan::Plan;
use lk_base::OutOfMemory;
use lk_outside::Store;
use receipts::Receipt;
use run_stops::Stop;
use rx_end::Receiver;
use std::alloc::Global;

/// The lanes of a plan, how far each was read, and the receiver that they go over into.
#[derive(Drop)]
pub struct OpenLanes<'n> {
    /// The receiver that they go over into.
    pub receiver: Receiver,
    /// The lanes in their files.
    pub lanes: FileLanes<'n>,
    /// How far each was read.
    pub offsets: Vec<Option<u64>>,
}

impl<'n> OpenLanes<'n> {
    /// The lanes of a plan in the files of these names, of which nothing was read.
    pub fn new(
        alloc: Global,
        plan: &Plan,
        names: &'n [String],
    ) -> Result<OpenLanes<'n>, OutOfMemory>
        ensures receiver { IfOk result (λ begun. IsUnfed plan.now begun.receiver) }
        ensures names { IfOk result (λ begun. begun.lanes.names.now ≡ names.now) }
        ensures buffers { IfOk result (λ begun. AreBuffers (map string_bytes begun.lanes.names.now) begun.lanes.buffers.items) }
        ensures fresh { IfOk result (λ begun. All IsFresh begun.lanes.buffers.items) }
        ensures offsets { IfOk result (λ begun. begun.offsets.items ≡ replicate (length names.now) (Some 0)) }
    {
        let offsets = nothing_read(alloc, names.len())?;
        let lanes = FileLanes::new(alloc, names)?;
        let receiver = Receiver::new(alloc, plan)?;
        Ok(OpenLanes {
            receiver,
            lanes,
            offsets,
        })
    }

    /// Feeds all lanes of the plan to their ends, and takes all events of theirs into a receipt. It returns the lines of their
    /// reports.
    pub fn take_all<S: Store>(
        &mut self,
        alloc: Global,
        store: &mut S,
        plan: &Plan,
        receipt: &mut Receipt,
    ) -> Result<Vec<u8>, Stop>
        requires count { S.faults store.old < 2 ^ 60 }
        requires names { length self.old.lanes.names.now ≡ plan.now.link.lanes }
        requires buffers { AreBuffers (map string_bytes self.old.lanes.names.now) self.old.lanes.buffers.items }
        requires offsets { self.old.offsets.items ≡ replicate plan.now.link.lanes (Some 0) }
        requires apart { (q : List ℕ) → Contains (map string_bytes self.old.lanes.names.now) q → Contains (open_names receipt.old.outputs) q → ⊥ }
        requires taking { (b : Beginning) × IsTaking b plan.now.link (nothing_fed plan.now.link.lanes) [] self.old.receiver receipt.old (S.files store.old) }
        ensures cause { StopCount result (S.faults store.old) (S.faults store.new) }
        ensures takes { (b : Beginning) → IsTaking b plan.now.link (nothing_fed plan.now.link.lanes) [] self.old.receiver receipt.old (S.files store.old) →
            TakesLanes b plan.now.link (nothing_fed plan.now.link.lanes) (AreFileLanes (map string_bytes self.old.lanes.names.now) self.old.lanes.buffers.items b.was) (map string_bytes self.old.lanes.names.now) result self.new.receiver receipt.new (S.files store.new) }
        ensures lines { IfOk result (AreLinesOf self.new.receiver plan.now.link.lanes) }
    {
        take_lanes(
            alloc,
            store,
            receipt,
            &mut self.receiver,
            &mut (),
            &mut self.lanes,
            &mut self.offsets,
        )?;
        let text = lane_lines(alloc, &self.receiver, plan.link.lanes())?;
        Ok(text)
    }
}
