//! Lanes are fed to a receiver, in turn, and its events go into a receipt.
ghost use Rattle.std.specs.Prelude.{◌≡◌, ◌<◌, ◌≤◌, ◌^◌, List, ℕ, Some, true, length, map, slice_get, Contains, OnOk};
ghost use Rattle.lk_base.specs.Link.{Settings};
ghost use Rattle.receive_model.specs.Events.{Event};
ghost use Rattle.event_model.specs.Fed.{Fed};
ghost use Rattle.rx_end.specs.Observing.{HasToldSome};
ghost use Rattle.run_stops.specs.Stops.{StopCount};
ghost use Rattle.run_shell.specs.Outputs.{open_names};
ghost use Rattle.receipts.specs.Receipts.{Beginning};
ghost use Rattle.lane_receipts.specs.Feeding.{IsTaking, offset_of};
ghost use Rattle.lane_receipts.specs.Taking.{ObservesLanes, TakesLanes};

use crate::lane_events::take_events;
use crate::lane_offsets::least_open;
use crate::lane_pieces::{LanePieces, feed_piece};
use lk_outside::Store;
use receipts::Receipt;
use run_stops::Stop;
use rx_end::{Observer, Receiver};
use std::alloc::Global;

/// Feeds all lanes to their ends, and takes all of their events. The observer is told what the receiver takes of its front. The lane
/// of which the least was fed is always the next. No lane is read from a file that is an output of the receipt.
pub fn take_lanes<S: Store, P: LanePieces, O: Observer>(
    alloc: Global,
    store: &mut S,
    receipt: &mut Receipt,
    receiver: &mut Receiver,
    observer: &mut O,
    lanes: &mut P,
    offsets: &mut [Option<u64>],
) -> Result<(), Stop>
    requires count { S.faults store.old < 2 ^ 60 }
    requires few { length offsets.old < 2 ^ 32 }
    requires many { P.lane_count lanes.old ≡ length offsets.old }
    requires limits { P.fits lanes.old }
    requires within { (lane at : ℕ) → slice_get offsets.old lane ≡ Some (Some at) → at ≤ 2 ^ 56 }
    requires apart { (q : List ℕ) → Contains (P.file_names lanes.old) q → Contains (open_names receipt.old.outputs) q → ⊥ }
    requires told { O.asks ≡ true → HasToldSome O.keeps observer.old receiver.old }
    requires taking { (b : Beginning) × (s : Settings) × (fed : List Fed) × (given : List Event) × IsTaking b s fed given receiver.old receipt.old (S.files store.old) × (offsets.old ≡ map offset_of fed) }
    ensures cause { StopCount result (S.faults store.old) (S.faults store.new) }
    ensures takes { (b : Beginning) (s : Settings) (fed : List Fed) (given : List Event) → IsTaking b s fed given receiver.old receipt.old (S.files store.old) → offsets.old ≡ map offset_of fed →
        TakesLanes b s fed (P.are_lanes lanes.old b.was) (P.file_names lanes.old) result receiver.new receipt.new (S.files store.new) }
    ensures fixed { O.fixed observer.new ≡ O.fixed observer.old }
    ensures observes { OnOk result ((b : Beginning) (s : Settings) (fed : List Fed) (given : List Event) → IsTaking b s fed given receiver.old receipt.old (S.files store.old) → offsets.old ≡ map offset_of fed →
        ObservesLanes O.keeps O.saw observer.old observer.new receiver.old receiver.new s fed (P.are_lanes lanes.old b.was)) }
{
    take_events(alloc, store, receipt, receiver, observer)?;
    while let Some(next) = least_open(offsets) {
        lanes.read_on(alloc, store, next.lane, next.offset)?;
        let piece = lanes.piece(next.lane, next.offset);
        feed_piece(receiver, offsets, next, piece);
        take_events(alloc, store, receipt, receiver, observer)?;
    }
    Ok(())
}
