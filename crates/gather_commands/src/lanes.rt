//! Lanes go over into a gatherer, in turn.
ghost use Rattle.std.specs.Prelude.{◌≡◌, ◌<◌, ◌≤◌, ◌+◌, ◌^◌, ℕ, true, List, Option, Some, IfOk, Contains, length, map, set, slice_get};
ghost use Rattle.lk_base.specs.Link.{Settings};
ghost use Rattle.lk_base.specs.declared.word.Aligned.{Aligned as Item};
ghost use Rattle.lk_outside.specs.Files.{Files};
ghost use Rattle.event_model.specs.Fed.{Fed};
ghost use Rattle.rx_front.specs.Calls.{count_at, is_open, room_at};
ghost use Rattle.rx_front.specs.Standing.{Progress, Stands};
ghost use Rattle.run_stops.specs.Stops.{StopCount};
ghost use Rattle.run_shell.specs.Outputs.{open_names};
ghost use Rattle.lane_receipts.specs.Feeding.{fed_next, offset_next, offset_of};
ghost use Rattle.gather_commands.specs.Taking.{IsGathering};
ghost use Rattle.gather_commands.specs.Lanes.{AreLinesOf, TakesLanes};

use crate::gatherer::Gatherer;
use lane_receipts::{LanePieces, OpenLane, least_open};
use link_reports::lane_line;
use lk_base::OutOfMemory;
use lk_outside::Store;
use run_stops::Stop;
use rx_front::Front;
use std::alloc::Global;

// A piece of a lane comes; where it is empty the lane is over. The lane has room for it.
fn feed_piece(front: &mut Front, offsets: &mut [Option<u64>], next: OpenLane, piece: &[u8])
    requires unfinished { is_open next.lane front.old.lanes ≡ true }
    requires counted { count_at next.lane front.old.lanes ≡ next.offset }
    requires room { room_at next.lane front.old.lanes ≡ 4096 }
    requires small { length piece.now ≤ 4096 }
    requires within { next.offset + length piece.now < 2 ^ 57 }
    requires place { next.lane < length offsets.old }
    ensures stands { (s : Settings) (fed : List Fed) (items : List Item) (t : Progress) →
        Stands front.old s fed items t → Stands front.new s (fed_next next.lane piece.now fed) items t }
    ensures offsets { offsets.new ≡ set offsets.old next.lane (offset_next next.offset piece.now) }
{
    if piece.is_empty() {
        front.finish(next.lane);
        offsets[next.lane as usize] = None;
    } else {
        let count = front.feed(next.lane, piece);
        offsets[next.lane as usize] = Some(next.offset + count as u64);
    }
}

/// Feeds all lanes to their ends, and gathers all items of theirs. The lane of which the least was fed is always the next. No lane
/// is read from a file that is gathered into.
pub fn take_lanes<S: Store, P: LanePieces>(
    alloc: Global,
    store: &mut S,
    gatherer: &mut Gatherer,
    lanes: &mut P,
    offsets: &mut [Option<u64>],
) -> Result<(), Stop>
    requires count { S.faults store.old < 2 ^ 60 }
    requires few { length offsets.old < 2 ^ 32 }
    requires many { P.lane_count lanes.old ≡ length offsets.old }
    requires limits { P.fits lanes.old }
    requires within { (lane at : ℕ) → slice_get offsets.old lane ≡ Some (Some at) → at ≤ 2 ^ 56 }
    requires apart { (q : List ℕ) → Contains (P.file_names lanes.old) q → Contains (open_names gatherer.old.gathered.files.outputs) q → ⊥ }
    requires gathering { (out : List ℕ) × (s : Settings) × (fed : List Fed) × (was : Option Files) × IsGathering out s fed gatherer.old was (S.files store.old) × (offsets.old ≡ map offset_of fed) }
    ensures cause { StopCount result (S.faults store.old) (S.faults store.new) }
    ensures takes { (out : List ℕ) (s : Settings) (fed : List Fed) (was : Option Files) → IsGathering out s fed gatherer.old was (S.files store.old) → offsets.old ≡ map offset_of fed →
        TakesLanes out s fed (P.are_lanes lanes.old was) (P.file_names lanes.old) result gatherer.new was (S.files store.new) }
{
    gatherer.take_known(alloc, store)?;
    while let Some(next) = least_open(offsets) {
        lanes.read_on(alloc, store, next.lane, next.offset)?;
        let piece = lanes.piece(next.lane, next.offset);
        feed_piece(&mut gatherer.front, offsets, next, piece);
        gatherer.take_known(alloc, store)?;
    }
    Ok(())
}

/// The lines of the reports of this many lanes, which are those of the front.
pub fn lane_lines(alloc: Global, front: &Front, lanes: u32) -> Result<Vec<u8>, OutOfMemory>
    requires { lanes ≤ length front.now.lanes }
    ensures { IfOk result (AreLinesOf front.now lanes) }
{
    let mut text = Vec::new(alloc);
    for lane in 0..lanes {
        let report = front.lane_report(lane);
        lane_line(alloc, &mut text, lane, &report)?;
    }
    Ok(text)
}
