ghost use Rattle.std.specs.Prelude.{◌≡◌, ◌<◌, ◌≤◌, true, false, length, map, All, IfOk};
ghost use Rattle.std.specs.Prelude.{◌+◌, ◌^◌, ◌⊎◌, min, take, List, ℕ};
ghost use Rattle.lk_base.specs.Link.{Settings};
ghost use Rattle.lock_model.specs.declared.types.LaneStep.{LaneStep as Step};
ghost use Rattle.lane_lock.specs.Search.{IsFar};
ghost use Rattle.std.specs.Int.{bit_at};
ghost use Rattle.event_model.specs.Fed.{Fed};
ghost use Rattle.rx_front.specs.Calls.{IsReportOf, IsStateOf, count_at, is_open, lanes_fed, lanes_finished, room_at};
ghost use Rattle.rx_front.specs.Lanes.{AllStand, AreCovered, AreTaken, AreWide, HasBytes, IsFresh, are_empty as have_no_byte, are_ready as can_be_taken, step_at};
ghost use Rattle.rx_front.specs.Batches.{KeepLocks, TookBatch};
ghost use Rattle.deskew.specs.Steps.{ticked};

use crate::batch::Batch;
use crate::fed_lane::FedLane;
use deskew::Deskew;
use lk_base::{Link, OutOfMemory};
use lock_model::{LaneReport, LaneState};
use std::alloc::Global;

/// Creates the lanes of a link, of which no byte came.
pub fn fresh_lanes(alloc: Global, link: &Link) -> Result<Vec<FedLane>, OutOfMemory>
    ensures count { IfOk result (λ lanes. length lanes.items ≡ link.now.lanes) }
    ensures each { IfOk result (λ lanes. All (λ v. IsFresh link.now v) lanes.items) }
    ensures wide { IfOk result (λ lanes. AreWide 8 lanes.items) }
{
    let mut lanes = Vec::new(alloc);
    for _lane in 0..link.lanes() {
        let lane = FedLane::new(alloc, link)?;
        lanes.push(lane)?;
    }
    Ok(lanes)
}

/// True if a round can be made: no lane that is not finished lacks a byte.
pub fn are_ready(lanes: &[FedLane]) -> bool
    ensures { result ≡ can_be_taken lanes.now }
{
    lanes.iter().all(|lane| lane.is_ready())
}

/// True if a round finds no byte of any lane.
pub fn are_empty(lanes: &[FedLane]) -> bool
    ensures { result ≡ have_no_byte lanes.now }
{
    lanes.iter().all(|lane| lane.is_empty())
}

/// Makes a round: takes one byte of every lane that is not at its end.
pub fn take_all(lanes: &mut [FedLane])
    requires { can_be_taken lanes.old ≡ true }
    ensures { AreTaken 1 lanes.old lanes.new }
{
    for i in 0..lanes.len() {
        lanes[i].take();
    }
}

/// Gives the deskew the steps of bit k of the last rounds, one of each lane.
pub fn show_steps(lanes: &[FedLane], k: u32, deskew: &mut Deskew)
    requires some { 0 < length lanes.now }
    requires few { length lanes.now ≤ 64 }
    requires count { length lanes.now ≡ deskew.old.settings.lanes }
    ensures { deskew.new ≡ ticked deskew.old (map (step_at k) lanes.now) }
{
    for i in 0..lanes.len() {
        deskew.take_step(i as u32, lanes[i].step(k));
    }
}

/// Counts the bits of a number that are 0 from bit k on, up to the next that is 1, or to bit `end`.
pub fn zeros_from(number: u64, k: u32, end: u32) -> u32
    requires order { k ≤ end }
    requires end { end ≤ 56 }
    ensures most { result + k ≤ end }
    ensures zeros { (j : ℕ) → k ≤ j → j < result + k → bit_at number j ≡ 0 }
{
    (number >> k).trailing_zeros().min(end - k)
}

/// Counts the rounds at once that find a byte of every lane each: at most `most`.
pub fn whole_rounds(lanes: &[FedLane], most: usize) -> usize
    ensures most { result ≤ most }
    ensures there { All (HasBytes result) lanes.now }
{
    let mut count = most;
    for lane in lanes {
        count = count.min(lane.bytes_there());
    }
    count
}

/// True if each lane is in a lock or far from one. Then no lane declares a lock in at most 536 rounds.
pub fn keep_locks(lanes: &[FedLane], deskew: &Deskew) -> bool
    requires few { length lanes.now ≤ 64 }
    requires count { length lanes.now ≡ deskew.now.settings.lanes }
    ensures keep { result ≡ true → KeepLocks deskew.now.lanes lanes.now }
    ensures lose { length deskew.now.lanes ≡ length lanes.now → result ≡ false → KeepLocks deskew.now.lanes lanes.now → ⊥ }
{
    for i in 0..lanes.len() {
        let locked = deskew.is_locked(i as u32);
        if !declares_none(&lanes[i], locked) {
            return false;
        }
    }
    true
}

// True if the lane is in a lock, as `locked` says, or far from one. Then it declares no lock in at most 536 rounds.
fn declares_none(lane: &FedLane, locked: bool) -> bool
    ensures none { result ≡ true → (locked ≡ true) ⊎ IsFar lane.now.lock }
    ensures some { result ≡ false → (locked ≡ true) ⊎ IsFar lane.now.lock → ⊥ }
{
    locked || lane.is_far()
}

/// Makes `count` rounds, at most 536, each of which finds a byte of every lane. Gives the deskew the steps that their bits show, lane
/// by lane. No step is kept.
pub fn take_batches(lanes: &mut [FedLane], count: usize, batch: &mut Batch, deskew: &mut Deskew)
    requires some { 1 ≤ count }
    requires most { count ≤ 536 }
    requires there { All (HasBytes count) lanes.old }
    requires few { length lanes.old ≤ 64 }
    requires count { length lanes.old ≡ deskew.old.settings.lanes }
    ensures { TookBatch count lanes.old lanes.new deskew.old deskew.new }
{
    for i in 0..lanes.len() {
        lanes[i].take_batch(i as u32, count, batch, deskew);
    }
}

/// Makes `count` rounds, each of which finds a byte of every lane. Returns the bits at which a lane may show something: if bit k of
/// the number is 0, no lane shows anything at bit k.
pub fn take_rounds(lanes: &mut [FedLane], count: u32) -> u64
    requires some { 1 ≤ count }
    requires most { count ≤ 7 }
    requires there { All (HasBytes count) lanes.old }
    ensures taken { AreTaken count lanes.old lanes.new }
    ensures shown { AreCovered result lanes.new }
{
    let mut shows = 0;
    for i in 0..lanes.len() {
        shows |= lanes[i].take_bytes(count);
    }
    shows
}

/// Feeds a lane, which is not finished. Returns the number of bytes that it took.
pub fn feed_at(lanes: &mut [FedLane], lane: u32, piece: &[u8]) -> usize
    requires unfinished { is_open lane lanes.old ≡ true }
    requires few { count_at lane lanes.old + length piece.now < 2 ^ 57 }
    ensures count { result ≡ min (length piece.now) (room_at lane lanes.old) }
    ensures lanes { lanes.new ≡ lanes_fed lane (take result piece.now) lanes.old }
{
    lanes[lane as usize].feed(piece)
}

/// Ends this lane, which is not finished: no further byte of it comes.
pub fn finish_at(lanes: &mut [FedLane], lane: u32)
    requires { is_open lane lanes.old ≡ true }
    ensures { lanes.new ≡ lanes_finished lane lanes.old }
{
    lanes[lane as usize].finish();
}

/// Returns the report of a lane over the bytes that the rounds took of it.
pub fn report_at(lanes: &[FedLane], lane: u32) -> LaneReport
    requires { lane < length lanes.now }
    ensures { (s : Settings) (rounds : ℕ) (fed : List Fed) (columns : List (List Step)) → AllStand lanes.now s rounds fed columns → IsReportOf s rounds lane fed result }
{
    lanes[lane as usize].report()
}

/// Returns how far the search for locks of a lane is after the bytes that the rounds took of it.
pub fn state_at(lanes: &[FedLane], lane: u32) -> LaneState
    requires { lane < length lanes.now }
    ensures { (s : Settings) (rounds : ℕ) (fed : List Fed) (columns : List (List Step)) → AllStand lanes.now s rounds fed columns → IsStateOf s rounds lane fed result }
{
    lanes[lane as usize].state()
}
