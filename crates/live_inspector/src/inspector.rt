ghost use Rattle.std.specs.Prelude.{◌≡◌, ◌<◌, ◌≤◌, ℕ, length, get_or, min, IfOk, if◌then◌else◌};
ghost use Rattle.live_inspector.specs.Lanes.{Lane};
ghost use Rattle.live_inspector.specs.Calls.{AreFresh, FeedsLane, FinishesLane, IsNext, IsReportOf, NoneDueBelow};

use crate::lane::LiveLane;
use crate::misuse::Misuse;
use crate::types::LiveEvent;
use lk_base::{Link, OutOfMemory};
use lock_model::LaneReport;
use std::alloc::Global;
use std::marker::Model;

/// Shows the events of the lanes of a link as their bytes arrive. Lanes are independent of one another. It takes memory when it is
/// created, and none after.
#[derive(Drop)]
pub struct LiveInspector {
    lanes: Vec<LiveLane>,
    /// No event is due on a lane below this one.
    lowest: usize,
}

impl Model for LiveInspector {
    ghost use Rattle.std.specs.Prelude.{◌≤◌, List, length};
    ghost use Rattle.live_inspector.specs.Lanes.{Lane};
    ghost use Rattle.live_inspector.specs.Calls.{NoneDueBelow};

    ghost Value = { List Lane };

    ghost view = { λ a. a.lanes.items };

    ghost invariant = { λ a. (length a.lanes.items ≤ 64) × NoneDueBelow a.lowest a.lanes.items };
}

// Creates the lanes of a link, of which nothing was taken.
fn fresh_lanes(alloc: Global, link: &Link) -> Result<Vec<LiveLane>, OutOfMemory>
    ensures { IfOk result (λ lanes. AreFresh link.now lanes.items) }
{
    let mut lanes = Vec::new(alloc);
    for number in 0..link.lanes() {
        let lane = LiveLane::new(alloc, link)?;
        lanes.push(lane)?;
    }
    Ok(lanes)
}

// Returns the lowest lane on which events are due, given the lowest before; `due` if some are due on this lane now.
fn lowest_with(lowest: usize, lane: usize, due: bool) -> usize
    ensures { result ≡ (if due then min lowest lane else lowest) }
{
    if due { lowest.min(lane) } else { lowest }
}

impl LiveInspector {
    /// Creates an inspector of the lanes of a link, of which nothing was taken.
    ///
    /// # Errors
    ///
    /// `OutOfMemory` if memory ran out, and only then.
    pub fn new(alloc: Global, link: &Link) -> Result<LiveInspector, OutOfMemory>
        ensures { IfOk result (AreFresh link.now) }
    {
        // proof: the lanes are few
        link.keeps_limits();
        let lanes = fresh_lanes(alloc, link)?;
        Ok(LiveInspector { lanes, lowest: 0 })
    }

    /// Returns the number of lanes: 1 to 64.
    pub fn lane_count(&self) -> usize
        ensures { result ≡ length self.now }
    {
        self.lanes.len()
    }

    /// Takes the first bytes of a piece of a lane, up to a word that shows events, and returns how many: none, while events of the lane
    /// are due.
    ///
    /// # Errors
    ///
    /// `NoLane`, `Finished` or `TooMany`; nothing has changed then.
    pub fn feed(&mut self, lane: u32, bytes: &[u8]) -> Result<usize, Misuse>
        ensures { FeedsLane self.old self.new lane bytes.now result }
    {
        let at = lane as usize;
        if at >= self.lanes.len() {
            return Err(Misuse::NoLane);
        }
        let answer = self.lanes[at].feed(bytes);
        let due = self.lanes[at].is_due();
        self.lowest = lowest_with(self.lowest, at, due);
        answer
    }

    /// Ends this lane: no further byte of it arrives.
    ///
    /// # Errors
    ///
    /// `NoLane` or `Finished`; nothing has changed then.
    pub fn finish(&mut self, lane: u32) -> Result<(), Misuse>
        ensures { FinishesLane self.old self.new lane result }
    {
        let at = lane as usize;
        if at >= self.lanes.len() {
            return Err(Misuse::NoLane);
        }
        self.lanes[at].finish()
    }

    /// Returns the next event that is due, if one is: of the lowest lane first, and of a lane in the order of its events.
    pub fn next(&mut self) -> Option<LiveEvent>
        ensures { IsNext self.old self.new result }
    {
        let at = self.first_due();
        self.lowest = at;
        if at >= self.lanes.len() {
            return None;
        }
        let event = self.lanes[at].next()?;
        Some(LiveEvent {
            lane: at as u32,
            bit: event.bit,
            kind: event.kind,
        })
    }

    // Returns the lowest lane on which events are due, or the number of lanes if none is.
    fn first_due(&self) -> usize
        ensures within { result ≤ length self.now }
        ensures none { NoneDueBelow result self.now }
        ensures some { result < length self.now → (d : Lane) → length (get_or self.now result d).due ≡ 0 → ⊥ }
    {
        for at in self.lowest..self.lanes.len() {
            let due = self.lanes[at].is_due();
            if due {
                return at;
            }
        }
        self.lanes.len()
    }

    /// Returns the report of a lane over the bytes that were taken of it.
    ///
    /// # Errors
    ///
    /// `NoLane`.
    pub fn report(&self, lane: u32) -> Result<LaneReport, Misuse>
        ensures { IsReportOf self.now lane result }
    {
        let at = lane as usize;
        if at >= self.lanes.len() {
            return Err(Misuse::NoLane);
        }
        Ok(self.lanes[at].report())
    }
}
