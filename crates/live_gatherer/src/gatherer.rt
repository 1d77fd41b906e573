//! A gatherer of the lanes of a link, and the calls on it.
ghost use Rattle.std.specs.Prelude.{◌≡◌, ◌≤◌, [], None, Ok, false, true, IfOk, length, replicate};
ghost use Rattle.rx_front.specs.Calls.{nothing_fed};
ghost use Rattle.live_gatherer.specs.Misuses.{feed_misuse, lane_misuse};
ghost use Rattle.live_gatherer.specs.Runs.{Runs};

use crate::misuse::{self, Misuse};
use crate::taker::Taker;
use crate::types::Gathered;
use lk_base::{Link, OutOfMemory};
use lock_model::LaneReport;
use std::alloc::Global;

/// What gives the words of the aligned lanes of a link as their bytes come. It takes memory when it is made, and none after.
#[derive(Drop)]
pub struct LiveGatherer {
    /// The front, and what was counted of its items.
    pub taker: Taker,
    /// The end was given.
    pub over: bool,
    /// Which lanes are finished.
    finished: Vec<bool>,
    /// How many bytes each lane was fed.
    fed: Vec<usize>,
    ghost runs: { ∥ Runs taker finished.items fed.items ∥₁ },
}

// This many lanes that are not finished.
fn none_finished(alloc: Global, lanes: usize) -> Result<Vec<bool>, OutOfMemory>
    ensures { IfOk result (λ v. v.items ≡ replicate lanes false) }
{
    let finished = vec![in alloc; false; lanes]?;
    Ok(finished)
}

// This many lanes that were fed no byte.
fn none_fed(alloc: Global, lanes: usize) -> Result<Vec<usize>, OutOfMemory>
    ensures { IfOk result (λ v. v.items ≡ replicate lanes 0) }
{
    let fed = vec![in alloc; 0usize; lanes]?;
    Ok(fed)
}

impl LiveGatherer {
    ghost use Rattle.live_gatherer.specs.Calls.{IsFeed, IsFinish, IsNext, IsReport};
    ghost use Rattle.live_gatherer.specs.Standing.{Stands};

    /// A gatherer of the lanes of a link, of which nothing was fed.
    ///
    /// # Errors
    ///
    /// `OutOfMemory` if memory ran out, and only then.
    pub fn new(alloc: Global, link: &Link) -> Result<LiveGatherer, OutOfMemory>
        ensures { IfOk result (λ g. Stands g link.now (nothing_fed link.now.lanes) []) }
    {
        let lanes = link.lanes() as usize;
        let finished = none_finished(alloc, lanes)?;
        let fed = none_fed(alloc, lanes)?;
        let taker = Taker::new(alloc, link)?;
        Ok(LiveGatherer {
            taker,
            over: false,
            finished,
            fed,
        })
    }

    // Why a lane takes no byte and no end.
    fn lane_misuse(&self, lane: u32) -> Option<Misuse>
        ensures { result ≡ lane_misuse self.now.taker.front lane }
    {
        misuse::lane_misuse(&self.finished, lane)
    }

    // Why a lane does not take a piece of this many bytes.
    fn feed_misuse(&self, lane: u32, count: usize) -> Option<Misuse>
        ensures { result ≡ feed_misuse self.now.taker.front lane count }
    {
        match self.lane_misuse(lane) {
            Some(why) => Some(why),
            None => misuse::piece_misuse(self.fed[lane as usize], count),
        }
    }

    /// Feeds a lane with the longest prefix of the piece that its ring of 4,096 bytes has room for, and returns how many bytes that is.
    ///
    /// # Errors
    ///
    /// `NoLane`, `Finished` or `TooMany`; nothing has changed then.
    pub fn feed(&mut self, lane: u32, piece: &[u8]) -> Result<usize, Misuse>
        ensures { IsFeed self.old self.new lane piece.now result }
    {
        match self.feed_misuse(lane, piece.len()) {
            Some(why) => Err(why),
            None => Ok(self.take(lane, piece)),
        }
    }

    // Feeds a lane that takes the piece.
    fn take(&mut self, lane: u32, piece: &[u8]) -> usize
        requires { feed_misuse self.old.taker.front lane (length piece.now) ≡ None }
        ensures { IsFeed self.old self.new lane piece.now (Ok result) }
    {
        let count = self.taker.front.feed(lane, piece);
        self.fed[lane as usize] += count;
        count
    }

    /// No further byte of this lane comes.
    ///
    /// # Errors
    ///
    /// `NoLane` or `Finished`; nothing has changed then.
    pub fn finish(&mut self, lane: u32) -> Result<(), Misuse>
        ensures { IsFinish self.old self.new lane result }
    {
        match self.lane_misuse(lane) {
            Some(why) => Err(why),
            None => {
                self.end_lane(lane);
                Ok(())
            }
        }
    }

    // Finishes a lane that is not finished.
    fn end_lane(&mut self, lane: u32)
        requires { lane_misuse self.old.taker.front lane ≡ None }
        ensures { IsFinish self.old self.new lane (Ok tt) }
    {
        self.finished[lane as usize] = true;
        self.taker.front.finish(lane);
    }

    /// The next word or break, or the end. `None` exactly if a lane that is not finished lacks bytes, and all that is known was given,
    /// or after the end, which comes once.
    // why: it has two callers, and as a call of its own it takes a fifth more instructions.
    #[inline(always)]
    pub fn next(&mut self) -> Option<Gathered>
        ensures { IsNext self.old self.new result }
    {
        if self.over {
            return None;
        }
        match self.taker.next() {
            Some(given) => return Some(given),
            None => {}
        }
        if !self.taker.front.is_over() {
            return None;
        }
        self.over = true;
        Some(Gathered::Ended)
    }

    /// The report of a lane over the bytes that were taken from its ring.
    ///
    /// # Errors
    ///
    /// `NoLane`.
    pub fn report(&self, lane: u32) -> Result<LaneReport, Misuse>
        ensures { IsReport self.now lane result }
    {
        if lane as usize >= self.finished.len() {
            return Err(Misuse::NoLane);
        }
        Ok(self.taker.front.lane_report(lane))
    }
}
