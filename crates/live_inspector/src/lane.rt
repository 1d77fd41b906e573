//! One lane that is inspected as it arrives.
ghost use Rattle.std.specs.Prelude.{◌≡◌, ◌==◌, not, None, length, IfOk, IfNone};
ghost use Rattle.std.specs.List.{cons_option};
ghost use Rattle.lk_base.specs.Checksum.{bits_of_bytes};
ghost use Rattle.lk_base.specs.Link.{Settings};
ghost use Rattle.lane_lock.specs.Standing.{IsReport};
ghost use Rattle.live_inspector.specs.Lanes.{IsFeed, IsFinish, IsFresh, Stands, Takes, Told, feed_misuse as feed_misuse_of};

use crate::misuse::Misuse;
use lane_events::{DueEvents, LaneEvent, LaneInspector};
use lane_model::LANE_BYTES_LIMIT;
use lk_base::{Link, OutOfMemory};
use lock_model::LaneReport;
use std::alloc::Global;
use std::marker::Model;

/// One lane that is inspected as it arrives. It takes memory when it is created, and none after.
#[derive(Drop)]
pub struct LiveLane {
    inspector: LaneInspector,
    /// How many of its bytes were taken.
    taken: usize,
    /// The events of its last word that are due.
    due: DueEvents,
    /// True if no further byte of it arrives.
    finished: bool,
}

impl Model for LiveLane {
    ghost use Rattle.std.specs.Prelude.{◌≡◌, ◌<◌, ◌*◌, ◌^◌};
    ghost use Rattle.live_inspector.specs.Lanes.{Lane};

    ghost Value = { Lane };

    ghost view = { λ a. record { inspector = a.inspector; taken = a.taken; due = a.due; finished = a.finished } };

    ghost invariant = { λ a. (a.inspector.taken ≡ 8 * a.taken) × (a.taken < 2 ^ 41) };
}

impl LiveLane {
    /// Creates a lane of which nothing was taken.
    ///
    /// # Errors
    ///
    /// `OutOfMemory` if memory ran out, and only then.
    pub fn new(alloc: Global, link: &Link) -> Result<LiveLane, OutOfMemory>
        ensures { IfOk result (IsFresh link.now) }
    {
        let inspector = LaneInspector::new(alloc, link)?;
        Ok(LiveLane {
            inspector,
            taken: 0,
            due: DueEvents::of(None),
            finished: false,
        })
    }

    // Returns why it does not take a piece of `count` bytes, if it does not.
    fn feed_misuse(&self, count: usize) -> Option<Misuse>
        ensures { result ≡ feed_misuse_of self.now count }
    {
        if self.finished {
            return Some(Misuse::Finished);
        }
        if self.taken >= LANE_BYTES_LIMIT || count >= LANE_BYTES_LIMIT {
            return Some(Misuse::TooMany);
        }
        None
    }

    /// Takes the first bytes of a piece, up to a word that shows events, and returns how many: none, while events are due.
    ///
    /// # Errors
    ///
    /// `Finished` or `TooMany`; the lane is then as it was.
    pub fn feed(&mut self, piece: &[u8]) -> Result<usize, Misuse>
        ensures { IsFeed self.old self.new piece.now result }
    {
        match self.feed_misuse(piece.len()) {
            Some(why) => Err(why),
            None => Ok(self.take(piece)),
        }
    }

    // Takes bytes of a piece that the lane takes.
    fn take(&mut self, piece: &[u8]) -> usize
        requires { feed_misuse_of self.old (length piece.now) ≡ None }
        ensures { Takes self.old self.new piece.now result }
    {
        if self.is_due() {
            return 0;
        }
        let (count, shown) = self.inspector.take_until_events(piece);
        self.due = DueEvents::of(shown);
        self.taken += count;
        count
    }

    /// Ends the lane: no further byte of it arrives.
    ///
    /// # Errors
    ///
    /// `Finished`; the lane is then as it was.
    pub fn finish(&mut self) -> Result<(), Misuse>
        ensures { IsFinish self.old self.new result }
    {
        if self.finished {
            return Err(Misuse::Finished);
        }
        self.finished = true;
        Ok(())
    }

    /// True if events are due.
    pub fn is_due(&self) -> bool
        ensures { result ≡ not (length self.now.due == 0) }
    {
        !self.due.is_empty()
    }

    /// Returns the next event, if one is due: it is due no longer.
    pub fn next(&mut self) -> Option<LaneEvent>
        ensures given { self.old.due ≡ cons_option result self.new.due }
        ensures same { self.new ≡ record self.old { due = self.new.due } }
        ensures none { IfNone result (length self.old.due ≡ 0) }
    {
        self.due.next()
    }

    /// Returns the report over the bytes that were taken.
    pub fn report(&self) -> LaneReport
        ensures { (s : Settings) (t : Told) → Stands s self.now t → IsReport s (bits_of_bytes t.bytes) result }
    {
        self.inspector.report()
    }
}
