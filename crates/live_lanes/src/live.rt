ghost use Rattle.std.specs.Prelude.{◌≡◌, ◌≤◌, ◌++◌, ◌==◌, ℕ, true, false, length, take, drop, min, IfOk};
ghost use Rattle.live_lanes.specs.Lanes.{AreGone, AreKept, AreLonger, has_room, waiting_on, wants_payload};
ghost use Rattle.live_lanes.specs.Standing.{Progress, Stands, begun, framed, took, with_row};

use crate::columns::{finish_each, frame_each, have_room, make_lanes, next_place, put_each};
use crate::lane::LiveLane;
use lk_base::{Link, OutOfMemory, Word};
use std::alloc::Global;
use std::marker::Model;

/// The lanes of a link as they are sent. All are in step: each call makes one word of each lane, and the whole bytes of it wait in
/// the lane's ring, of 4,096 bytes, until they are taken.
#[derive(Drop)]
pub struct LiveLanes {
    link: Link,
    lanes: Vec<LiveLane>,
    /// The place of the next words in their metaframe.
    place: u32,
    /// True if each lane has its last byte.
    ended: bool,
}

impl Model for LiveLanes {
    ghost use Rattle.live_lanes.specs.States.{Lanes, lanes_of};
    ghost use Rattle.live_lanes.specs.Standing.{Progress, Stands};

    ghost Value = { Lanes };

    ghost view = { λ a. lanes_of a.link a.lanes.items a.place a.ended };

    ghost invariant = { λ a. (p : Progress) × Stands (lanes_of a.link a.lanes.items a.place a.ended) p };
}

impl LiveLanes {
    /// Creates the lanes of a link before their first words. They take memory here, and no later call does.
    ///
    /// # Errors
    ///
    /// `OutOfMemory` if memory ran out, and only then.
    pub fn new(alloc: Global, link: &Link) -> Result<LiveLanes, OutOfMemory>
        ensures { IfOk result (λ v. Stands v (begun link.now) × (v.ended ≡ false)) }
    {
        // proof: the settings of a link are within their limits
        link.keeps_limits();
        let lanes = make_lanes(alloc, link)?;
        Ok(LiveLanes {
            link: *link,
            lanes,
            place: 0,
            ended: false,
        })
    }

    /// Returns how many lanes there are: 1 to 64.
    pub fn count(&self) -> usize
        ensures { result ≡ length self.now.lanes }
    {
        self.lanes.len()
    }

    /// True if each ring has room for the bytes of one word more: 9 at most.
    pub fn has_room(&self) -> bool
        ensures { result ≡ has_room self.now }
    {
        have_room(&self.lanes)
    }

    /// True if the next word of each lane is a payload word, false if each is a framing word or the lanes have ended.
    pub fn wants_payload(&self) -> bool
        ensures { result ≡ wants_payload self.now }
    {
        !self.ended && self.lanes[0].wants_payload()
    }

    /// True if each lane made whole metaframes.
    pub fn is_whole(&self) -> bool
        ensures { result ≡ (self.now.place == 0) }
    {
        self.place == 0
    }

    /// True if the lanes have ended.
    pub fn has_ended(&self) -> bool
        ensures { result ≡ self.now.ended }
    {
        self.ended
    }

    /// Returns how many bytes of a lane wait: 4,096 at most, and 0 if there is no such lane.
    pub fn waiting(&self, lane: u32) -> usize
        ensures bytes { result ≡ length (waiting_on lane self.now) }
        ensures few { result ≤ 4096 }
    {
        let at = lane as usize;
        if at >= self.lanes.len() {
            return 0;
        }
        self.lanes[at].waiting()
    }

    /// Makes the next word of each lane, a framing word.
    pub fn frame(&mut self)
        requires going { self.old.ended ≡ false }
        requires room { has_room self.old ≡ true }
        requires wants { wants_payload self.old ≡ false }
        ensures stands { (p : Progress) → Stands self.old p → Stands self.new (framed p) }
        ensures longer { AreLonger self.old self.new }
        ensures going { self.new.ended ≡ false }
    {
        frame_each(&mut self.lanes);
        self.place = next_place(self.place, &self.link);
    }

    /// Makes the next word of each lane, a payload word, of these in the order of lanes: one for each.
    pub fn put(&mut self, words: &[Word])
        requires going { self.old.ended ≡ false }
        requires room { has_room self.old ≡ true }
        requires wants { wants_payload self.old ≡ true }
        requires count { length words.now ≡ length self.old.lanes }
        ensures stands { (p : Progress) → Stands self.old p → Stands self.new (with_row words.now p) }
        ensures longer { AreLonger self.old self.new }
        ensures going { self.new.ended ≡ false }
    {
        put_each(&mut self.lanes, words);
        self.place = next_place(self.place, &self.link);
    }

    /// Ends the lanes after whole metaframes: each makes its last byte of the bits that are left, and zeros after them.
    pub fn finish(&mut self)
        requires going { self.old.ended ≡ false }
        requires room { has_room self.old ≡ true }
        requires whole { self.old.place ≡ 0 }
        ensures stands { (p : Progress) → Stands self.old p → Stands self.new p }
        ensures kept { AreKept self.old self.new }
        ensures ended { self.new.ended ≡ true }
    {
        finish_each(&mut self.lanes);
        self.ended = true;
    }

    /// Takes the next bytes of a lane, as many as wait and there is room for, and returns how many: 0 if there is no such lane.
    pub fn take(&mut self, lane: u32, out: &mut [u8]) -> usize
        ensures count { result ≡ min (length out.old) (length (waiting_on lane self.old)) }
        ensures copied { out.new ≡ take result (waiting_on lane self.old) ++ drop result out.old }
        ensures gone { AreGone lane result self.old self.new }
        ensures stands { (p : Progress) → Stands self.old p → Stands self.new (took lane (take result (waiting_on lane self.old)) p) }
        ensures ended { self.new.ended ≡ self.old.ended }
    {
        let at = lane as usize;
        if at >= self.lanes.len() {
            return 0;
        }
        self.lanes[at].take(out)
    }
}
