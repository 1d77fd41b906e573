//! The front of a receiver, whose items are numbered and given.
ghost use Rattle.std.specs.Prelude.{◌≡◌, ◌<◌, ◌≤◌, ◌+◌, ◌*◌, ◌/◌, ◌%◌, ◌^◌, ◌⊎◌, [], true, false, List, ℕ, IfOk, IfNone, IfSome, length};
ghost use Rattle.lk_base.specs.Link.{Settings};
ghost use Rattle.lk_base.specs.declared.word.Aligned.{Aligned as Item};
ghost use Rattle.lk_base.specs.declared.word.Aligned.TheVariants.{Word as WordItem};
ghost use Rattle.event_model.specs.Fed.{Fed};
ghost use Rattle.rx_front.specs.Calls.{nothing_fed};
ghost use Rattle.rx_front.specs.Lanes.{are_ready as can_be_taken};
ghost use Rattle.rx_front.specs.Standing.{weight};
ghost use Rattle.live_gatherer.specs.Numbers.{Numbered};
ghost use Rattle.live_gatherer.specs.Taking.{GivesNext, GivesShown, HasRun, IsTold, Takes, bit_of as bit_in, is_group};

use crate::items::next_item;
use crate::numbering::Numbering;
use crate::types::{Gathered, GatheredBreak, GatheredWord};
use lane_model::CODE_BITS;
use lk_base::{Aligned, Link, OutOfMemory, Pos, RxWord};
use rx_front::Front;
use std::alloc::Global;

/// The front of a receiver of the lanes of a link, and what was counted of the items that were taken of it. No item is kept.
#[derive(Drop)]
pub struct Taker {
    /// The front, which is fed the lanes.
    pub front: Front,
    /// The link.
    pub link: Link,
    /// What was counted.
    pub numbering: Numbering,
}

// The bit position at which a word of a group begins in its lane, whose Sync is at this bit position.
fn bit_of(start: u64, skips: u32, row: u32) -> u64
    requires start { start < 2 ^ 60 }
    requires skips { skips ≤ 4 }
    ensures { result ≡ bit_in start skips row }
{
    start + CODE_BITS as u64 * (skips as u64 + 2 + row as u64)
}

impl Taker {
    /// A front of this link, to which nothing was fed.
    ///
    /// # Errors
    ///
    /// `OutOfMemory` if memory ran out, and only then.
    pub fn new(alloc: Global, link: &Link) -> Result<Taker, OutOfMemory>
        ensures { IfOk result (λ t. Takes t link.now (nothing_fed link.now.lanes) []) }
    {
        let front = Front::new(alloc, link)?;
        Ok(Taker {
            front,
            link: *link,
            numbering: Numbering::new(),
        })
    }

    // A word at its place, with its number, its lane and its bit.
    fn word(&self, at: Pos, word: RxWord, number: u64) -> Gathered
        requires lanes { self.now.link.lanes ≡ length self.now.front.lanes }
        ensures { IsTold self.now.link self.now.front (WordItem at word) number result }
    {
        // proof: there is a lane, and the skips are few
        self.link.keeps_limits();
        let lanes = self.link.lanes();
        let lane = at.index % lanes;
        let start = self.front.start(lane);
        let bit = bit_of(start, self.link.skips(), at.index / lanes);
        Gathered::Word(GatheredWord {
            word,
            at,
            number,
            lane,
            bit,
        })
    }

    // What is given of an item with this number: nothing of a group.
    fn told(&self, item: Aligned, number: u64) -> Option<Gathered>
        requires lanes { self.now.link.lanes ≡ length self.now.front.lanes }
        ensures some { IfSome result (IsTold self.now.link self.now.front item number) }
        ensures none { IfNone result (is_group item ≡ true) }
    {
        match item {
            Aligned::Group(_) => None,
            Aligned::Word(at, word) => Some(self.word(at, word, number)),
            Aligned::Break(at, why) => Some(Gathered::Break(GatheredBreak { at, why, number })),
        }
    }

    // The next word or break of what the clock has shown. `None` exactly if all of them were given.
    #[inline(always)]
    fn shown(&mut self) -> Option<Gathered>
        requires { HasRun self.old }
        ensures gives { (s : Settings) (fed : List Fed) (given : List Numbered) →
            Takes self.old s fed given → GivesShown result self.new s fed given }
        ensures settled { IfNone result (self.new.front.deskew.settled ≡ true) }
        ensures weight { weight self.new.front ≡ weight self.old.front }
    {
        // proof: the label names the loop in its invariant
        'items: loop {
            let Some(item) = next_item(&mut self.front) else {
                return None;
            };
            let number = self.numbering.number(item);
            match self.told(item, number) {
                Some(given) => return Some(given),
                None => {}
            }
        }
    }

    /// The next word or break of what was fed. `None` exactly if all that are known of it were given.
    #[inline(always)]
    pub fn next(&mut self) -> Option<Gathered>
        requires { HasRun self.old }
        ensures gives { (s : Settings) (fed : List Fed) (given : List Numbered) →
            Takes self.old s fed given → GivesNext result self.new s fed given }
        ensures stuck { IfNone result (self.new.front.left ≡ 0 × ((self.new.front.over ≡ true) ⊎ (can_be_taken self.new.front.lanes ≡ false))) }
    {
        // proof: the label names the loop in its invariant
        'rounds: loop {
            match self.shown() {
                Some(given) => return Some(given),
                None => {}
            }
            if !self.front.go_on() {
                return None;
            }
        }
    }
}
