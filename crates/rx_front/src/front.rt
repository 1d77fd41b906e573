ghost use Rattle.std.specs.Prelude.{◌≡◌, ◌<◌, ◌≤◌, ◌+◌, ◌*◌, ◌%◌, ◌^◌, ◌==◌, ◌++◌, [], ◌⊎◌, true, false, None, List, ℕ, min, length, take, drop, get_or, All, IfOk, IfSome, IfNone, OnSome};
ghost use Rattle.std.specs.Bool.{OnFalse, OnTrue};
ghost use Rattle.lk_base.specs.Link.{Settings};
ghost use Rattle.lk_base.specs.Positions.{words_from};
ghost use Rattle.lk_base.specs.declared.word.Aligned.{Aligned as Item};
ghost use Rattle.lk_base.specs.declared.word.RxWord.TheVariants.{Bad};
ghost use Rattle.event_model.specs.Fed.{Fed};
ghost use Rattle.deskew.specs.Blocks.{has_row};
ghost use Rattle.deskew.specs.Steps.{start_at};
ghost use Rattle.rx_front.specs.Batches.{MayTake};
ghost use Rattle.rx_front.specs.Calls.{IsReportOf, IsStateOf, count_at, fed_more, finished_at, is_open, lanes_fed, lanes_finished, nothing_fed, room_at};
ghost use Rattle.rx_front.specs.Lanes.{HasBytes, are_ready as can_be_taken};
ghost use Rattle.rx_front.specs.Locks.{declared_at};
ghost use Rattle.rx_front.specs.Standing.{GivesItem, MovesOn, MovesQuietly, Progress, Stands, begun, is_over, items_left, weight};
ghost use Rattle.rx_front.specs.States.{with_lanes};
ghost use Rattle.rx_front.specs.Waiting.{words_in};
ghost use Rattle.word_list.specs.Received.{data_front};

use crate::batch::Batch;
use crate::block::Block;
use crate::fed_lane::{FedLane, lock_of};
use crate::lanes::{
    are_empty, are_ready, feed_at, finish_at, fresh_lanes, keep_locks, report_at, show_steps,
    state_at, take_all, take_batches, take_rounds, whole_rounds, zeros_from,
};
use deskew::Deskew;
use lane_lock::{EIGHT_CODES_BYTES, MOST_BYTES};
use lk_base::{Aligned, Link, OutOfMemory, Pos, RxWord};
use lock_model::{LaneReport, LaneState};
use std::alloc::Global;
use std::marker::Model;

/// The front of a receiver of the lanes of a link: from the bytes of the lanes to the words of all lanes in one order.
///
/// It has a ring of 4,096 bytes for each lane, and takes bytes from them in rounds, one byte of every lane that is not at its
/// end. A bit of every lane that is not at its end moves the clock of all lanes on by one.
#[derive(Drop)]
pub struct Front {
    lanes: Vec<FedLane>,
    /// The bits of the last rounds that the clock has not passed yet.
    left: u32,
    /// The number of bits that the last rounds took of each lane: 8 times 1..=7, or 0 after more than 7 rounds at once.
    width: u32,
    /// The bits of the last rounds at which a lane may show something: if bit k of the number is 0, no lane shows anything at bit k.
    shows: u64,
    deskew: Deskew,
    /// The steps of one lane in many bytes.
    batch: Batch,
    /// The words that the deskew gave and that are still to be taken.
    block: Block,
    /// True if the last round found all lanes at their end.
    over: bool,
}

impl Model for Front {
    ghost use Rattle.std.specs.Prelude.{◌≡◌, ◌≤◌, length};
    ghost use Rattle.rx_front.specs.States.{State};
    ghost use Rattle.rx_front.specs.Lanes.{AreCovered, AreWide};

    ghost Value = { State };

    ghost view = { λ a. record { lanes = a.lanes.items; left = a.left; deskew = a.deskew; waiting = a.block; over = a.over } };

    ghost invariant = { λ a. (length a.lanes.items ≡ a.deskew.settings.lanes) × (length a.lanes.items ≤ 64) × (1 ≤ length a.lanes.items) × (a.left ≤ a.width) × (a.width ≤ 56) × AreWide a.width a.lanes.items × AreCovered a.shows a.lanes.items };
}

// With fewer bytes of each lane than these a batch is not worth its cost.
const LEAST_BYTES: usize = 16;

// Returns the most of `count` rounds after which a word of a lane ends with a byte, given the bits left to the end of its next word:
// then its next words are taken eight at a time from their first byte on. All of them, if they are too few.
fn whole_words(count: usize, left: u64) -> usize
    requires { left ≤ 67 }
    ensures most { result ≤ count }
    ensures some { 1 ≤ count → 1 ≤ result }
{
    // After `first` rounds a word ends with a byte, and then after every 67: 8 * 42 is 5 * 67 + 1.
    let first = left as usize * 42 % EIGHT_CODES_BYTES;
    if count <= first {
        return count;
    }
    let whole = count - (count - first) % EIGHT_CODES_BYTES;
    if whole == 0 { count } else { whole }
}

impl Front {
    /// Creates a front for a link, to which nothing was fed. No later call takes memory.
    ///
    /// # Errors
    ///
    /// `OutOfMemory` if memory ran out, and only then.
    pub fn new(alloc: Global, link: &Link) -> Result<Front, OutOfMemory>
        ensures { IfOk result (λ v. Stands v link.now (nothing_fed link.now.lanes) [] (begun link.now.lanes) × (v.waiting ≡ []) × (v.over ≡ false) × (v.deskew.settled ≡ true)) }
    {
        let block = Block::new(alloc)?;
        let batch = Batch::new(alloc)?;
        let deskew = Deskew::new(alloc, link)?;
        let lanes = fresh_lanes(alloc, link)?;
        // proof: the settings of a link are within their limits
        link.keeps_limits();
        Ok(Front {
            lanes,
            left: 0,
            width: 8,
            shows: u64::MAX,
            deskew,
            batch,
            block,
            over: false,
        })
    }

    /// Takes the longest prefix of the piece that the lane's ring has room for, and returns its length. The lane is below the link's
    /// lanes and not finished. Fewer than 2^57 bytes come of a lane. If the piece is longer than the room, the ring is full then.
    pub fn feed(&mut self, lane: u32, piece: &[u8]) -> usize
        requires unfinished { is_open lane self.old.lanes ≡ true }
        requires few { count_at lane self.old.lanes + length piece.now < 2 ^ 57 }
        ensures count { result ≡ min (length piece.now) (room_at lane self.old.lanes) }
        ensures state { self.new ≡ with_lanes (lanes_fed lane (take result piece.now) self.old.lanes) self.old }
        ensures stands { (s : Settings) (fed : List Fed) (items : List Item) (t : Progress) →
            Stands self.old s fed items t → Stands self.new s (fed_more lane (take result piece.now) fed) items t }
        ensures room { room_at lane self.new.lanes + result ≡ room_at lane self.old.lanes }
    {
        feed_at(&mut self.lanes, lane, piece)
    }

    /// Ends this lane: no further byte of it comes. The lane is below the link's lanes and not finished.
    pub fn finish(&mut self, lane: u32)
        requires { is_open lane self.old.lanes ≡ true }
        ensures state { self.new ≡ with_lanes (lanes_finished lane self.old.lanes) self.old }
        ensures stands { (s : Settings) (fed : List Fed) (items : List Item) (t : Progress) →
            Stands self.old s fed items t → Stands self.new s (finished_at lane fed) items t }
    {
        finish_at(&mut self.lanes, lane);
    }

    /// Returns the report of a lane over the bytes that the rounds took from its ring. The lane is below the link's lanes.
    pub fn lane_report(&self, lane: u32) -> LaneReport
        requires { lane < length self.now.lanes }
        ensures { (s : Settings) (fed : List Fed) (items : List Item) (t : Progress) → Stands self.now s fed items t →
            IsReportOf s t.rounds lane fed result }
    {
        report_at(&self.lanes, lane)
    }

    /// Returns how far the search for locks of a lane is after the bytes that the rounds took from its ring. The lane is below the
    /// link's lanes.
    pub fn lane_state(&self, lane: u32) -> LaneState
        requires { lane < length self.now.lanes }
        ensures { (s : Settings) (fed : List Fed) (items : List Item) (t : Progress) → Stands self.now s fed items t →
            IsStateOf s t.rounds lane fed result }
    {
        state_at(&self.lanes, lane)
    }

    /// True if the last round found all lanes at their end, and the clock has passed all its bits.
    pub fn is_over(&self) -> bool
        ensures { result ≡ is_over self.now }
    {
        self.over && self.left == 0
    }

    /// True if no words wait.
    pub fn is_empty(&self) -> bool
        ensures { result ≡ (length self.now.waiting == 0) }
    {
        self.block.is_empty()
    }

    /// If no words wait, takes the next block of whole rows of the deskew: as many as it has to give and fit into 512 words. If words
    /// wait, changes nothing.
    pub fn fill(&mut self)
        ensures stands { (s : Settings) (fed : List Fed) (items : List Item) (t : Progress) →
            Stands self.old s fed items t → Stands self.new s fed items t }
        ensures rows { length self.new.waiting ≡ 0 → has_row self.new.deskew ≡ false }
        ensures whole { length self.old.waiting ≡ 0 → length self.new.waiting % self.new.deskew.settings.lanes ≡ 0 }
        ensures most { length self.old.waiting ≡ 0 → has_row self.new.deskew ≡ true → 512 < length self.new.waiting + self.new.deskew.settings.lanes }
        ensures same { 1 ≤ length self.old.waiting → self.new ≡ self.old }
        ensures fewer { items_left self.new ≤ items_left self.old }
        ensures lanes { self.new.lanes ≡ self.old.lanes }
        ensures left { self.new.left ≡ self.old.left }
        ensures over { self.new.over ≡ self.old.over }
    {
        if !self.block.is_empty() {
            return;
        }
        self.block.fill(&mut self.deskew);
    }

    /// Returns the place of the first of the words that wait, which follow one another in its group. It means nothing if none wait.
    pub fn at(&self) -> Pos
        ensures waiting { self.now.waiting ≡ words_from result.group result.index (words_in self.now.waiting) }
        ensures fits { result.index + length self.now.waiting < 2 ^ 32 }
        ensures low { result.group < 2 ^ 60 }
    {
        self.block.at()
    }

    /// Returns the number of words that wait.
    pub fn len(&self) -> usize
        ensures count { result ≡ length self.now.waiting }
        ensures most { result < 2 ^ 32 }
    {
        self.block.len()
    }

    /// Returns the word number `i` of those that wait, from 0 and below their number.
    pub fn word(&self, i: usize) -> RxWord
        requires { i < length self.now.waiting }
        ensures { result ≡ get_or (words_in self.now.waiting) i Bad }
    {
        self.block.word(i)
    }

    /// Returns the numbers of the data words from number `from` of those that wait on, before the first word of another kind.
    pub fn data_run(&self, from: usize) -> &[u64]
        requires { from ≤ length self.now.waiting }
        ensures { result.now ≡ data_front (drop from (words_in self.now.waiting)) }
    {
        self.block.data_run(from)
    }

    /// Passes over the first `count` of the words that wait: they were taken.
    pub fn pass(&mut self, count: usize)
        requires { count ≤ length self.old.waiting }
        ensures stands { (s : Settings) (fed : List Fed) (items : List Item) (t : Progress) →
            Stands self.old s fed items t → Stands self.new s fed (items ++ take count self.old.waiting) t }
        ensures waiting { self.new.waiting ≡ drop count self.old.waiting }
        ensures fewer { items_left self.new + count ≡ items_left self.old }
        ensures lanes { self.new.lanes ≡ self.old.lanes }
        ensures left { self.new.left ≡ self.old.left }
        ensures deskew { self.new.deskew ≡ self.old.deskew }
        ensures over { self.new.over ≡ self.old.over }
    {
        self.block.pass(count);
    }

    /// Gives the next item that the clock has shown; no words wait. `None` if all items that are known of what the clock has shown
    /// were taken.
    pub fn item(&mut self) -> Option<Aligned>
        requires { length self.old.waiting ≡ 0 }
        ensures gives { (s : Settings) (fed : List Fed) (items : List Item) (t : Progress) →
            Stands self.old s fed items t → GivesItem result self.new s fed items t }
        ensures settled { IfNone result (self.new.deskew.settled ≡ true) }
        ensures fewer { OnSome result (items_left self.new < items_left self.old) }
        ensures waiting { self.new.waiting ≡ self.old.waiting }
        ensures lanes { self.new.lanes ≡ self.old.lanes }
        ensures left { self.new.left ≡ self.old.left }
        ensures over { self.new.over ≡ self.old.over }
    {
        self.deskew.next()
    }

    /// Moves the clock on; nothing is left to be taken. If the bits of many bytes can be taken at once, it moves by them, otherwise
    /// up to and by the next bit at which a lane may show something. Returns false if neither is possible: all bits of the rounds
    /// were passed, and the last round found all lanes at their end, or a lane that is not finished lacks a byte.
    pub fn go_on(&mut self) -> bool
        requires settled { self.old.deskew.settled ≡ true }
        ensures moves { OnTrue result ((s : Settings) (fed : List Fed) (items : List Item) (t : Progress) →
            Stands self.old s fed items t → MovesOn self.new s fed items t) }
        ensures less { OnTrue result (weight self.new < weight self.old) }
        ensures same { OnFalse result (self.new ≡ self.old) }
        ensures stuck { OnFalse result (self.old.left ≡ 0 × ((self.old.over ≡ true) ⊎ (can_be_taken self.old.lanes ≡ false))) }
    {
        let count = self.batch_bytes();
        if count == 0 {
            return self.advance();
        }
        self.take_batch(count);
        true
    }

    /// Returns the bit position of the lock that this lane declared at the bit that the clock passed last, if it declared one there.
    /// It is below 2^60. The lane is below the link's lanes.
    pub fn declared(&self, lane: u32) -> Option<u64>
        requires { lane < length self.now.lanes }
        ensures value { result ≡ declared_at lane self.now }
        ensures low { IfSome result (λ at. at < 2 ^ 60) }
    {
        if self.left >= self.width {
            return None;
        }
        lock_of(self.lanes[lane as usize].step(self.width - self.left - 1))
    }

    /// Returns the bit position of the lane's Sync in the group that was given last: below 2^60. The lane is below the link's lanes.
    pub fn start(&self, lane: u32) -> u64
        requires { lane < length self.now.lanes }
        ensures value { result ≡ start_at lane self.now.deskew }
        ensures low { result < 2 ^ 60 }
    {
        self.deskew.start(lane)
    }

    // Moves the clock on by a bit. Returns false if it cannot be moved.
    fn advance(&mut self) -> bool
        requires settled { self.old.deskew.settled ≡ true }
        ensures moves { OnTrue result ((s : Settings) (fed : List Fed) (items : List Item) (t : Progress) →
            Stands self.old s fed items t → MovesOn self.new s fed items t) }
        ensures less { OnTrue result (weight self.new < weight self.old) }
        ensures same { OnFalse result (self.new ≡ self.old) }
        ensures stuck { OnFalse result (self.old.left ≡ 0 × ((self.old.over ≡ true) ⊎ (can_be_taken self.old.lanes ≡ false))) }
    {
        if self.left == 0 && !self.round() {
            return false;
        }
        self.rest();
        if self.left > 0 {
            self.tick();
        }
        true
    }

    // Counts the rounds that can be made at once, at most 536: 0 unless all their bits may be taken before an item is given. If it is
    // not 0 it may still be fewer than 16.
    fn batch_bytes(&self) -> usize
        ensures most { result ≤ 536 }
        ensures there { All (HasBytes result) self.now.lanes }
        ensures left { 1 ≤ result → self.now.left ≡ 0 }
        ensures running { 1 ≤ result → self.now.over ≡ false }
        ensures ahead { 1 ≤ result → MayTake self.now }
    {
        if self.left > 0 || self.over {
            return 0;
        }
        let count = whole_rounds(&self.lanes, MOST_BYTES);
        if count < LEAST_BYTES || !self.may_take() {
            return 0;
        }
        whole_rounds(&self.lanes, whole_words(count, self.lanes[0].bits_left()))
    }

    // True if all bits of at most 536 rounds may be taken before an item is given: an epoch goes on in which each lane is in a declared
    // lock; or none goes on, and none can begin before a lane declares a lock, which no lane does.
    fn may_take(&self) -> bool
        ensures may { result ≡ true → MayTake self.now }
        ensures not { length self.now.deskew.lanes ≡ length self.now.lanes → result ≡ false → MayTake self.now → ⊥ }
    {
        if self.deskew.can_run_ahead() {
            return true;
        }
        self.deskew.awaits_lock() && keep_locks(&self.lanes, &self.deskew)
    }

    // Makes `count` rounds at once, each of which finds a byte of every lane, and moves the clock on by all their bits.
    fn take_batch(&mut self, count: usize)
        requires some { 1 ≤ count }
        requires most { count ≤ 536 }
        requires there { All (HasBytes count) self.old.lanes }
        requires left { self.old.left ≡ 0 }
        requires running { self.old.over ≡ false }
        requires ahead { MayTake self.old }
        ensures moves { (s : Settings) (fed : List Fed) (items : List Item) (t : Progress) →
            Stands self.old s fed items t → MovesOn self.new s fed items t }
        ensures less { weight self.new < weight self.old }
    {
        take_batches(&mut self.lanes, count, &mut self.batch, &mut self.deskew);
        self.width = 0;
        self.shows = 0;
    }

    // Makes rounds: up to 7 that find a byte of every lane each, or else one in which lanes may be at their end. Returns false if no
    // round can be made.
    fn round(&mut self) -> bool
        requires { self.old.left ≡ 0 }
        ensures moves { OnTrue result ((s : Settings) (fed : List Fed) (items : List Item) (t : Progress) →
            Stands self.old s fed items t → MovesQuietly self.new s fed items t) }
        ensures less { OnTrue result (weight self.new ≤ weight self.old) }
        ensures left { OnTrue result (1 ≤ self.new.left) }
        ensures deskew { self.new.deskew ≡ self.old.deskew }
        ensures same { OnFalse result (self.new ≡ self.old) }
        ensures stuck { OnFalse result ((self.old.over ≡ true) ⊎ (can_be_taken self.old.lanes ≡ false)) }
    {
        if self.over {
            return false;
        }
        let count = whole_rounds(&self.lanes, 7);
        if count > 0 {
            self.rounds(count as u32);
            return true;
        }
        self.one_round()
    }

    // Makes `count` rounds, each of which finds a byte of every lane.
    fn rounds(&mut self, count: u32)
        requires none { self.old.left ≡ 0 }
        requires running { self.old.over ≡ false }
        requires some { 1 ≤ count }
        requires most { count ≤ 7 }
        requires there { All (HasBytes count) self.old.lanes }
        ensures moves { (s : Settings) (fed : List Fed) (items : List Item) (t : Progress) →
            Stands self.old s fed items t → MovesQuietly self.new s fed items t }
        ensures less { weight self.new ≤ weight self.old }
        ensures left { self.new.left ≡ 8 * count }
        ensures deskew { self.new.deskew ≡ self.old.deskew }
    {
        self.shows = take_rounds(&mut self.lanes, count);
        self.left = 8 * count;
        self.width = 8 * count;
    }

    // Makes a round in which lanes may be at their end. Returns false if it cannot be made.
    fn one_round(&mut self) -> bool
        requires none { self.old.left ≡ 0 }
        requires running { self.old.over ≡ false }
        ensures moves { OnTrue result ((s : Settings) (fed : List Fed) (items : List Item) (t : Progress) →
            Stands self.old s fed items t → MovesQuietly self.new s fed items t) }
        ensures less { OnTrue result (weight self.new ≤ weight self.old) }
        ensures left { OnTrue result (self.new.left ≡ 8) }
        ensures deskew { self.new.deskew ≡ self.old.deskew }
        ensures same { OnFalse result (self.new ≡ self.old) }
        ensures stuck { OnFalse result (can_be_taken self.old.lanes ≡ false) }
    {
        if !are_ready(&self.lanes) {
            return false;
        }
        self.over = are_empty(&self.lanes);
        take_all(&mut self.lanes);
        self.left = 8;
        self.width = 8;
        self.shows = u64::MAX;
        true
    }

    // Moves the clock on by the bits of the last rounds that show nothing, up to the next that shows something.
    fn rest(&mut self)
        requires left { 1 ≤ self.old.left }
        requires settled { self.old.deskew.settled ≡ true }
        ensures moves { (s : Settings) (fed : List Fed) (items : List Item) (t : Progress) →
            Stands self.old s fed items t → MovesQuietly self.new s fed items t }
        ensures none { self.new.left ≡ 0 → (lane : ℕ) → declared_at lane self.new ≡ None }
        ensures left { self.new.left ≤ self.old.left }
        ensures lanes { self.new.lanes ≡ self.old.lanes }
        ensures over { self.new.over ≡ self.old.over }
        ensures deskew { self.new.deskew ≡ self.old.deskew }
    {
        let quiet = zeros_from(self.shows, self.width - self.left, self.width);
        self.left -= quiet;
    }

    // Moves the clock on by a bit of the last rounds.
    fn tick(&mut self)
        requires left { 1 ≤ self.old.left }
        requires settled { self.old.deskew.settled ≡ true }
        ensures moves { (s : Settings) (fed : List Fed) (items : List Item) (t : Progress) →
            Stands self.old s fed items t → MovesOn self.new s fed items t }
        ensures left { self.new.left + 1 ≡ self.old.left }
        ensures lanes { self.new.lanes ≡ self.old.lanes }
        ensures over { self.new.over ≡ self.old.over }
    {
        let k = self.width - self.left;
        show_steps(&self.lanes, k, &mut self.deskew);
        self.left -= 1;
    }
}
