ghost use Rattle.std.specs.Prelude.{◌≡◌, ◌≤◌, ◌%◌, ◌<◌, ◌^◌, ◌+◌, ◌++◌, ◌∷◌, ◌⊎◌, [], ℕ, List, IfOk, IfSome, get_or, length, map, take};
ghost use Rattle.lk_base.specs.Link.{group_of};
ghost use Rattle.lk_base.specs.declared.word.Aligned.{Aligned as Item};
ghost use Rattle.lk_base.specs.declared.word.RxWord.{RxWord as Received};
ghost use Rattle.lk_base.specs.declared.word.Word.{Word as SentWord};
ghost use Rattle.epoch_model.specs.SoFar.{LaneSoFar};
ghost use Rattle.rx_end.specs.Observing.{AreLater};
ghost use Rattle.link_replay.specs.Groups.{starts_of};
ghost use Rattle.link_replay.specs.Lanes.{HaveFew, strange_sum};
ghost use Rattle.link_replay.specs.Standing.{Holds, IsSame, RunsOn, ShowsItem, TakesNext, TakesWord, TellsGroup, TellsItem, Watches, skews_of, with_group};

use crate::group::is_sent_group;
use crate::lanes::{fresh_lanes, note_locks, strange_locks};
use crate::places::{group_slot, made, slot_in};
use crate::watched_lane::WatchedLane;
use crate::watched_stretch::WatchedStretch;
use lk_base::{Aligned, Link, OutOfMemory, Pos, RxWord, head};
use report_model::Accidents;
use rx_front::Front;
use std::alloc::Global;
use std::marker::Model;
use word_list::WordList;

/// Counts what the front of a receiver shows that the sender did not send.
#[derive(Drop)]
pub struct AccidentWatch {
    link: Link,
    /// Lane 0's skew.
    skew: u32,
    lanes: Vec<WatchedLane>,
    stretch: WatchedStretch,
    groups: u64,
    stretches: u64,
}

impl Model for AccidentWatch {
    ghost use Rattle.link_replay.specs.Standing.{Watch as WatchModel};

    ghost Value = { WatchModel };

    ghost view = { λ a. record { settings = a.link; skew = a.skew; lanes = a.lanes.items; stretch = a.stretch; groups = a.groups; stretches = a.stretches } };
}

impl AccidentWatch {
    /// Creates a watch that has seen nothing. There are as many skews as lanes.
    pub fn new(alloc: Global, link: &Link, skews: &[u32]) -> Result<AccidentWatch, OutOfMemory>
        requires { length skews.now ≡ link.now.lanes }
        ensures same { IfOk result (λ v. (v.settings ≡ link.now) × (skews_of v.lanes ≡ skews.now)) }
        ensures watches { IfOk result (λ v. (words : List SentWord) (lanes : List LaneSoFar) (locks : ℕ → List ℕ) →
            length words % group_of link.now ≡ 0 → ((i : ℕ) → locks i ≡ []) → Watches v words lanes locks []) }
    {
        // proof: the settings of a link are within their limits
        link.keeps_limits();
        let lanes = fresh_lanes(alloc, skews)?;
        Ok(AccidentWatch {
            link: *link,
            skew: skews[0],
            lanes,
            stretch: WatchedStretch::new(),
            groups: 0,
            stretches: 0,
        })
    }

    /// Takes the locks that the front's lanes declared at the bit that its clock passed last.
    pub fn locks(&mut self, front: &Front, sent: &WordList)
        requires there { length self.old.lanes ≤ length front.now.lanes }
        requires most { length self.old.lanes ≤ 64 }
        requires few { HaveFew self.old.lanes }
        ensures same { IsSame self.old self.new }
        ensures holds { (before now : ℕ → List ℕ) (items : List Item) → AreLater front.now before now →
            Holds self.old sent.now before items → Holds self.new sent.now now items }
        ensures watches { (lanes : List LaneSoFar) (before now : ℕ → List ℕ) (items : List Item) → AreLater front.now before now →
            Watches self.old sent.now lanes before items → Watches self.new sent.now lanes now items }
    {
        let made = made(&self.link, sent);
        note_locks(&mut self.lanes, &self.link, made, front);
    }

    // Counts the group that the front gave last, which has this name, if its Syncs are not of one number.
    fn group(&mut self, front: &Front, sent: &WordList, name: u64)
        requires room { self.old.groups < 2 ^ 63 }
        requires there { length self.old.lanes ≤ length front.now.lanes }
        requires told { TellsGroup self.old name (starts_of front.now) }
        ensures { self.new ≡ with_group sent.now (starts_of front.now) self.old }
    {
        if !is_sent_group(&self.lanes, &self.link, sent, self.skew, front, name) {
            self.groups += 1;
        }
    }

    // Takes the next word, which has this place and this slot, if any, and counts the stretch that ends with it if that passes and is
    // not a sent one.
    fn word(&mut self, sent: &WordList, slot: Option<usize>, at: Pos, word: RxWord)
        requires slot { IfSome slot (λ n. n < length sent.now) }
        requires few { length sent.now < 2 ^ 60 }
        requires room { self.old.stretches < 2 ^ 63 }
        ensures { TakesWord self.old self.new sent.now slot at word }
    {
        if self.stretch.word(sent, slot, at, word) {
            self.stretches += 1;
        }
    }

    // Takes data words with these numbers that follow one another in a group, the first of them at this slot, if it has one, as long as
    // the stretch goes on with them as sent. Returns how many.
    fn run(&mut self, sent: &WordList, slot: Option<usize>, numbers: &[u64]) -> usize
        requires slot { IfSome slot (λ n. n < length sent.now) }
        requires few { length sent.now < 2 ^ 60 }
        ensures few { result ≤ length numbers.now }
        ensures runs { 1 ≤ result → (room : ℕ) → length numbers.now ≤ room → RunsOn self.old self.new sent.now slot room (map RxWord.Data numbers.now) result }
        ensures none { result ≡ 0 → self.new ≡ self.old }
    {
        match slot {
            Some(slot) => self.stretch.run(sent, slot, numbers),
            None => 0,
        }
    }

    // Takes the next words of a group: some of the data words with these numbers, which come first, or else the first word, which has
    // this place. Returns how many.
    fn next(
        &mut self,
        sent: &WordList,
        slot: Option<usize>,
        at: Pos,
        numbers: &[u64],
        first: RxWord,
    ) -> usize
        requires slot { IfSome slot (λ n. n < length sent.now) }
        requires few { length sent.now < 2 ^ 60 }
        requires room { self.old.stretches < 2 ^ 63 }
        ensures some { 1 ≤ result }
        ensures most { result ≤ length numbers.now ⊎ (result ≡ 1) }
        ensures takes { (words : List Received) (room : ℕ) → length numbers.now ≤ room → take (length numbers.now) words ≡ map RxWord.Data numbers.now →
            get_or words 0 RxWord.Bad ≡ first → TakesNext self.old self.new sent.now slot room at words result }
    {
        let count = self.run(sent, slot, numbers);
        if count > 0 {
            return count;
        }
        self.word(sent, slot, at, first);
        1
    }

    /// Takes the first `count` of the words that wait in the front.
    pub fn words(&mut self, sent: &WordList, front: &Front, count: usize)
        requires most { count ≤ length front.now.waiting }
        requires room { self.old.stretches + count < 2 ^ 63 }
        ensures same { IsSame self.old self.new }
        ensures holds { (locks : ℕ → List ℕ) (items : List Item) →
            Holds self.old sent.now locks items → Holds self.new sent.now locks (items ++ take count front.now.waiting) }
        ensures watches { (lanes : List LaneSoFar) (locks : ℕ → List ℕ) (items : List Item) →
            Watches self.old sent.now lanes locks items → Watches self.new sent.now lanes locks (items ++ take count front.now.waiting) }
    {
        let at = front.at();
        let size = self.link.group_words();
        let first = group_slot(&self.link, sent, self.skew, at.group);
        let mut done = 0;
        while done < count {
            let index = at.index as u64 + done as u64;
            let place = Pos {
                group: at.group,
                index: index as u32,
            };
            let slot = slot_in(first, size, index);
            let room = size.saturating_sub(index) as usize;
            let ahead = front.data_run(done);
            let run = head(ahead, ahead.len().min(room).min(count - done));
            done += self.next(sent, slot, place, run, front.word(done));
        }
    }

    // Takes a word at this place.
    fn one_word(&mut self, sent: &WordList, at: Pos, word: RxWord)
        requires room { self.old.stretches < 2 ^ 63 }
        ensures same { IsSame self.old self.new }
        ensures holds { (locks : ℕ → List ℕ) (items : List Item) →
            Holds self.old sent.now locks items → Holds self.new sent.now locks (items ++ Aligned.Word at word ∷ []) }
        ensures watches { (lanes : List LaneSoFar) (locks : ℕ → List ℕ) (items : List Item) →
            Watches self.old sent.now lanes locks items → Watches self.new sent.now lanes locks (items ++ Aligned.Word at word ∷ []) }
    {
        let size = self.link.group_words();
        let first = group_slot(&self.link, sent, self.skew, at.group);
        let slot = slot_in(first, size, at.index as u64);
        self.word(sent, slot, at, word);
    }

    /// Takes the next item. If it is a group, the front has given none since.
    pub fn item(&mut self, front: &Front, sent: &WordList, item: Aligned)
        requires groups { self.old.groups < 2 ^ 63 }
        requires stretches { self.old.stretches + 1 < 2 ^ 63 }
        requires there { length self.old.lanes ≤ length front.now.lanes }
        requires told { TellsItem self.old item (starts_of front.now) }
        ensures same { IsSame self.old self.new }
        ensures holds { (locks : ℕ → List ℕ) (items : List Item) →
            Holds self.old sent.now locks items → Holds self.new sent.now locks (items ++ item ∷ []) }
        ensures watches { (lanes : List LaneSoFar) (locks : ℕ → List ℕ) (items : List Item) → ShowsItem self.old.settings lanes item (starts_of front.now) →
            Watches self.old sent.now lanes locks items → Watches self.new sent.now lanes locks (items ++ item ∷ []) }
    {
        match item {
            Aligned::Group(at) => self.group(front, sent, at.group),
            Aligned::Word(at, word) => self.one_word(sent, at, word),
            Aligned::Break(_, _) => self.stretch.begin(None),
        }
    }

    /// Returns the counts so far.
    pub fn counts(&self) -> Accidents
        requires { strange_sum self.now.lanes < 2 ^ 64 }
        ensures locks { result.locks ≡ strange_sum self.now.lanes }
        ensures groups { result.groups ≡ self.now.groups }
        ensures stretches { result.stretches ≡ self.now.stretches }
    {
        Accidents {
            locks: strange_locks(&self.lanes),
            groups: self.groups,
            stretches: self.stretches,
        }
    }
}
