//! The front of a receiver, whose items are gathered.
ghost use Rattle.std.specs.Prelude.{◌≡◌, ◌<◌, ◌≤◌, ◌^◌, [], true, false, ℕ, List, Option, Ok, OnOk, length};
ghost use Rattle.lk_base.specs.Link.{Settings};
ghost use Rattle.lk_base.specs.declared.word.Aligned.{Aligned as Item};
ghost use Rattle.lk_outside.specs.Files.{Files};
ghost use Rattle.event_model.specs.Fed.{Fed};
ghost use Rattle.rx_front.specs.Standing.{items_left, weight};
ghost use Rattle.run_stops.specs.Stops.{StopCount};
ghost use Rattle.gather_commands.specs.Taking.{Begins, IsGathering, HasShown, TakesAll, TakesNext, TakesShown, TakesSome};

use crate::gathered::Gathered;
use lk_base::Link;
use lk_outside::Store;
use run_stops::Stop;
use rx_front::Front;
use std::alloc::Global;

/// The front of a receiver of the lanes of a link, and what was gathered of the items that were taken of it. No item is kept.
#[derive(Drop)]
pub struct Gatherer {
    /// The front, which is fed the lanes.
    pub front: Front,
    /// What was gathered.
    pub gathered: Gathered,
}

impl Gatherer {
    /// A front of this link, to which nothing was fed, and the words file and the table of places, which are created under names
    /// that begin with `out`. Nothing is gathered yet.
    pub fn new<S: Store>(
        alloc: Global,
        store: &mut S,
        link: &Link,
        out: &str,
    ) -> Result<Gatherer, Stop>
        requires count { S.faults store.old < 2 ^ 60 }
        ensures cause { StopCount result (S.faults store.old) (S.faults store.new) }
        ensures begins { Begins out.now link.now result (S.files store.old) (S.files store.new) }
    {
        let front = Front::new(alloc, link)?;
        let gathered = Gathered::create(alloc, store, out)?;
        Ok(Gatherer { front, gathered })
    }

    // Takes the words that wait, one or more.
    fn take_words<S: Store>(&mut self, alloc: Global, store: &mut S) -> Result<(), Stop>
        requires count { S.faults store.old < 2 ^ 60 }
        requires some { 1 ≤ length self.old.front.waiting }
        requires gathering { (out : List ℕ) × (s : Settings) × (fed : List Fed) × (was : Option Files) × IsGathering out s fed self.old was (S.files store.old) }
        ensures cause { StopCount result (S.faults store.old) (S.faults store.new) }
        ensures takes { (out : List ℕ) (s : Settings) (fed : List Fed) (was : Option Files) → IsGathering out s fed self.old was (S.files store.old) →
            TakesSome out s fed result self.new was (S.files store.new) }
        ensures fewer { OnOk result (items_left self.new.front < items_left self.old.front) }
        ensures weight { weight self.new.front ≡ weight self.old.front }
    {
        self.gathered.add_front(alloc, store, &self.front)?;
        self.front.pass(self.front.len());
        Ok(())
    }

    // Takes the next item, where no words wait; false where none is left of what the clock has shown.
    fn take_item<S: Store>(&mut self, alloc: Global, store: &mut S) -> Result<bool, Stop>
        requires count { S.faults store.old < 2 ^ 60 }
        requires none { length self.old.front.waiting ≡ 0 }
        requires gathering { (out : List ℕ) × (s : Settings) × (fed : List Fed) × (was : Option Files) × IsGathering out s fed self.old was (S.files store.old) }
        ensures cause { StopCount result (S.faults store.old) (S.faults store.new) }
        ensures takes { (out : List ℕ) (s : Settings) (fed : List Fed) (was : Option Files) → IsGathering out s fed self.old was (S.files store.old) →
            TakesNext out s fed result self.new was (S.files store.new) }
        ensures fewer { result ≡ Ok true → items_left self.new.front < items_left self.old.front }
        ensures weight { weight self.new.front ≡ weight self.old.front }
    {
        let Some(item) = self.front.item() else {
            return Ok(false);
        };
        self.gathered.add_item(alloc, store, item)?;
        Ok(true)
    }

    // Takes the words that wait, or else the next item; false where none is left of what the clock has shown.
    fn take_next<S: Store>(&mut self, alloc: Global, store: &mut S) -> Result<bool, Stop>
        requires count { S.faults store.old < 2 ^ 60 }
        requires gathering { (out : List ℕ) × (s : Settings) × (fed : List Fed) × (was : Option Files) × IsGathering out s fed self.old was (S.files store.old) }
        ensures cause { StopCount result (S.faults store.old) (S.faults store.new) }
        ensures takes { (out : List ℕ) (s : Settings) (fed : List Fed) (was : Option Files) → IsGathering out s fed self.old was (S.files store.old) →
            TakesNext out s fed result self.new was (S.files store.new) }
        ensures fewer { result ≡ Ok true → items_left self.new.front < items_left self.old.front }
        ensures weight { weight self.new.front ≡ weight self.old.front }
    {
        self.front.fill();
        if self.front.is_empty() {
            return self.take_item(alloc, store);
        }
        self.take_words(alloc, store)?;
        Ok(true)
    }

    // Takes all items that the clock has shown.
    fn take_shown<S: Store>(&mut self, alloc: Global, store: &mut S) -> Result<(), Stop>
        requires count { S.faults store.old < 2 ^ 60 }
        requires gathering { (out : List ℕ) × (s : Settings) × (fed : List Fed) × (was : Option Files) × IsGathering out s fed self.old was (S.files store.old) }
        ensures cause { StopCount result (S.faults store.old) (S.faults store.new) }
        ensures takes { (out : List ℕ) (s : Settings) (fed : List Fed) (was : Option Files) → IsGathering out s fed self.old was (S.files store.old) →
            TakesShown out s fed result self.new was (S.files store.new) }
        ensures weight { weight self.new.front ≡ weight self.old.front }
    {
        // proof: the label names the loop in its invariant
        'items: loop {
            if !self.take_next(alloc, store)? {
                return Ok(());
            }
        }
    }

    /// Takes all items that are known of what was fed, and gathers them.
    pub fn take_known<S: Store>(&mut self, alloc: Global, store: &mut S) -> Result<(), Stop>
        requires count { S.faults store.old < 2 ^ 60 }
        requires gathering { (out : List ℕ) × (s : Settings) × (fed : List Fed) × (was : Option Files) × IsGathering out s fed self.old was (S.files store.old) }
        ensures cause { StopCount result (S.faults store.old) (S.faults store.new) }
        ensures takes { (out : List ℕ) (s : Settings) (fed : List Fed) (was : Option Files) → IsGathering out s fed self.old was (S.files store.old) →
            TakesAll out s fed result self.new was (S.files store.new) }
    {
        // proof: the label names the loop in its invariant
        'rounds: loop {
            self.take_shown(alloc, store)?;
            if !self.front.go_on() {
                return Ok(());
            }
        }
    }
}
