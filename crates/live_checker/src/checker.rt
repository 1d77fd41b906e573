ghost use Rattle.std.specs.Prelude.{◌≡◌, ◌≤◌, ◌<◌, ◌^◌, [], ◌∷◌, List, IfOk, length, vec_capacity};
ghost use Rattle.lk_base.specs.declared.word.RxWord.{RxWord};
ghost use Rattle.duplex_model.specs.DuplexRun.{heard_word};
ghost use Rattle.word_rules.specs.Checks.{Keeps};
ghost use Rattle.word_rules.specs.Faults.{Plan};
ghost use Rattle.word_rules.specs.Flows.{InOrder};
ghost use Rattle.live_checker.specs.Live.{shown_at};
ghost use Rattle.live_checker.specs.Standing.{Checked, Checks, nothing_checked};
ghost use Rattle.live_checker.specs.Calls.{IsFinish, IsFlow, IsNext, IsRun, IsWord, flow_refusal, word_refusal};

use crate::misuse::Misuse;
use lk_base::{OutOfMemory, RxWord};
use std::alloc::Global;
use std::marker::Model;
use stream_model::FlowRow;
use word_rules::{Checker, Fault, WordLimits, WordPlan};

/// The most words that a checker takes.
const MOST_WORDS: u64 = 1 << 57;

/// The most faults that one word shows.
const MOST_FAULTS: usize = 17;

/// What tells the faults of a sender's words as they come. It takes memory when it is made, and none after.
#[derive(Drop)]
pub struct LiveChecker {
    checker: Checker,
    /// The faults that the last word showed.
    found: Vec<Fault>,
    /// How many of them were given.
    given: usize,
    finished: bool,
}

impl Model for LiveChecker {
    ghost use Rattle.std.specs.Prelude.{◌≤◌, length, vec_capacity};
    ghost use Rattle.live_checker.specs.States.{State, state};
    ghost use Rattle.live_checker.specs.Standing.{Checked, Checks};

    ghost Value = { State };

    ghost view = { λ a. state a.checker a.found.items a.given a.finished };

    ghost invariant = { λ a. (17 ≤ vec_capacity a.found) × (a.given ≤ length a.found.items) × ((x : Checked) × Checks (state a.checker a.found.items a.given a.finished) x) };
}

// Puts the faults that a word shows in place of those of the word before. There is room for them.
fn find(checker: &mut Checker, word: RxWord, found: &mut Vec<Fault>)
    requires room { 17 ≤ vec_capacity found.old }
    requires keeps { (p : Plan) × (earlier : List RxWord) × Keeps checker.old p earlier × (length earlier < 2 ^ 57) }
    ensures room { 17 ≤ vec_capacity found.new }
    ensures rows { (p : Plan) (earlier : List RxWord) → Keeps checker.old p earlier → InOrder p.flow → found.new.items ≡ shown_at p earlier word }
    ensures keeps { (p : Plan) (earlier : List RxWord) → Keeps checker.old p earlier → Keeps checker.new p (word ∷ earlier) }
{
    found.clear();
    if let Some(fault) = checker.empty_before(word) {
        found.push_reserved(fault);
    }
    let Ok(()) = checker.step(word, None, found) else {
        // There is room.
        unreachable!()
    };
}

impl LiveChecker {
    /// A checker by the numbers of a plan, its listed channels and the entries of its calendar. No word came, and no flow control.
    ///
    /// # Errors
    ///
    /// `OutOfMemory` if and only if memory ran out.
    pub fn new(
        alloc: Global,
        limits: WordLimits,
        channels: &[u16],
        entries: &[u16],
    ) -> Result<LiveChecker, OutOfMemory>
        requires { length entries.now < 2 ^ 32 }
        ensures { IfOk result (λ c. Checks c (nothing_checked limits channels.now entries.now)) }
    {
        let none: [FlowRow; 0] = [];
        let plan = WordPlan {
            limits,
            channels,
            entries,
            flow: &none,
        };
        let found = Vec::with_capacity(alloc, MOST_FAULTS)?;
        let checker = Checker::new(alloc, &plan)?;
        Ok(LiveChecker {
            checker,
            found,
            given: 0,
            finished: false,
        })
    }

    // Why a word of flow control would be refused, if it would.
    fn flow_refusal(&self) -> Option<Misuse>
        ensures { (x : Checked) → Checks self.now x → result ≡ flow_refusal x }
    {
        if self.finished {
            return Some(Misuse::Finished);
        }
        if self.given < self.found.len() {
            return Some(Misuse::Waiting);
        }
        None
    }

    /// Why a word would be refused now, if it would.
    pub fn refusal(&self) -> Option<Misuse>
        ensures { (x : Checked) → Checks self.now x → result ≡ word_refusal x }
    {
        if let Some(why) = self.flow_refusal() {
            return Some(why);
        }
        if self.checker.count() >= MOST_WORDS {
            return Some(Misuse::TooMany);
        }
        None
    }

    /// Takes the next word. Its faults are due then, in the order of the rules: all but `empty`, which the word after it shows, before
    /// that word's own faults.
    ///
    /// # Errors
    ///
    /// In this order: the words were ended, faults are due, 2^57 words came. Nothing has changed then.
    pub fn word(&mut self, word: RxWord) -> Result<(), Misuse>
        ensures { IsWord self.old self.new word result }
    {
        if let Some(why) = self.refusal() {
            return Err(why);
        }
        find(&mut self.checker, word, &mut self.found);
        self.given = 0;
        Ok(())
    }

    /// Takes Data words of these numbers, one after another as `word` does, and returns true; or takes none, returns false, and changes
    /// nothing. It may return false although no word of the run shows a fault.
    pub fn data_run(&mut self, run: &[u64]) -> bool
        ensures { IsRun self.old self.new run.now result }
    {
        if let Some(_why) = self.refusal() {
            return false;
        }
        let count = self.checker.count().saturating_add(run.len() as u64);
        if count >= MOST_WORDS {
            return false;
        }
        if !self.checker.faultless_run(run) {
            return false;
        }
        self.found.clear();
        self.given = 0;
        true
    }

    /// Hears a control word of the far end that was verified, whatever its checksum. It counts from the next word on, as a flow row with the
    /// checksum of the word alone.
    ///
    /// # Errors
    ///
    /// In this order: the words were ended, faults are due. Nothing has changed then.
    pub fn hear(&mut self, word: u64) -> Result<(), Misuse>
        ensures { IsFlow self.old self.new (heard_word word) result }
    {
        if let Some(why) = self.flow_refusal() {
            return Err(why);
        }
        self.checker.hear(word);
        Ok(())
    }

    /// Ends the words. Faults that are due stay due. Of words that were ended it changes nothing.
    pub fn finish(&mut self)
        ensures { IsFinish self.old self.new }
    {
        self.finished = true;
    }

    /// The next fault that is due, or `None` if none is.
    pub fn next(&mut self) -> Option<Fault>
        ensures { IsNext self.old self.new result }
    {
        if self.given == self.found.len() {
            return None;
        }
        let fault = self.found[self.given];
        self.given += 1;
        Some(fault)
    }
}
