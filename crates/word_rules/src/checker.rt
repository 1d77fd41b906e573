//! The pass over a sender's words.
ghost use Rattle.std.specs.Prelude.{◌≡◌, ◌≤◌, ◌<◌, ◌+◌, ◌*◌, ◌^◌, ◌++◌, ◌∷◌, [], ℕ, List, map, Option, true, slice_get, slice_set, IfOk, IsOk, OnErr, OnOk, length, vec_capacity, vec_len};
ghost use Rattle.std.specs.Bool.{OnFalse, OnTrue};
ghost use Rattle.std.specs.Option.{option_to_list};
ghost use Rattle.lk_base.specs.declared.word.RxWord.{RxWord};
ghost use Rattle.lk_base.specs.declared.word.RxWord.TheVariants.{Data, Control, Bad};
ghost use Rattle.calendar.specs.Incoming.{IsHeardAs};
ghost use Rattle.word_rules.specs.Faults.{Plan, empty_rows, faults, faults_at, faults_from, plan_by, with_flow};
ghost use Rattle.word_rules.specs.Made.{AreUnused, unused};
ghost use Rattle.word_rules.specs.Checks.{Keeps};
ghost use Rattle.word_rules.specs.Flows.{InOrder, NoneLater, with_row};
ghost use Rattle.word_rules.specs.Runs.{run_after};

use crate::before::Before;
use crate::channel::ChannelState;
use crate::channels::close_before;
use crate::control_rows::{breaks_off, control_rows, field_rows};
use crate::due::Due;
use crate::fault::Fault;
use crate::flow::Flow;
use crate::limits::WordLimits;
use crate::plan::WordPlan;
use crate::rows::tell;
use crate::rule::WordRule;
use control_words::{CHANNEL_NUMBERS, ControlWord};
use lk_base::{OutOfMemory, RxWord};
use std::alloc::Global;

// why: Checker asks for the word after each word, instead of reporting a row late: only the rule empty looks past its word. A
// channel's state has the number of bad words at its last change, so a bad word makes all channels unknown without
// touching them. Fewer than 2⁵⁷ words leave room for the counts of entries that words carry, 16 a word.
/// What the rules read of the words that came so far.
#[derive(Drop)]
pub struct Checker {
    limits: WordLimits,
    // The entries of the calendar.
    entries: u64,
    // What is kept of the channels, by number.
    kept: Vec<ChannelState>,
    // How many Bad words came.
    bads: u64,
    before: Before,
    due: Due,
    flow: Flow,
}

// Lists a channel of which nothing is kept.
fn list(kept: &mut Vec<ChannelState>, channel: u16)
    requires { length kept.old.items ≡ 65536 }
    ensures { kept.new.items ≡ slice_set kept.old.items channel (unused true) }
{
    kept[channel as usize] = ChannelState {
        since: 0,
        going: None,
        packet: None,
        listed: true,
    };
}

// The channels before any word, of which these are listed.
fn made(alloc: Global, channels: &[u16]) -> Result<Vec<ChannelState>, OutOfMemory>
    ensures all { IfOk result (λ kept. length kept.items ≡ 65536) }
    ensures fresh { IfOk result (λ kept. AreUnused kept.items channels.now) }
{
    let unused = ChannelState {
        since: 0,
        going: None,
        packet: None,
        listed: false,
    };
    let mut kept = vec![in alloc; unused; CHANNEL_NUMBERS]?;
    for i in 0..channels.len() {
        list(&mut kept, channels[i]);
    }
    Ok(kept)
}

impl Checker {
    /// A checker of the words of a plan. No word came yet.
    ///
    /// # Errors
    ///
    /// `OutOfMemory`.
    pub fn new(alloc: Global, plan: &WordPlan) -> Result<Checker, OutOfMemory>
        requires { length plan.now.entries.now < 2 ^ 32 }
        ensures { IfOk result (λ checker. Keeps checker (plan_by plan.now) []) }
    {
        let kept = made(alloc, plan.channels)?;
        let flow = Flow::new(alloc, plan.entries, plan.flow)?;
        Ok(Checker {
            limits: plan.limits,
            entries: plan.entries.len() as u64,
            kept,
            bads: 0,
            before: Before::new(),
            due: Due::new(),
            flow,
        })
    }

    /// Takes the next word, and puts the rows of its faults after the others, in the order of the rules; `next` is the word after it,
    /// if there is one. At most 16 rows are added.
    ///
    /// # Errors
    ///
    /// `OutOfMemory`, after which the checker and `faults` are of no more use. If there is room for 16 rows more, it is not returned.
    pub fn step(
        &mut self,
        word: RxWord,
        next: Option<RxWord>,
        faults: &mut Vec<Fault>,
    ) -> Result<(), OutOfMemory>
        requires { (p : Plan) × (earlier : List RxWord) × Keeps self.old p earlier × (length earlier < 2 ^ 57) }
        ensures rows { (p : Plan) (earlier : List RxWord) → Keeps self.old p earlier → InOrder p.flow → OnOk result (faults.new.items ≡ faults.old.items ++ faults_at p earlier word next) }
        ensures keeps { (p : Plan) (earlier : List RxWord) → Keeps self.old p earlier → OnOk result (Keeps self.new p (word ∷ earlier)) }
        ensures room { vec_len faults.old + 16 ≤ vec_capacity faults.old → IsOk result }
        ensures kept { vec_capacity faults.old ≤ vec_capacity faults.new }
        ensures few { vec_len faults.new ≤ vec_len faults.old + 16 }
    {
        match word {
            RxWord::Data(number) => self.data(number, faults),
            RxWord::Control(number) => self.control(ControlWord(number), next, faults),
            RxWord::Bad => self.bad(faults),
        }
    }

    /// How many words came.
    pub fn count(&self) -> u64
        requires { (p : Plan) × (earlier : List RxWord) × Keeps self.now p earlier }
        ensures { (p : Plan) (earlier : List RxWord) → Keeps self.now p earlier → result ≡ length earlier }
    {
        self.before.number
    }

    /// The row of `empty` of the last word that came, if the next word shows that it is broken.
    pub fn empty_before(&self, next: RxWord) -> Option<Fault>
        requires { (p : Plan) × (earlier : List RxWord) × Keeps self.now p earlier }
        ensures { (p : Plan) (earlier : List RxWord) → Keeps self.now p earlier → option_to_list result ≡ empty_rows p.limits earlier next }
    {
        self.before.empty_before(self.limits, next)
    }

    /// Hears a control word of the far end that was verified, whatever its checksum. It counts from the next word on, as a row with the
    /// checksum of the word alone, whose slot is the number of words so far. No row of the plan is of a later slot.
    pub fn hear(&mut self, word: u64)
        requires { (p : Plan) × (earlier : List RxWord) × Keeps self.old p earlier }
        ensures { (p : Plan) (earlier : List RxWord) (heard : ℕ) → Keeps self.old p earlier → NoneLater p.flow (length earlier) → IsHeardAs word heard → Keeps self.new (with_flow p (with_row p.flow (length earlier) heard)) earlier }
    {
        self.flow.hear(word, self.before.number);
    }

    // Takes a Data word.
    fn data(&mut self, word: u64, faults: &mut Vec<Fault>) -> Result<(), OutOfMemory>
        requires { (p : Plan) × (earlier : List RxWord) × Keeps self.old p earlier × (length earlier < 2 ^ 57) }
        ensures rows { (p : Plan) (earlier : List RxWord) (next : Option RxWord) → Keeps self.old p earlier → OnOk result (faults.new.items ≡ faults.old.items ++ faults_at p earlier (Data word) next) }
        ensures keeps { (p : Plan) (earlier : List RxWord) → Keeps self.old p earlier → OnOk result (Keeps self.new p (Data word ∷ earlier)) }
        ensures room { vec_len faults.old + 2 ≤ vec_capacity faults.old → IsOk result }
        ensures kept { vec_capacity faults.old ≤ vec_capacity faults.new }
        ensures few { vec_len faults.new ≤ vec_len faults.old + 2 }
    {
        self.before.data_rows(self.limits, faults)?;
        self.before = self.before.after_data(word);
        Ok(())
    }

    // Takes Data words of these numbers, each by itself. There is room for the rows of all of them.
    fn each_data(&mut self, run: &[u64], faults: &mut Vec<Fault>)
        requires keeps { (p : Plan) × (earlier : List RxWord) × Keeps self.old p earlier × (length earlier + length run.now < 2 ^ 57) }
        requires room { vec_len faults.old + 2 * length run.now ≤ vec_capacity faults.old }
        ensures rows { (p : Plan) (earlier : List RxWord) → Keeps self.old p earlier → faults.new.items ≡ faults.old.items ++ faults_from p earlier (map (λ (x : ℕ). Data x) run.now) }
        ensures keeps { (p : Plan) (earlier : List RxWord) → Keeps self.old p earlier → Keeps self.new p (run_after earlier run.now) }
    {
        for i in 0..run.len() {
            let Ok(()) = self.data(run[i], faults) else {
                unreachable!()
            };
        }
    }

    /// Takes Data words of these numbers, one after another, and returns true: none of them breaks a rule. Or takes none, and returns
    /// false. It may return false although no word of the run breaks a rule.
    pub fn faultless_run(&mut self, run: &[u64]) -> bool
        requires { (p : Plan) × (earlier : List RxWord) × Keeps self.old p earlier × (length earlier + length run.now < 2 ^ 57) }
        ensures rows { (p : Plan) (earlier : List RxWord) → Keeps self.old p earlier → OnTrue result (faults_from p earlier (map (λ (x : ℕ). Data x) run.now) ≡ []) }
        ensures keeps { (p : Plan) (earlier : List RxWord) → Keeps self.old p earlier → OnTrue result (Keeps self.new p (run_after earlier run.now)) }
        ensures same { OnFalse result (self.new ≡ self.old) }
    {
        if self.before.may_break(self.limits, run.len() as u64) {
            return false;
        }
        self.before = self.before.after_run(run);
        true
    }

    /// Takes Data words of these numbers, one after another, and puts the rows of their faults after the others, as `step` for each.
    ///
    /// # Errors
    ///
    /// `OutOfMemory` if memory ran out, and only then. The checker and the rows are then unchanged.
    pub fn data_run(&mut self, run: &[u64], faults: &mut Vec<Fault>) -> Result<(), OutOfMemory>
        requires { (p : Plan) × (earlier : List RxWord) × Keeps self.old p earlier × (length earlier + length run.now < 2 ^ 57) }
        ensures rows { (p : Plan) (earlier : List RxWord) → Keeps self.old p earlier → OnOk result (faults.new.items ≡ faults.old.items ++ faults_from p earlier (map (λ (x : ℕ). Data x) run.now)) }
        ensures keeps { (p : Plan) (earlier : List RxWord) → Keeps self.old p earlier → OnOk result (Keeps self.new p (run_after earlier run.now)) }
        ensures same { OnErr result (self.new ≡ self.old) }
        ensures same_rows { OnErr result (faults.new.items ≡ faults.old.items) }
    {
        if self.faultless_run(run) {
            return Ok(());
        }
        faults.reserve(2 * run.len())?;
        self.each_data(run, faults);
        Ok(())
    }

    // Takes a Bad word.
    fn bad(&mut self, faults: &mut Vec<Fault>) -> Result<(), OutOfMemory>
        requires { (p : Plan) × (earlier : List RxWord) × Keeps self.old p earlier × (length earlier < 2 ^ 57) }
        ensures rows { (p : Plan) (earlier : List RxWord) (next : Option RxWord) → Keeps self.old p earlier → OnOk result (faults.new.items ≡ faults.old.items ++ faults_at p earlier Bad next) }
        ensures keeps { (p : Plan) (earlier : List RxWord) → Keeps self.old p earlier → OnOk result (Keeps self.new p (Bad ∷ earlier)) }
        ensures room { vec_len faults.old + 1 ≤ vec_capacity faults.old → IsOk result }
        ensures kept { vec_capacity faults.old ≤ vec_capacity faults.new }
        ensures few { vec_len faults.new ≤ vec_len faults.old + 1 }
    {
        tell(faults, self.before.number, WordRule::Bad, None, true)?;
        self.before = self.before.after_bad_word();
        self.due = Due::new();
        self.bads += 1;
        Ok(())
    }

    // Takes a Control word, before the next word, if there is one.
    fn control(
        &mut self,
        word: ControlWord,
        next: Option<RxWord>,
        faults: &mut Vec<Fault>,
    ) -> Result<(), OutOfMemory>
        requires { (p : Plan) × (earlier : List RxWord) × Keeps self.old p earlier × (length earlier < 2 ^ 57) }
        ensures rows { (p : Plan) (earlier : List RxWord) → Keeps self.old p earlier → InOrder p.flow → OnOk result (faults.new.items ≡ faults.old.items ++ faults_at p earlier (Control word.0) next) }
        ensures keeps { (p : Plan) (earlier : List RxWord) → Keeps self.old p earlier → OnOk result (Keeps self.new p (Control word.0 ∷ earlier)) }
        ensures room { vec_len faults.old + 16 ≤ vec_capacity faults.old → IsOk result }
        ensures kept { vec_capacity faults.old ≤ vec_capacity faults.new }
        ensures few { vec_len faults.new ≤ vec_len faults.old + 16 }
    {
        let (limits, number) = (self.limits, self.before.number);
        let off = breaks_off(&mut self.flow, &self.kept, limits, number, word);
        let own = close_before(&mut self.kept, self.before, limits, self.bads, word);
        let calendar = self.due.breaks_calendar(self.entries, word);
        control_rows(self.before, limits, own, word, next, faults)?;
        field_rows(number, limits, calendar, off, word, faults)?;
        self.before = self.before.after_control(word);
        self.due = self.due.after_control(word);
        Ok(())
    }
}

// proof: a function of its own, whose clause the loop of `check` cites
fn word_at(words: &[RxWord], number: usize) -> Option<RxWord>
    ensures { result ≡ slice_get words.now number }
{
    words.get(number).copied()
}

/// The faults of a list of words by a plan: for each word in order a row for each rule that it breaks, in the order of the rules.
///
/// # Errors
///
/// `OutOfMemory`.
pub fn check(alloc: Global, plan: &WordPlan, words: &[RxWord]) -> Result<Vec<Fault>, OutOfMemory>
    requires few { length plan.now.entries.now < 2 ^ 32 }
    requires rows { InOrder plan.now.flow.now }
    requires words { length words.now < 2 ^ 57 }
    ensures { IfOk result (λ found. found.items ≡ faults (plan_by plan.now) words.now) }
{
    let mut checker = Checker::new(alloc, plan)?;
    let mut found = Vec::new(alloc);
    for i in 0..words.len() {
        let next = word_at(words, i + 1);
        checker.step(words[i], next, &mut found)?;
    }
    Ok(found)
}
