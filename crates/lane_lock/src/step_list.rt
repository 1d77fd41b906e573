ghost use Rattle.std.specs.Prelude.{◌≡◌, ◌<◌, ◌≤◌, ◌+◌, ◌*◌, ◌^◌, ◌∷◌, ◌++◌, [], IfOk, false, true, length, take};
ghost use Rattle.lock_model.specs.PayloadSteps.{payload_steps};
ghost use Rattle.lock_model.specs.Shows.{shown_in};
ghost use Rattle.lane_lock.specs.Found.{found_steps};

use lane_model::{CODE_BITS, Role};
use lk_base::{OutOfMemory, RxWord};
use lock_model::LaneStep;
use std::alloc::Global;
use std::marker::Model;

/// How many payload words are kept as words: at most those of a piece of `MOST_BYTES` bytes.
pub const MOST_WORDS: usize = 64;

// why: The words of a run of payload words go from the lock of a lane to the deskew as words. lane_lock::StepList has at most
// one run, between the steps before and after it, since a batch of 64 words seldom has two; a second run is appended as
// steps.
/// The steps that bits of a lane show, in order: steps, then payload words in a row, then steps. It takes memory when it is
/// created, and none after.
#[derive(Drop)]
pub struct StepList {
    before: Vec<LaneStep>,
    after: Vec<LaneStep>,
    /// The payload words are the first `count` of these.
    words: [RxWord; MOST_WORDS],
    count: usize,
    // proof: the number of the first payload word in its metaframe, which says what step each word is.
    number: u32,
    /// The bit position of the first payload word.
    at: u64,
    /// How many steps there is room for.
    room: usize,
}

impl Model for StepList {
    ghost use Rattle.std.specs.Prelude.{◌≡◌, ◌≤◌, length, take, vec_capacity};
    ghost use Rattle.lane_lock.specs.Found.{FoundSteps};

    ghost Value = { FoundSteps };

    ghost view = { λ f. record { before = f.before.items; after = f.after.items; words = take f.count f.words; number = f.number; at = f.at; room = f.room } };

    ghost invariant = { λ f. (f.room ≤ vec_capacity f.before) × (f.room ≤ vec_capacity f.after) × (f.count ≤ 64) };
}

impl StepList {
    /// Creates a list without steps, with room for `room` of them.
    pub fn new(alloc: Global, room: usize) -> Result<StepList, OutOfMemory>
        ensures { IfOk result (λ found. (found_steps found ≡ []) × (found.room ≡ room)) }
    {
        let before = Vec::with_capacity(alloc, room)?;
        let after = Vec::with_capacity(alloc, room)?;
        Ok(StepList {
            before,
            after,
            words: [RxWord::Bad; MOST_WORDS],
            count: 0,
            number: 0,
            at: 0,
            room,
        })
    }

    /// Takes all steps out.
    pub fn clear(&mut self)
        ensures steps { found_steps self.new ≡ [] }
        ensures room { self.new.room ≡ self.old.room }
    {
        self.before.clear();
        self.after.clear();
        self.count = 0;
    }

    /// Appends a step if it shows something.
    #[inline(always)]
    pub fn keep(&mut self, step: LaneStep)
        requires { length (found_steps self.old) < self.old.room }
        ensures steps { found_steps self.new ≡ found_steps self.old ++ shown_in (step ∷ []) }
        ensures room { self.new.room ≡ self.old.room }
    {
        match step {
            LaneStep::Nothing => {}
            LaneStep::Word(..) | LaneStep::Locked(_) | LaneStep::Lost(..) | LaneStep::Ended => {
                self.push(step)
            }
        }
    }

    // Appends a step.
    fn push(&mut self, step: LaneStep)
        requires { length (found_steps self.old) < self.old.room }
        ensures steps { found_steps self.new ≡ found_steps self.old ++ step ∷ [] }
        ensures room { self.new.room ≡ self.old.room }
    {
        if self.has_words() {
            self.after.push_reserved(step);
        } else {
            self.before.push_reserved(step);
        }
    }

    // True if it has payload words, or steps after them.
    fn has_words(&self) -> bool
        ensures none { result ≡ false → (self.now.words ≡ []) × (self.now.after ≡ []) }
    {
        self.count > 0 || !self.after.is_empty()
    }

    /// Appends the steps of these payload words. The first has the number `number` in its metaframe and the bit position `at`.
    #[inline(always)]
    pub fn append_payloads(&mut self, words: &[RxWord], number: u32, at: u64)
        requires few { length words.now ≤ 64 }
        requires number { number < 2 ^ 25 }
        requires at { at < 2 ^ 60 }
        requires room { length (found_steps self.old) + length words.now ≤ self.old.room }
        ensures steps { found_steps self.new ≡ found_steps self.old ++ payload_steps number at words.now }
        ensures room { self.new.room ≡ self.old.room }
    {
        self.begin(number, at);
        if self.goes_on(words.len(), number, at) {
            self.put_on(words);
        } else {
            self.push_each(words, number, at);
        }
    }

    // Says where its payload words begin, if it has none yet.
    #[inline(always)]
    fn begin(&mut self, number: u32, at: u64)
        ensures steps { found_steps self.new ≡ found_steps self.old }
        ensures room { self.new.room ≡ self.old.room }
    {
        if self.count == 0 {
            self.number = number;
            self.at = at;
        }
    }

    // True if `more` payload words, the first of this number and bit position, are next in the run of its payload words and fit.
    #[inline(always)]
    fn goes_on(&self, more: usize, number: u32, at: u64) -> bool
        requires { more ≤ 64 }
        ensures last { result ≡ true → self.now.after ≡ [] }
        ensures fit { result ≡ true → length self.now.words + more ≤ 64 }
        ensures number { result ≡ true → number ≡ self.now.number + length self.now.words }
        ensures at { result ≡ true → at ≡ self.now.at + 67 * length self.now.words }
    {
        let count = self.payload_words().len();
        if !self.after.is_empty() || count + more > MOST_WORDS || at < self.at {
            return false;
        }
        if number as u64 != self.number as u64 + count as u64 {
            return false;
        }
        at - self.at == CODE_BITS as u64 * count as u64
    }

    // Appends the steps of these payload words as steps.
    fn push_each(&mut self, words: &[RxWord], number: u32, at: u64)
        requires few { length words.now ≤ 64 }
        requires number { number < 2 ^ 25 }
        requires at { at < 2 ^ 60 }
        requires room { length (found_steps self.old) + length words.now ≤ self.old.room }
        ensures steps { found_steps self.new ≡ found_steps self.old ++ payload_steps number at words.now }
        ensures room { self.new.room ≡ self.old.room }
    {
        for k in 0..words.len() {
            let role = Role::Payload(number + k as u32);
            self.push(LaneStep::Word(words[k], role, at + CODE_BITS as u64 * k as u64));
        }
    }

    // Appends payload words that are next in the run of its payload words.
    #[inline(always)]
    fn put_on(&mut self, words: &[RxWord])
        requires fit { length self.old.words + length words.now ≤ 64 }
        requires last { self.old.after ≡ [] }
        ensures steps { found_steps self.new ≡ found_steps self.old ++ payload_steps (self.old.number + length self.old.words) (self.old.at + 67 * length self.old.words) words.now }
        ensures room { self.new.room ≡ self.old.room }
    {
        put_words(&mut self.words, self.count, words);
        self.count += words.len();
    }

    /// Returns the steps before the payload words.
    pub fn first_steps(&self) -> &[LaneStep]
        ensures { result.now ≡ self.now.before }
    {
        self.before.as_slice()
    }

    /// Returns the payload words.
    pub fn payload_words(&self) -> &[RxWord]
        ensures { result.now ≡ self.now.words }
    {
        &self.words[..self.count]
    }

    /// Returns the bit position of the first payload word.
    pub fn payload_at(&self) -> u64
        ensures { result ≡ self.now.at }
    {
        self.at
    }

    /// Returns the steps after the payload words.
    pub fn last_steps(&self) -> &[LaneStep]
        ensures { result.now ≡ self.now.after }
    {
        self.after.as_slice()
    }
}

// Writes words to the place `at`.
#[inline(always)]
fn put_words(plain: &mut [RxWord; MOST_WORDS], at: usize, words: &[RxWord])
    requires { at + length words.now ≤ 64 }
    ensures { take (at + length words.now) plain.new ≡ take at plain.old ++ words.now }
{
    // Not by `copy_from_slice`: a copy that may overlap puts the words down twice.
    for place in 0..words.len() {
        plain[at + place] = words[place];
    }
}
