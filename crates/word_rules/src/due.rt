//! Which word of the calendar is due.
ghost use Rattle.std.specs.Prelude.{◌≡◌, ◌<◌, ◌^◌, ◌+◌, ℕ, List, ◌-◌, ◌*◌, ◌==◌, ◌&&◌, nat_le, not, false, [], ◌∷◌, cond, IfSome};
ghost use Rattle.std.specs.Int.{bit_at};
ghost use Rattle.std.specs.Option.{option_map_or};
ghost use Rattle.lk_base.specs.Fields.{is_control_word};
ghost use Rattle.word_rules.specs.Rules.{has_zero_past_last};
ghost use Rattle.word_rules.specs.Due.{IsDue, as_due_by, calendar_by, entries_by, since_by};

use crate::before::one_more;
use control_words::ControlWord;

/// The accepted control words that are known, as far as `calendar` reads them.
#[derive(Clone, Copy, Debug, PartialEq, Eq)]
pub struct Due {
    /// How many of them come after the last one with Reset Calendar; none where none has it.
    pub after_reset: Option<u64>,
    /// How many there are.
    pub count: u64,
}

// Whether the flow bit of a word's entry `i` is 0 and stands past the last entry, where the word carries the sixteen entries of
// this number.
fn is_zero_past_last(entries: u64, word: ControlWord, number: u64, i: u64) -> bool
    requires number { number < 2 ^ 59 }
    requires bit { i < 16 }
    ensures { result ≡ (nat_le entries (16 * number + i) && not (bit_at word.0 (55 - i) == 1)) }
{
    let past = entries <= 16 * number + i;
    let on = word.entry(i as u32);
    past && !on
}

// Whether one of the flow bits of a word past the last entry is 0, where the word carries the sixteen entries of this number.
#[tactic(auto, using(crate::proofs::Dues::any_next))]
fn has_zero_past_last(entries: u64, word: ControlWord, number: u64) -> bool
    requires { number < 2 ^ 59 }
    ensures { result ≡ has_zero_past_last entries word.0 number }
{
    let mut found = false;
    for i in 0..16u64 {
        let zero = is_zero_past_last(entries, word, number, i);
        found = found || zero;
    }
    found
}

impl Due {
    /// What is kept before any word.
    pub fn new() -> Due
        ensures { IsDue result [] }
    {
        Due {
            after_reset: None,
            count: 0,
        }
    }

    // How many words come after the last one with Reset Calendar, with the next word.
    fn since(self) -> Option<u64>
        requires { IfSome self.after_reset (λ n. n < 2 ^ 58) }
        ensures { result ≡ since_by self }
    {
        self.after_reset.map(|n| n + 1)
    }

    // Whether Reset Calendar of a word is as is due.
    fn is_as_due(self, entries: u64, word: ControlWord) -> bool
        requires few { entries < 2 ^ 32 }
        requires small { IfSome self.after_reset (λ n. n < 2 ^ 58) }
        ensures { result ≡ as_due_by entries self word.0 }
    {
        let reset = word.reset();
        let words = (entries + 15) / 16;
        match self.since() {
            Some(n) => reset == (n == words),
            None => reset || self.count < words,
        }
    }

    // The number of the sixteen entries that a word carries, if that is known.
    fn entries(self, word: ControlWord) -> Option<u64>
        requires { IfSome self.after_reset (λ n. n < 2 ^ 58) }
        ensures { result ≡ entries_by self word.0 }
    {
        if word.reset() { Some(0) } else { self.since() }
    }

    // Whether a flow bit of a word past the last entry is 0.
    fn has_zero(self, entries: u64, word: ControlWord) -> bool
        requires { IfSome self.after_reset (λ n. n < 2 ^ 58) }
        ensures { result ≡ option_map_or (has_zero_past_last entries word.0) (entries_by self word.0) false }
    {
        self.entries(word)
            .is_some_and(|number| has_zero_past_last(entries, word, number))
    }

    /// Whether a Control word breaks `calendar`, where the calendar has this many entries.
    pub fn breaks_calendar(self, entries: u64, word: ControlWord) -> bool
        requires few { entries < 2 ^ 32 }
        requires small { IfSome self.after_reset (λ n. n < 2 ^ 58) }
        ensures { result ≡ calendar_by entries self word.0 }
    {
        word.is_accepted() && (!self.is_as_due(entries, word) || self.has_zero(entries, word))
    }

    // The words with an accepted control word after them.
    fn after(self, word: ControlWord) -> Due
        requires count { self.count < 2 ^ 60 }
        requires small { IfSome self.after_reset (λ n. n < 2 ^ 61) }
        ensures { (accepted : List ℕ) → IsDue self accepted → IsDue result (word.0 ∷ accepted) }
    {
        let after_reset = if word.reset() {
            Some(0)
        } else {
            one_more(self.after_reset)
        };
        Due {
            after_reset,
            count: self.count + 1,
        }
    }

    /// The words with a Control word after them, which counts where it is accepted.
    pub fn after_control(self, word: ControlWord) -> Due
        requires count { self.count < 2 ^ 60 }
        requires small { IfSome self.after_reset (λ n. n < 2 ^ 61) }
        ensures { (accepted : List ℕ) → IsDue self accepted → IsDue result (cond (is_control_word word.0) (word.0 ∷ accepted) accepted) }
    {
        if word.is_accepted() {
            self.after(word)
        } else {
            self
        }
    }
}
