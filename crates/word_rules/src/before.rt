//! What the rules read of the words before a place.
ghost use Rattle.std.specs.Prelude.{◌≡◌, ◌<◌, ◌+◌, ◌^◌, List, [], ◌∷◌, length, suc, cond, Some, None, IfSome};
ghost use Rattle.std.specs.Option.{option_map};
ghost use Rattle.lk_base.specs.declared.word.RxWord.{RxWord};
ghost use Rattle.lk_base.specs.declared.word.RxWord.TheVariants.{Data, Control, Bad};
ghost use Rattle.word_rules.specs.Places.{is_burst_word};
ghost use Rattle.word_rules.specs.Runs.{last_or, run_after};
ghost use Rattle.word_rules.specs.Stands.{IsBefore};

use control_words::ControlWord;
use lk_crc::{crc24_start, crc24_word, crc24_words};

/// Whether a word is a burst word: an accepted control word with bit 62.
pub fn is_burst_word(word: ControlWord) -> bool
    ensures { result ≡ is_burst_word word.0 }
{
    word.is_accepted() && word.is_burst()
}

// The word's number as that of a burst word, if it is one.
fn burst_number(word: ControlWord) -> Option<u64>
    ensures { result ≡ cond (is_burst_word word.0) (Some word.0) None }
{
    if is_burst_word(word) {
        Some(word.0)
    } else {
        None
    }
}

/// One more than a count, if there is one.
pub fn one_more(count: Option<u64>) -> Option<u64>
    requires { IfSome count (λ n. n < 2 ^ 61) }
    ensures { result ≡ option_map suc count }
{
    count.map(|n| n + 1)
}

// So many more than a count, if there is one.
fn more(count: Option<u64>, by: u64) -> Option<u64>
    requires first { IfSome count (λ n. n < 2 ^ 61) }
    requires second { by < 2 ^ 61 }
    ensures { result ≡ option_map (λ n. n + by) count }
{
    match count {
        Some(n) => Some(n + by),
        None => None,
    }
}

// The last of these numbers, or another where there is none.
fn last_or(other: u64, run: &[u64]) -> u64
    ensures { result ≡ last_or other run.now }
{
    if run.is_empty() {
        return other;
    }
    run[run.len() - 1]
}

// The words between the last burst word and what comes after a Control word, by those before it.
fn since_after(word: ControlWord, since: Option<u64>) -> Option<u64>
    requires { IfSome since (λ n. n < 2 ^ 61) }
    ensures { result ≡ cond (is_burst_word word.0) (Some 0) (option_map suc since) }
{
    if is_burst_word(word) {
        Some(0)
    } else {
        one_more(since)
    }
}

/// The words before a place, as far as the rules read them.
#[derive(Clone, Copy, Debug, PartialEq, Eq)]
pub struct Before {
    /// How many words there are: the number of the word at the place.
    pub number: u64,
    /// The register of CRC24 after the Data words since the last Control word.
    pub register: u32,
    /// The burst word right before the Data words that stand before the place, if it is one.
    pub burst: Option<u64>,
    /// Whether a Bad word stands right before these Data words.
    pub after_bad: bool,
    /// How many Data words stand right before the place.
    pub size: u64,
    /// The last of them, and 0 where there is none.
    pub last: u64,
    /// How many words stand between the last known burst word and the place.
    pub since_burst: Option<u64>,
    /// Whether a Bad word is among the words.
    pub any_bad: bool,
}

impl Before {
    /// What is kept before any word.
    pub fn new() -> Before
        ensures { IsBefore result [] }
    {
        Before {
            number: 0,
            register: crc24_start(),
            burst: None,
            after_bad: false,
            size: 0,
            last: 0,
            since_burst: None,
            any_bad: false,
        }
    }

    /// The words with a Data word after them.
    pub fn after_data(self, word: u64) -> Before
        requires { (earlier : List RxWord) × IsBefore self earlier × (length earlier < 2 ^ 60) }
        ensures { (earlier : List RxWord) → IsBefore self earlier → IsBefore result (Data word ∷ earlier) }
    {
        Before {
            number: self.number + 1,
            register: crc24_word(self.register, word),
            size: self.size + 1,
            last: word,
            since_burst: one_more(self.since_burst),
            ..self
        }
    }

    /// The words with Data words of these numbers after them.
    pub fn after_run(self, run: &[u64]) -> Before
        requires { (earlier : List RxWord) × IsBefore self earlier × (length earlier + length run.now < 2 ^ 60) }
        ensures { (earlier : List RxWord) → IsBefore self earlier → IsBefore result (run_after earlier run.now) }
    {
        let count = run.len() as u64;
        Before {
            number: self.number + count,
            register: crc24_words(self.register, run),
            size: self.size + count,
            last: last_or(self.last, run),
            since_burst: more(self.since_burst, count),
            ..self
        }
    }

    /// The words with a Control word after them.
    pub fn after_control(self, word: ControlWord) -> Before
        requires { (earlier : List RxWord) × IsBefore self earlier × (length earlier < 2 ^ 60) }
        ensures { (earlier : List RxWord) → IsBefore self earlier → IsBefore result (Control word.0 ∷ earlier) }
    {
        Before {
            number: self.number + 1,
            register: crc24_start(),
            burst: burst_number(word),
            after_bad: false,
            size: 0,
            last: 0,
            since_burst: since_after(word, self.since_burst),
            any_bad: self.any_bad,
        }
    }

    /// The words with a Bad word after them.
    pub fn after_bad_word(self) -> Before
        requires { (earlier : List RxWord) × IsBefore self earlier × (length earlier < 2 ^ 60) }
        ensures { (earlier : List RxWord) → IsBefore self earlier → IsBefore result (Bad ∷ earlier) }
    {
        Before {
            number: self.number + 1,
            register: self.register,
            burst: None,
            after_bad: true,
            size: 0,
            last: 0,
            since_burst: None,
            any_bad: true,
        }
    }
}
