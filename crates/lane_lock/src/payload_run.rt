ghost use Rattle.std.specs.Prelude.{◌≡◌, ◌≤◌, ◌+◌, map, true, false};
ghost use Rattle.lk_base.specs.Words.{is_bad as bad_of};
ghost use Rattle.lane_lock.specs.declared.passing.Passing.TheVariants as passings;
ghost use Rattle.lane_lock.specs.Counts.{CountsNothing};
ghost use Rattle.lane_model.specs.Coding.{word_of_code};
ghost use Rattle.lane_model.specs.declared.role.Role.TheVariants as roles;
ghost use Rattle.lane_lock.specs.Inside.{payload_number, payloads_left};
ghost use Rattle.lane_lock.specs.Run.{all_legal, are_codes, keyed_word, keyed_words, run_of, watch_ran, word_ran, words_ran};
ghost use Rattle.lane_lock.specs.Watch.{WatchState};
ghost use Rattle.lane_lock.specs.Watching.{Answers};

use crate::headers::Headers;
use crate::inside::Inside;
use crate::seen_word::SeenWord;
use lk_base::RxWord;
use std::marker::Model;

/// The part of a declared lock that payload words in a row change: a copy, which a loop over many of them keeps in registers.
#[derive(Clone, Copy)]
pub struct PayloadRun {
    headers: Headers,
    inside: Inside,
}

impl Model for PayloadRun {
    ghost use Rattle.lane_lock.specs.Run.{RunState};

    ghost Value = { RunState };

    ghost view = { λ r. record { headers = r.headers; inside = r.inside } };

    ghost inverse = { λ r. record { headers = r.headers; inside = r.inside } };
}

impl PayloadRun {
    /// Creates a run after the words of these headers, and `inside` their lock.
    pub fn new(headers: Headers, inside: Inside) -> PayloadRun
        ensures { result ≡ record { headers = headers; inside = inside } }
    {
        PayloadRun { headers, inside }
    }

    /// Returns the headers after it.
    pub fn headers(&self) -> Headers
        ensures { result ≡ self.now.headers }
    {
        self.headers
    }

    /// Returns the words of its lock after it.
    pub fn inside(&self) -> Inside
        ensures { result ≡ self.now.inside }
    {
        self.inside
    }

    /// Takes the next word, which is a payload word with a legal header. It counts as nothing in a report.
    #[inline(always)]
    pub fn payload(&mut self, word: RxWord) -> SeenWord
        requires ahead { 1 ≤ payloads_left self.old.inside }
        requires legal { bad_of word ≡ false }
        ensures left { payloads_left self.old.inside ≡ payloads_left self.new.inside + 1 }
        ensures counts { CountsNothing result }
        ensures role { result.role ≡ roles.Payload (payload_number self.old.inside) }
        ensures moves { (self.new.inside.settings ≡ self.old.inside.settings) × (self.new.inside.position ≡ self.old.inside.position + 1) }
        ensures value { (result.word ≡ keyed_word self.old.inside.state word) × (self.new ≡ word_ran self.old word) }
        ensures answer { (v : WatchState) → v.declared ≡ true → run_of v ≡ self.old → Answers (passings.Inside result) v (watch_ran v 1 self.new) word }
    {
        let _kept = self.headers.word(false);
        self.inside.payload(word)
    }

    /// Takes the next eight words by their codes, which are payload words with legal headers, as eight calls of `payload` do.
    /// Returns them as they are received.
    #[inline(always)]
    pub fn payload_codes(&mut self, codes: &[u128; 8]) -> [RxWord; 8]
        requires ahead { 8 ≤ payloads_left self.old.inside }
        requires codes { are_codes codes.now }
        requires legal { all_legal (map word_of_code codes.now) }
        ensures words { result ≡ keyed_words self.old.inside.state (map word_of_code codes.now) }
        ensures value { self.new ≡ words_ran self.old (map word_of_code codes.now) }
    {
        self.headers.legal(8);
        self.inside.payload_codes(codes)
    }
}
