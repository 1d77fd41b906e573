ghost use Rattle.std.specs.Prelude.{◌≡◌, List, [], ◌∷◌, ◌++◌, ◌^◌, ◌<◌, ℕ, ◌≤ℤ◌, pos, negsuc};
ghost use Rattle.lk_base.specs.Words.{payload as payload_of, as_sent};
ghost use Rattle.lane_model.specs.Coding.{code_behind, code_of, disparity, is_inverted, next_disparity, word_of_code};

use crate::codes::{code, disparity_after, inverts, weight_of};
use lk_base::Word;
use std::marker::Model;

/// The codes of one lane, word by word. It is seen as its running disparity: the ones less the zeros in the codes so far.
#[derive(Clone, Copy, Debug, PartialEq, Eq)]
pub struct Encoder {
    disparity: i32,
}

impl Model for Encoder {
    ghost use Rattle.std.specs.Prelude.{ℤ, pos, negsuc, ◌≤ℤ◌};

    ghost Value = { ℤ };

    ghost view = { λ e. e.disparity };

    ghost invariant = { λ e. (negsuc 64 ≤ℤ e.disparity) × (e.disparity ≤ℤ pos 64) };

    ghost inverse = { λ r. record { disparity = r } };
}

impl Encoder {
    /// Creates the encoder of a lane with no code yet.
    pub fn new() -> Encoder
        ensures value { result ≡ pos 0 }
        ensures codes { result ≡ disparity [] }
    {
        Encoder { disparity: 0 }
    }

    /// Makes the code of the word after the codes so far, below 2^67. It is inverted if that brings the disparity nearer to 0:
    /// if the disparity is not below 0 and the payload with one further zero bit has more ones than zeros, or it is below 0
    /// and there are fewer.
    pub fn encode(&mut self, word: Word) -> u128
        ensures value { result ≡ code_of (is_inverted self.old (payload_of word)) word }
        ensures disparity { self.new ≡ next_disparity self.old (payload_of word) }
        ensures codes { (before : List ℕ) → self.old ≡ disparity before → (result ≡ code_behind before word) × (self.new ≡ disparity (before ++ result ∷ [])) }
        ensures below { result < 2 ^ 67 }
        ensures means { word_of_code result ≡ as_sent word }
    {
        let weight = weight_of(word.number());
        let inverted = inverts(self.disparity, weight);
        let next = disparity_after(self.disparity, weight, inverted);
        self.disparity = next;
        code(inverted, word)
    }

    /// Returns the running disparity: -65..=64.
    pub fn disparity(&self) -> i32
        ensures value { result ≡ self.now }
        ensures low { negsuc 64 ≤ℤ result }
        ensures high { result ≤ℤ pos 64 }
    {
        self.disparity
    }
}
