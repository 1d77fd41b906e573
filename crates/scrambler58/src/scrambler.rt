ghost use Rattle.std.specs.Prelude.{◌≡◌, ℕ, ◌+◌, ◌^◌, ◌<◌, ◌≤◌, Bool, List, length, bit_xor};
ghost use Rattle.lane_model.specs.Key.{start_of, state_before, key_word};

use crate::strides::{first_bits, second_bits};
use std::marker::Model;

// The bits of a state.
const STATE: u64 = (1 << 58) - 1;

/// The key of a lane at the word that comes next: its state, which is the last 58 key bits, the latest in bit 0.
#[derive(Clone, Copy, Debug, PartialEq, Eq)]
pub struct Scrambler {
    state: u64,
}

impl Model for Scrambler {
    ghost use Rattle.std.specs.Prelude.{ℕ, ◌^◌, ◌<◌};

    ghost Value = { ℕ };

    ghost view = { λ s. s.state };

    ghost invariant = { λ s. s.state < 2 ^ 58 };

    ghost inverse = { λ n. record { state = n } };
}

impl Scrambler {
    /// The key from a state on. The state has 58 bits.
    pub fn load(state: u64) -> Scrambler
        requires { state < 2 ^ 58 }
        ensures { result ≡ state }
    {
        Scrambler { state }
    }

    /// The payload xored with the next 64 key bits, the first of them with bit 63. The state moves by these bits; so
    /// where it was that before word number j of a key, it is that before the next word of the same key.
    pub fn apply(&mut self, payload: u64) -> u64
        ensures value { result ≡ bit_xor payload (key_word (start_of self.old) 0) }
        ensures state { self.new ≡ state_before (start_of self.old) 1 }
        ensures key { (start : List Bool) (j : ℕ) → 58 ≤ length start → self.old ≡ state_before start j → (result ≡ bit_xor payload (key_word start j)) × (self.new ≡ state_before start (j + 1)) }
    {
        let first = first_bits(self.state);
        let second = second_bits(self.state, first);
        let key = first << 25 | second;
        self.state = key & STATE;
        payload ^ key
    }

    /// The state: below 2^58.
    pub fn state(&self) -> u64
        ensures value { result ≡ self.now }
        ensures bound { result < 2 ^ 58 }
    {
        self.state
    }
}
