ghost use Rattle.std.specs.Prelude.{◌≡◌, ◌↔◌, ℕ, ◌+◌, ◌-◌, ◌<◌, ◌≤◌, ◌==◌, List, [], ◌∷◌, ◌++◌, length, true, All, IfOk, if◌then◌else◌};
ghost use Rattle.std.specs.Int.{bit_at};

use control_words::CHANNEL_NUMBERS;
use lk_base::OutOfMemory;
use std::alloc::Global;

/// What this end tells of its own channels in its control words.
#[derive(Drop)]
pub struct CalendarOut {
    entries: Vec<u16>,
    // The first entry of the next control word.
    first: usize,
    // The state of each channel by its number.
    on: Vec<bool>,
    // True if no channel was ever off.
    all_on: bool,
}

// Returns 1 for true, and 0 for false.
fn one_if(b: bool) -> u16
    ensures { result ≡ (if b then 1 else 0) }
{
    b as u16
}

impl CalendarOut {
    ghost use Rattle.std.specs.Prelude.{◌≡◌, ◌↔◌, ℕ, ◌+◌, ◌-◌, ◌<◌, ◌≤◌, ◌==◌, List, [], ◌∷◌, ◌++◌, length, true, All, IfOk};
    ghost use Rattle.std.specs.Int.{bit_at};
    ghost use Rattle.stream_model.specs.Calendar.{first_entry, calendar_bit};
    ghost use Rattle.stream_model.specs.declared.rows.LocalRow.{LocalRow};
    ghost use Rattle.calendar.specs.Outgoing.{StandsOut};

    /// Creates a calendar with all channels on; the next control word is the first.
    pub fn new(alloc: Global, entries: &[u16]) -> Result<CalendarOut, OutOfMemory>
        requires low { 1 ≤ length entries.now }
        requires high { length entries.now ≤ 1024 }
        ensures { IfOk result (λ calendar. StandsOut calendar entries.now [] 0) }
    {
        let on = vec![in alloc; true; CHANNEL_NUMBERS]?;
        let own = Vec::from_slice(alloc, entries)?;
        Ok(CalendarOut {
            entries: own,
            first: 0,
            on,
            all_on: true,
        })
    }

    /// Turns a channel of this end on or off, from the next control word on.
    pub fn set(&mut self, channel: u16, on: bool)
        requires stands { (entries : List ℕ) × (local : List LocalRow) × (j : ℕ) × StandsOut self.old entries local j }
        ensures { (entries : List ℕ) (local : List LocalRow) (j slot : ℕ) → StandsOut self.old entries local j → StandsOut self.new entries (local ++ record { slot = slot; channel = channel; on = on } ∷ []) j }
    {
        self.on[channel as usize] = on;
        self.all_on = self.all_on && on;
    }

    // Returns what the next control word tells at a place.
    fn bit(&self, place: usize) -> bool
        requires stands { (entries : List ℕ) × (local : List LocalRow) × (j : ℕ) × StandsOut self.now entries local j }
        requires place { place < 16 }
        ensures { (entries : List ℕ) (local : List LocalRow) (j t : ℕ) → StandsOut self.now entries local j → All (λ (row : LocalRow). row.slot ≤ t) local → result ≡ calendar_bit entries local j t place }
    {
        let n = self.first + place;
        if n < self.entries.len() {
            let channel = self.entries[n];
            self.on[channel as usize]
        } else {
            true
        }
    }

    // Returns the flow bits of the next control word, found one by one.
    fn each_bit(&self) -> u16
        requires stands { (entries : List ℕ) × (local : List LocalRow) × (j : ℕ) × StandsOut self.now entries local j }
        ensures { (entries : List ℕ) (local : List LocalRow) (j t i : ℕ) → StandsOut self.now entries local j → All (λ (row : LocalRow). row.slot ≤ t) local → i < 16 → (bit_at result (15 - i) == 1) ≡ calendar_bit entries local j t i }
    {
        let mut flow: u16 = 0;
        for i in 0..16usize {
            flow = flow * 2 + one_if(self.bit(i));
        }
        flow
    }

    // Returns the flow bits of the next control word: all 1 if no channel was ever off.
    fn flow(&self) -> u16
        requires stands { (entries : List ℕ) × (local : List LocalRow) × (j : ℕ) × StandsOut self.now entries local j }
        ensures { (entries : List ℕ) (local : List LocalRow) (j t i : ℕ) → StandsOut self.now entries local j → All (λ (row : LocalRow). row.slot ≤ t) local → i < 16 → (bit_at result (15 - i) == 1) ≡ calendar_bit entries local j t i }
    {
        if self.all_on {
            u16::MAX
        } else {
            self.each_bit()
        }
    }

    /// Makes the reset bit and the flow bits of the next control word.
    pub fn next(&mut self) -> (bool, u16)
        requires stands { (entries : List ℕ) × (local : List LocalRow) × (j : ℕ) × StandsOut self.old entries local j }
        ensures reset { (entries : List ℕ) (local : List LocalRow) (j : ℕ) → StandsOut self.old entries local j → (result.0 ≡ true) ↔ (first_entry entries j ≡ 0) }
        ensures flow { (entries : List ℕ) (local : List LocalRow) (j t i : ℕ) → StandsOut self.old entries local j → All (λ (row : LocalRow). row.slot ≤ t) local → i < 16 → (bit_at result.1 (15 - i) == 1) ≡ calendar_bit entries local j t i }
        ensures stands { (entries : List ℕ) (local : List LocalRow) (j : ℕ) → StandsOut self.old entries local j → StandsOut self.new entries local (j + 1) }
    {
        let reset = self.first == 0;
        let flow = self.flow();
        let after = self.first + 16;
        self.first = if after < self.entries.len() { after } else { 0 };
        (reset, flow)
    }
}
