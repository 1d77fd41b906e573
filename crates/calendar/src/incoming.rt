// why: No word counts before the first reset word, as after an invalid word.
ghost use Rattle.std.specs.Prelude.{◌≡◌, ℕ, ◌+◌, ◌*◌, ◌<◌, ◌≤◌, List, [], ◌∷◌, ◌++◌, length, map, reverse, Bool, IfOk, All, vec_len};
ghost use Rattle.std.specs.List.{range_with_len};
ghost use Rattle.stream_model.specs.Calendar.{Told};
ghost use Rattle.stream_model.specs.declared.rows.FlowRow.{FlowRow};
ghost use Rattle.arrayvec.specs.ArrayVec.{array_vec_len};
ghost use Rattle.calendar.specs.Changes.{changes, change_of, told_by_bits};
ghost use Rattle.calendar.specs.Incoming.{HasStates};

use super::change::Change;
use arrayvec::ArrayVec;
use control_words::{CHANNEL_NUMBERS, Control};
use lk_base::OutOfMemory;
use std::alloc::Global;

/// The states of channels by the calendar entries of incoming words.
#[derive(Drop)]
pub struct CalendarIn {
    entries: Vec<u16>,
    // The entry at which the next word without a reset goes on, if such a word counts.
    next: Option<usize>,
    // The state of each channel by its number.
    on: Vec<bool>,
}

// Takes one entry, and adds it to `changed` if it changes its channel.
fn tell_one(on: &mut [bool], changed: &mut ArrayVec<Change, 16>, channel: u16, now: bool)
    requires wide { length on.old ≡ 65536 }
    requires room { array_vec_len changed.old < 16 }
    ensures states { (told : List Told) (e : Told) → HasStates on.old told → e.channel ≡ channel → e.on ≡ now → HasStates on.new (e ∷ told) }
    ensures changed { (told : List Told) (e : Told) → HasStates on.old told → e.channel ≡ channel → e.on ≡ now → changed.new.items ≡ changed.old.items ++ change_of told e }
    ensures room { array_vec_len changed.new ≤ array_vec_len changed.old + 1 }
{
    if on[channel as usize] != now {
        on[channel as usize] = now;
        changed.push(Change { channel, on: now });
    }
}

// Takes the entries of one word, and adds to `changed` those that change a channel.
fn tell(entries: &[u16], word: Control, on: &mut [bool], changed: &mut ArrayVec<Change, 16>)
    requires short { length entries.now ≤ 16 }
    requires wide { length on.old ≡ 65536 }
    requires empty { changed.old.items ≡ [] }
    ensures states { (slot row : ℕ) (told : List Told) → HasStates on.old told → HasStates on.new (reverse (map (told_by_bits slot row entries.now word.flow) (range_with_len 0 (length entries.now))) ++ told) }
    ensures changed { (slot row : ℕ) (told : List Told) → HasStates on.old told → changed.new.items ≡ changes told (map (told_by_bits slot row entries.now word.flow) (range_with_len 0 (length entries.now))) }
{
    for i in 0..entries.len() {
        tell_one(on, changed, entries[i], word.entry(i as u32));
    }
}

impl CalendarIn {
    ghost use Rattle.std.specs.Prelude.{ℕ, List, [], ◌∷◌, ◌++◌, ◌≡◌, ◌≤◌, All, IfOk, length};
    ghost use Rattle.stream_model.specs.Calendar.{told_by_row, is_on};
    ghost use Rattle.stream_model.specs.declared.rows.FlowRow.{FlowRow};
    ghost use Rattle.calendar.specs.Changes.{changes, words_back, told_back, state_in};
    ghost use Rattle.calendar.specs.Incoming.{Stands, StandsFor};

    /// Creates a calendar with all channels on; no word counts until a reset.
    pub fn new(alloc: Global, entries: &[u16]) -> Result<CalendarIn, OutOfMemory>
        ensures { IfOk result (λ calendar. Stands calendar entries.now []) }
    {
        let on = vec![in alloc; true; CHANNEL_NUMBERS]?;
        let own = Vec::from_slice(alloc, entries)?;
        Ok(CalendarIn {
            entries: own,
            next: None,
            on,
        })
    }

    /// Takes the next word, `None` for one that is not valid. Adds each change of a channel's state to `changed`, in the
    /// order of entries.
    pub fn take(&mut self, word: Option<Control>, changed: &mut ArrayVec<Change, 16>)
        requires empty { changed.old.items ≡ [] }
        requires stands { (entries : List ℕ) × (rows : List FlowRow) × Stands self.old entries rows }
        ensures stands { (entries : List ℕ) (rows : List FlowRow) (slot w : ℕ) → Stands self.old entries rows → StandsFor word w → Stands self.new entries (rows ++ record { slot = slot; word = w } ∷ []) }
        ensures changed { (entries : List ℕ) (rows : List FlowRow) (slot w : ℕ) → Stands self.old entries rows → StandsFor word w → changed.new.items ≡ changes (told_back entries rows) (told_by_row entries (length rows) (words_back rows) (record { slot = slot; word = w })) }
    {
        let Some(c) = word else {
            self.next = None; // until a reset
            return;
        };
        let first = if c.reset { Some(0) } else { self.next };
        let Some(first) = first else {
            self.next = None;
            return;
        };
        let end = self.entries.len().min(first + 16);
        tell(&self.entries[first..end], c, &mut self.on, changed);
        self.next = Some(end);
    }

    /// True if a channel is on by the words that were taken.
    pub fn is_on(&self, channel: u16) -> bool
        requires stands { (entries : List ℕ) × (rows : List FlowRow) × Stands self.now entries rows }
        ensures state { (entries : List ℕ) (rows : List FlowRow) → Stands self.now entries rows → result ≡ state_in (told_back entries rows) channel }
        ensures on { (entries : List ℕ) (rows : List FlowRow) (t : ℕ) → Stands self.now entries rows → All (λ (row : FlowRow). row.slot ≤ t) rows → result ≡ is_on entries rows channel t }
    {
        self.on[channel as usize]
    }
}
