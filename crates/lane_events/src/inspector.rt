ghost use Rattle.std.specs.Prelude.{◌≡◌, ◌<◌, ◌≤◌, ◌+◌, ◌-◌, ◌*◌, ◌/◌, ◌%◌, ◌^◌, ◌++◌, true, false, ℕ, Bool, List, [], length, drop, take, OnOk, IfOk, IfSome, IfNone};
ghost use Rattle.lk_base.specs.Checksum.{bits_of, bits_of_bytes};
ghost use Rattle.lk_base.specs.Link.{Settings};
ghost use Rattle.lane_model.specs.LaneBits.{bits_of_codes};
ghost use Rattle.lane_lock.specs.Bytes.{Brings, steps_of_bits};
ghost use Rattle.lane_lock.specs.Run.{are_codes};
ghost use Rattle.lane_lock.specs.Standing.{IsReport};
ghost use Rattle.lane_lock.specs.Taken.{payloads_next};
ghost use Rattle.lane_events.specs.declared.types.LaneEvent.{LaneEvent as Event};
ghost use Rattle.lane_events.specs.Events.{AreLaneEvents};
ghost use Rattle.lane_events.specs.Balance.{balance_after as balance_with};
ghost use Rattle.lane_events.specs.Inspection.{Finds, GoesOn, Inspects, IsCounted, IsPassed, IsPushed, IsShown, IsTold, ShowsNone, events_if, events_in, excess_before, shown_in};

use crate::balance::{balance_over, balance_with};
use crate::told::{balance_after, balance_before, is_plain, told, unbalances};
use crate::types::LaneEvent;
use crate::windows::{code_in, last_of, number_at, pushed};
use crate::word_events::WordEvents;
use lane_lock::{Completed, EIGHT_CODES_BYTES, LaneLock, eight_codes};
use lk_base::{Link, OutOfMemory, head, tail};
use lock_model::{LaneReport, LaneStep};
use std::alloc::Global;
use std::marker::Model;

// How many bytes are taken at once: a word has 67 bits, so at most one ends within the 56 of seven bytes.
const PIECE: usize = 7;

// How many words are taken at once, if they show nothing.
const WORDS: usize = 8;

/// Shows the events of one lane as its bytes arrive. It takes memory when it is created, and none after.
#[derive(Drop)]
pub struct LaneInspector {
    /// The locks of the bits so far.
    lock: LaneLock,
    /// The last 128 bits, the latest in bit 0.
    window: u128,
    /// The ones less the zeros in the codes of the lock that goes on; `None` once they were unbalanced.
    balance: Option<i32>,
    /// The report after the last word that was not passed over. It counts what the report over all bits so far counts.
    counted: LaneReport,
}

impl Model for LaneInspector {
    ghost use Rattle.std.specs.Prelude.{◌≡◌, ◌≤ℤ◌, pos, negsuc, IfSome};
    ghost use Rattle.lane_events.specs.Inspection.{InspectorView};

    ghost Value = { InspectorView };

    ghost view = { λ a. record { lock = a.lock; taken = a.lock.taken; window = a.window; balance = a.balance; counted = a.counted } };

    ghost invariant = { λ a. IfSome a.balance (λ n. (negsuc 128 ≤ℤ n) × (n ≤ℤ pos 129)) };
}

impl LaneInspector {
    /// Creates the inspector of a lane of which no bit came.
    pub fn new(alloc: Global, link: &Link) -> Result<LaneInspector, OutOfMemory>
        ensures { IfOk result (λ v. Inspects v link.now [] × (v.taken ≡ 0) × AreLaneEvents link.now [] []) }
    {
        let lock = LaneLock::new(alloc, link)?;
        let counted = lock.report();
        Ok(LaneInspector {
            lock,
            window: 0,
            balance: None,
            counted,
        })
    }

    /// Takes the next `count` bytes of the lane, 1 to 7: `bits` is the number of their bits, the first of them highest. Returns the
    /// events of the one word that ends within them, if one does: the next ones after the events of the bytes before. At most 2^60
    /// bits come in all.
    pub fn take(&mut self, bits: u64, count: u32) -> WordEvents
        requires some { 1 ≤ count }
        requires most { count ≤ 7 }
        requires bits { bits < 2 ^ (8 * count) }
        requires few { self.old.taken + 8 * count ≤ 2 ^ 60 }
        ensures taken { self.new.taken ≡ self.old.taken + 8 * count }
        ensures inspects { (s : Settings) (so_far : List Bool) → Inspects self.old s so_far → Inspects self.new s (so_far ++ bits_of (8 * count) bits) }
        ensures events { (s : Settings) (so_far : List Bool) (events : List Event) → Inspects self.old s so_far → AreLaneEvents s so_far events →
            AreLaneEvents s (so_far ++ bits_of (8 * count) bits) (events ++ events_in result) }
    {
        let mut events = WordEvents::new(0);
        let shows = self.next_events(bits, count, &mut events);
        if shows {
            return events;
        }
        WordEvents::new(0)
    }

    // Takes the next bytes, at most seven, and returns the word that ends within them. Its step is neither told nor passed over yet.
    #[inline(always)]
    fn push(&mut self, bits: u64, count: u32) -> Option<Completed>
        requires some { 1 ≤ count }
        requires most { count ≤ 7 }
        requires bits { bits < 2 ^ (8 * count) }
        requires few { self.old.taken + 8 * count ≤ 2 ^ 60 }
        ensures place { IfSome result (λ c. c.place < 8 * count) }
        ensures pushed { IsPushed self.old self.new (8 * count) bits }
        ensures stands { Brings self.old.lock self.new.lock (bits_of (8 * count) bits) (steps_of_bits (8 * count) result) }
    {
        self.window = pushed(self.window, bits, 8 * count);
        self.lock.take_bytes(bits, count)
    }

    // Returns the code of the word after which `further` bits came.
    fn code(&self, further: u32) -> u128
        requires { further ≤ 55 }
        ensures value { result ≡ self.now.window / 2 ^ further % 2 ^ 67 }
        ensures below { result < 2 ^ 67 }
    {
        code_in(self.window, further)
    }

    // Returns the events of the word of a step after which `further` bits came, given the report after it.
    fn shown(&mut self, after: &LaneReport, step: LaneStep, further: u32) -> WordEvents
        requires { further ≤ 55 }
        ensures { IsShown self.old self.new self.old.counted after.now step further result }
    {
        let code = self.code(further);
        let started = balance_before(step, self.balance);
        self.balance = balance_after(step, started, code);
        let is_lost = unbalances(started, self.balance);
        let events = told(step, &self.counted, after, is_lost);
        self.counted = *after;
        events
    }

    // Passes over the word of a step after which `further` bits came, if it shows nothing. True if it passed over it.
    #[inline(always)]
    fn passes(&mut self, step: LaneStep, further: u32) -> bool
        requires { further ≤ 55 }
        ensures passed { result ≡ true → IsPassed self.old self.new step further }
        ensures other { result ≡ false → self.new ≡ self.old }
    {
        let LaneStep::Word(word, role, _) = step else {
            return matches!(step, LaneStep::Nothing);
        };
        if !is_plain(word, role) {
            return false;
        }
        self.keeps_balance(further)
    }

    // Counts the code of the covered word after which `further` bits came. False, and nothing is counted, if it unbalances the lock.
    #[inline(always)]
    fn keeps_balance(&mut self, further: u32) -> bool
        requires { further ≤ 55 }
        ensures kept { result ≡ true → IsCounted self.old self.new (balance_with self.old.balance (excess_before self.old further)) }
        ensures other { result ≡ false → self.new ≡ self.old }
    {
        let Some(before) = self.balance else {
            return true;
        };
        let balance = balance_with(Some(before), self.code(further));
        if balance.is_none() {
            return false;
        }
        self.balance = balance;
        true
    }

    // Writes the events of the word of a step after which `further` bits came. True if it shows any. Few words do: so this call is
    // kept out of the loops.
    #[inline(never)]
    fn tell(&mut self, step: LaneStep, further: u32, events: &mut WordEvents) -> bool
        requires { further ≤ 55 }
        ensures told { IsTold self.old self.new step further (events_if result events.new) }
        ensures some { result ≡ true → events_in events.new ≡ [] → ⊥ }
    {
        let after = self.lock.report();
        *events = self.shown(&after, step, further);
        if events.is_empty() {
            return false;
        }
        true
    }

    // Takes the next bytes, at most seven. True if the word that ends within them shows events, which are then written. Few words show
    // some: so the caller has room for them, and its loop makes none for the others.
    #[inline(always)]
    fn next_events(&mut self, bits: u64, count: u32, events: &mut WordEvents) -> bool
        requires some { 1 ≤ count }
        requires most { count ≤ 7 }
        requires bits { bits < 2 ^ (8 * count) }
        requires few { self.old.taken + 8 * count ≤ 2 ^ 60 }
        ensures taken { self.new.taken ≡ self.old.taken + 8 * count }
        ensures goes_on { GoesOn self.old self.new (bits_of (8 * count) bits) (events_if result events.new) }
        ensures some { result ≡ true → events_in events.new ≡ [] → ⊥ }
    {
        let Some(word) = self.push(bits, count) else {
            return false;
        };
        let further = 8 * count - 1 - word.place;
        if self.passes(word.step, further) {
            return false;
        }
        self.tell(word.step, further, events)
    }

    /// Takes the next byte of the lane, and returns the events of the word that ends within it, if one does. At most 2^60 bits come
    /// in all.
    pub fn byte(&mut self, byte: u8) -> WordEvents
        requires few { self.old.taken + 8 ≤ 2 ^ 60 }
        ensures taken { self.new.taken ≡ self.old.taken + 8 }
        ensures inspects { (s : Settings) (so_far : List Bool) → Inspects self.old s so_far → Inspects self.new s (so_far ++ bits_of 8 byte) }
        ensures events { (s : Settings) (so_far : List Bool) (events : List Event) → Inspects self.old s so_far → AreLaneEvents s so_far events →
            AreLaneEvents s (so_far ++ bits_of 8 byte) (events ++ events_in result) }
    {
        self.take(byte as u64, 1)
    }

    /// Takes the next bytes of the lane, up to a word that shows events, and takes no memory. Returns how many bytes it took, and the
    /// events of that word: the next ones after the events of the bytes before. If no word shows any, it takes all bytes and returns
    /// `None`; otherwise the word ends within the last seven bytes that it took. At most 2^60 bits come in all.
    pub fn take_until_events(&mut self, bytes: &[u8]) -> (usize, Option<WordEvents>)
        requires few { self.old.taken + 8 * length bytes.now ≤ 2 ^ 60 }
        ensures within { result.0 ≤ length bytes.now }
        ensures some { 1 ≤ length bytes.now → 1 ≤ result.0 }
        ensures taken { self.new.taken ≡ self.old.taken + 8 * result.0 }
        ensures goes_on { GoesOn self.old self.new (bits_of_bytes (take result.0 bytes.now)) (shown_in result.1) }
        ensures shown { IfSome result.1 (λ events. events_in events ≡ [] → ⊥) }
        ensures all { IfNone result.1 (result.0 ≡ length bytes.now) }
        ensures soon { (n : ℕ) → n + 7 ≤ result.0 → ShowsNone self.old (bits_of_bytes (take n bytes.now)) }
    {
        let (at, shown) = self.take_pieces(bytes);
        if shown.is_some() {
            return (at, shown);
        }
        let left = bytes.len() - at;
        if left == 0 {
            return (at, None);
        }
        let mut events = WordEvents::new(0);
        let shows = self.next_events(number_at(bytes, at, left), left as u32, &mut events);
        if shows {
            return (bytes.len(), Some(events));
        }
        (bytes.len(), None)
    }

    // Takes eight payload words of a declared lock at once by their codes, if they show nothing. True if it took them; if not, nothing
    // changes.
    #[inline(always)]
    fn passes_codes(&mut self, codes: &[u128; 8]) -> bool
        requires codes { are_codes codes.now }
        requires ahead { 8 ≤ payloads_next self.old.lock }
        requires few { self.old.taken + 536 ≤ 2 ^ 60 }
        ensures taken { result ≡ true → self.new.taken ≡ self.old.taken + 536 }
        ensures goes_on { result ≡ true → GoesOn self.old self.new (bits_of_codes codes.now) [] }
        ensures same { result ≡ false → self.new ≡ self.old }
    {
        let after = balance_over(self.balance, codes);
        if unbalances(self.balance, after) {
            return false;
        }
        if !self.lock.take_codes(codes) {
            return false;
        }
        self.balance = after;
        self.window = last_of(codes);
        true
    }

    // Takes the next eight words at once, if they are payload words that begin with byte `at` and show nothing. True if it took them;
    // if not, nothing changes.
    #[inline(always)]
    fn passes_words(&mut self, bytes: &[u8], at: usize) -> bool
        requires there { at ≤ length bytes.now }
        requires few { self.old.taken + 8 * (length bytes.now - at) ≤ 2 ^ 60 }
        ensures there { result ≡ true → at + 67 ≤ length bytes.now }
        ensures taken { result ≡ true → self.new.taken ≡ self.old.taken + 536 }
        ensures goes_on { result ≡ true → GoesOn self.old self.new (bits_of_bytes (take 67 (drop at bytes.now))) [] }
        ensures same { result ≡ false → self.new ≡ self.old }
    {
        if bytes.len() - at < EIGHT_CODES_BYTES || self.lock.payloads_left() < WORDS {
            return false;
        }
        self.passes_codes(&eight_codes(head(tail(bytes, at), EIGHT_CODES_BYTES)))
    }

    // Returns how many bytes are taken next: seven, or fewer if the next word ends with one of them. So no word that begins with a
    // byte is missed.
    #[inline(always)]
    fn piece(&self) -> usize
        ensures some { 1 ≤ result }
        ensures most { result ≤ 7 }
    {
        let left = self.lock.bits_left() as usize;
        let bytes = left / 8;
        if left % 8 == 0 && 1 <= bytes && bytes <= PIECE {
            bytes
        } else {
            PIECE
        }
    }

    // Takes bytes in pieces, while more than seven are left and none showed an event. Returns how many it took, and the events of the
    // word that showed some.
    fn take_pieces(&mut self, bytes: &[u8]) -> (usize, Option<WordEvents>)
        requires few { self.old.taken + 8 * length bytes.now ≤ 2 ^ 60 }
        ensures within { result.0 ≤ length bytes.now }
        ensures taken { self.new.taken ≡ self.old.taken + 8 * result.0 }
        ensures goes_on { GoesOn self.old self.new (bits_of_bytes (take result.0 bytes.now)) (shown_in result.1) }
        ensures shown { IfSome result.1 (λ events. (events_in events ≡ [] → ⊥) × (1 ≤ result.0)) }
        ensures rest { IfNone result.1 (length bytes.now ≤ result.0 + 7) }
        ensures soon { (n : ℕ) → n + 7 ≤ result.0 → ShowsNone self.old (bits_of_bytes (take n bytes.now)) }
    {
        let mut events = WordEvents::new(0);
        let mut at = 0;
        while bytes.len() - at > PIECE {
            if self.passes_words(bytes, at) {
                at += EIGHT_CODES_BYTES;
                continue;
            }
            let count = self.piece();
            let shows = self.next_events(number_at(bytes, at, count), count as u32, &mut events);
            at += count;
            if shows {
                return (at, Some(events));
            }
        }
        (at, None)
    }

    /// Takes the next bytes of the lane, and appends the events of the words that end within them, at most twelve a byte. At most 2^60
    /// bits come in all.
    ///
    /// # Errors
    ///
    /// `OutOfMemory` if memory ran out for the events. Then some of the bytes were taken and some of their events appended, and the
    /// inspector and `found` are of no more use.
    pub fn inspect(&mut self, bytes: &[u8], found: &mut Vec<LaneEvent>) -> Result<(), OutOfMemory>
        requires few { self.old.taken + 8 * length bytes.now ≤ 2 ^ 60 }
        ensures taken { OnOk result (self.new.taken ≡ self.old.taken + 8 * length bytes.now) }
        ensures finds { OnOk result (Finds self.old self.new (bits_of_bytes bytes.now) found.old.items found.new.items) }
        ensures few { OnOk result (length found.new.items ≤ length found.old.items + 12 * length bytes.now) }
    {
        let mut at = 0;
        while at < bytes.len() {
            at += self.inspect_more(tail(bytes, at), found)?;
        }
        Ok(())
    }

    // Takes the next bytes of the lane, up to a word that shows events, and appends these. Returns how many bytes it took.
    fn inspect_more(
        &mut self,
        bytes: &[u8],
        found: &mut Vec<LaneEvent>,
    ) -> Result<usize, OutOfMemory>
        requires few { self.old.taken + 8 * length bytes.now ≤ 2 ^ 60 }
        requires some { 1 ≤ length bytes.now }
        ensures within { IfOk result (λ count. (1 ≤ count) × (count ≤ length bytes.now)) }
        ensures taken { IfOk result (λ count. self.new.taken ≡ self.old.taken + 8 * count) }
        ensures finds { IfOk result (λ count. Finds self.old self.new (bits_of_bytes (take count bytes.now)) found.old.items found.new.items) }
        ensures few { IfOk result (λ count. length found.new.items ≤ length found.old.items + 12) }
    {
        let (count, shown) = self.take_until_events(bytes);
        let Some(events) = shown else {
            return Ok(count);
        };
        events.append_to(found)?;
        Ok(count)
    }

    /// Returns the report over the bits so far.
    pub fn report(&self) -> LaneReport
        ensures { (s : Settings) (bits : List Bool) → Inspects self.now s bits → IsReport s bits result }
    {
        self.lock.report()
    }
}
