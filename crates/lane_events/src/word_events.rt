ghost use Rattle.std.specs.Prelude.{◌≡◌, ◌≤◌, ◌+◌, false, true, [], ◌++◌, OnOk, length, map};
ghost use Rattle.lane_events.specs.Steps.{event_of};
ghost use Rattle.lane_events.specs.Inspection.{events_in};

use crate::types::{EventKind, LaneEvent};
use arrayvec::ArrayVec;
use lk_base::OutOfMemory;

/// The events of one word: at most one of each kind, in the order of the kinds.
#[derive(Drop)]
pub struct WordEvents {
    /// The position of the word's first bit.
    pub bit: u64,
    /// The kinds of its events, in order.
    pub kinds: ArrayVec<EventKind, 12>,
}

impl WordEvents {
    /// Creates a word at the bit position `bit` without events.
    pub fn new(bit: u64) -> WordEvents
        ensures { events_in result ≡ [] }
    {
        WordEvents {
            bit,
            kinds: ArrayVec::new(),
        }
    }

    /// True if the word has no event.
    #[tactic(auto, using(crate::proofs::Appending::none_of, crate::proofs::Appending::some_of))]
    pub fn is_empty(&self) -> bool
        ensures none { result ≡ true → events_in self.now ≡ [] }
        ensures some { result ≡ false → events_in self.now ≡ [] → ⊥ }
    {
        self.kinds.is_empty()
    }

    /// Appends the events of the word, in order: at most twelve.
    ///
    /// # Errors
    ///
    /// `OutOfMemory` if memory ran out for the events. Then some of them may be appended, and `found` is of no more use.
    pub fn append_to(&self, found: &mut Vec<LaneEvent>) -> Result<(), OutOfMemory>
        ensures appended { OnOk result (found.new.items ≡ found.old.items ++ events_in self.now) }
        ensures few { OnOk result (length found.new.items ≤ length found.old.items + 12) }
    {
        append_kinds(self.bit, self.kinds.as_slice(), found)
    }
}

// Appends an event of each of these kinds, at the bit position `bit`.
fn append_kinds(
    bit: u64,
    kinds: &[EventKind],
    found: &mut Vec<LaneEvent>,
) -> Result<(), OutOfMemory>
    ensures { OnOk result (found.new.items ≡ found.old.items ++ map (event_of bit) kinds.now) }
{
    for kind in kinds {
        found.push(LaneEvent { bit, kind: *kind })?;
    }
    Ok(())
}
