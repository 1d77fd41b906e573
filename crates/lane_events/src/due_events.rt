//! The events of one word, given one after another.
ghost use Rattle.std.specs.Prelude.{◌≡◌, ◌==◌, [], length, IfNone};
ghost use Rattle.std.specs.List.{cons_option};
ghost use Rattle.lane_events.specs.Inspection.{shown_in};

use crate::types::LaneEvent;
use crate::word_events::WordEvents;
use std::marker::Model;

/// The events of one word that are due: each is returned once, in the order of the kinds.
#[derive(Drop)]
pub struct DueEvents {
    word: WordEvents,
    /// How many of its events were given.
    given: usize,
}

impl Model for DueEvents {
    ghost use Rattle.std.specs.Prelude.{◌≤◌, List, length};
    ghost use Rattle.lane_events.specs.declared.types.LaneEvent.{LaneEvent as Event};
    ghost use Rattle.lane_events.specs.Inspection.{due_from};

    ghost Value = { List Event };

    ghost view = { λ a. due_from a.word a.given };

    ghost invariant = { λ a. a.given ≤ length a.word.kinds.items };
}

impl DueEvents {
    /// Creates the events of the word that showed some, if one did.
    pub fn of(shown: Option<WordEvents>) -> DueEvents
        ensures { result ≡ shown_in shown }
    {
        match shown {
            Some(word) => DueEvents { word, given: 0 },
            None => DueEvents {
                word: WordEvents::new(0),
                given: 0,
            },
        }
    }

    /// True if none is due.
    #[inline]
    #[tactic(auto, using(crate::proofs::Dues::all_given))]
    pub fn is_empty(&self) -> bool
        ensures { result ≡ (length self.now == 0) }
    {
        self.given == self.word.kinds.len()
    }

    /// Returns the next event, if one is due: it is due no longer.
    #[tactic(auto, using(crate::proofs::Dues::none_due))]
    pub fn next(&mut self) -> Option<LaneEvent>
        ensures given { self.old ≡ cons_option result self.new }
        ensures none { IfNone result (self.old ≡ []) }
    {
        if self.given == self.word.kinds.len() {
            return None;
        }
        let bit = self.word.bit;
        let kind = self.word.kinds.as_slice()[self.given];
        self.given += 1;
        Some(LaneEvent { bit, kind })
    }
}
