//! What the far end tells of its channels by its control words.
ghost use Rattle.std.specs.Prelude.{◌++◌, ◌∷◌, [], ℕ, List, IfOk};
ghost use Rattle.stream_model.specs.declared.rows.FlowRow.{FlowRow};
ghost use Rattle.calendar.specs.Incoming.{StandsFor};
ghost use Rattle.live_receiver.specs.FarEnd.{HasHeard, Hears, IsOnNow, at_once, heard_now};

use arrayvec::ArrayVec;
use calendar::{CalendarIn, verified_word};
use control_words::Control;
use lk_base::OutOfMemory;
use rx_end::RxEvent;
use std::alloc::Global;
use std::marker::Model;

/// The states of the far end's channels, by the control words that a receiver gave.
#[derive(Drop)]
pub struct FarEnd {
    calendar: CalendarIn,
}

impl Model for FarEnd {
    ghost use Rattle.std.specs.Prelude.{ℕ, List};
    ghost use Rattle.stream_model.specs.declared.rows.FlowRow.{FlowRow};
    ghost use Rattle.calendar.specs.Incoming.{Stands};
    ghost use Rattle.calendar.specs.declared.incoming.CalendarIn.{CalendarIn};

    ghost Value = { CalendarIn };

    ghost view = { λ f. f.calendar };

    ghost invariant = { λ f. (entries : List ℕ) × (rows : List FlowRow) × Stands f.calendar entries rows };
}

impl FarEnd {
    /// Creates a far end with all channels on; no word counts until one with Reset Calendar.
    pub fn new(alloc: Global, entries: &[u16]) -> Result<FarEnd, OutOfMemory>
        ensures { IfOk result (λ far. HasHeard far entries.now []) }
    {
        let calendar = CalendarIn::new(alloc, entries)?;
        Ok(FarEnd { calendar })
    }

    // Takes the next word, `None` for one that is not valid.
    fn take(&mut self, word: Option<Control>)
        requires { (w : ℕ) × StandsFor word w }
        ensures { (entries : List ℕ) (rows : List FlowRow) (w : ℕ) → HasHeard self.old entries rows → StandsFor word w → HasHeard self.new entries (rows ++ at_once w ∷ []) }
    {
        let mut changed = ArrayVec::new();
        self.calendar.take(word, &mut changed);
    }

    // Takes what an event says of flow control.
    fn hear_event(&mut self, event: RxEvent)
        ensures { (entries : List ℕ) (rows : List FlowRow) → HasHeard self.old entries rows → HasHeard self.new entries (rows ++ heard_now event) }
    {
        match event {
            RxEvent::Flow { word, .. } => self.take(verified_word(word)),
            // words may be missing, so the next ones cannot be numbered
            RxEvent::Span(_) => self.take(None),
            RxEvent::Packet { .. } | RxEvent::Dropped { .. } | RxEvent::Ended => {}
        }
    }

    /// Takes what an answer of the receiver says of flow control.
    pub fn hear(&mut self, event: Option<RxEvent>)
        ensures { Hears self.old self.new event }
    {
        if let Some(event) = event {
            self.hear_event(event);
        }
    }

    /// True if a channel is on by what was taken.
    pub fn is_on(&self, channel: u16) -> bool
        ensures { IsOnNow self.now channel result }
    {
        self.calendar.is_on(channel)
    }
}
