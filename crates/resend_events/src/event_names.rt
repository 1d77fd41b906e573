ghost use Rattle.std.specs.Prelude.{◌≡◌};
ghost use Rattle.resend_events.specs.Events.{event_of};

use crate::event::Event;
use csv_rows::{Named, value_named};

// The names of the events.
static EVENTS: &[Named<Event>] = &[
    Named {
        name: "send",
        value: Event::Send,
    },
    Named {
        name: "rewind",
        value: Event::Rewind,
    },
    Named {
        name: "take",
        value: Event::Take,
    },
    Named {
        name: "lose",
        value: Event::Lose,
    },
    Named {
        name: "repeat",
        value: Event::Repeat,
    },
    Named {
        name: "takeback",
        value: Event::TakeBack,
    },
    Named {
        name: "loseback",
        value: Event::LoseBack,
    },
    Named {
        name: "repeatback",
        value: Event::RepeatBack,
    },
];

/// Looks up the event of a name.
pub fn event_named(name: &[u8]) -> Option<Event>
    ensures { result ≡ event_of name.now }
{
    value_named(EVENTS, name)
}
