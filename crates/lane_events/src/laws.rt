ghost use Rattle.lane_events.specs.EventLaw.{EarlierEventsStay, EventsAreCounted, EventsAreDetermined, EventsAreDue, EventsExist, EventsRise, SendersAreBalanced};

/// The bits of a lane have events, and determine them; more bits change none of those before.
pub fn events_are_determined()
    ensures exist { EventsExist }
    ensures same { EventsAreDetermined }
    ensures stay { EarlierEventsStay }
{}

/// An event is known with the last bit of its word: the events of the first bits of a lane are those of its words that end with or
/// before the last of these bits.
pub fn events_are_due()
    ensures { EventsAreDue }
{}

/// The events of a lane come in order of bit positions, and those of one word in the order of the kinds.
pub fn events_rise()
    ensures { EventsRise }
{}

/// There are as many events of a kind as the report of the lane counts.
pub fn events_are_counted()
    ensures { EventsAreCounted }
{}

/// The codes of a sender are never unbalanced, whatever its disparity was when a lock was declared.
pub fn senders_are_balanced()
    ensures { SendersAreBalanced }
{}
