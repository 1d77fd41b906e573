//! The laws on calls.
ghost use Rattle.live_inspector.specs.Laws.{AllAreGiven, CallsStand, EventsAreInTime, FeedStopsSoon, GivenAreFirst};

/// After any calls, in any order and with any misuse among them, the events that were given of a lane, and then those that are due, are
/// the events of the bytes that were taken of it.
pub fn calls_stand()
    ensures { CallsStand }
{}

/// After any calls the events that were given of a lane are the first events of that lane, however it goes on.
pub fn given_are_first()
    ensures { GivenAreFirst }
{}

/// Once no event is given, the events that were given of a lane are all events of the bytes that were taken of it, in whatever pieces and
/// in whatever order of lanes these came: those that are told of the whole lane at once.
pub fn all_are_given()
    ensures { AllAreGiven }
{}

/// An event is due with the last bit of its word: after any calls the events that were given of a lane, and then those that are due, are
/// those of the words that end within the bytes that were taken. A `feed` takes at most six bytes past the
/// one in which the word of the first event that it makes due ends.
pub fn events_are_in_time()
    ensures due { EventsAreInTime }
    ensures soon { FeedStopsSoon }
{}
