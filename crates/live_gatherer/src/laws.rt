//! The laws on what is given.
ghost use Rattle.live_gatherer.specs.Laws.{AllAreGathered, EndGaveAll, GivenComeFirst, NoneWaitsForBytes, NumberedAreGathered};

/// Of any items the words that are given, with one Bad word for each break between two epochs, are the gathered words; and the breaks are the
/// rows of their places that have a cause.
pub fn numbered_are_gathered()
    ensures { NumberedAreGathered }
{}

/// Of whole lanes the words that are given, with one Bad word for each break between two epochs, are the gathered words, and no others.
pub fn all_are_gathered()
    ensures { AllAreGathered }
{}

/// What was given is the first of what all lanes give whose bytes begin with what was fed, and are equal to it on finished lanes, in
/// whatever pieces and order of lanes it was fed.
pub fn given_come_first()
    ensures { GivenComeFirst }
{}

/// Once the end was given all lanes are finished, and what was given is all that these lanes give: the words and breaks that `gather`
/// writes of them.
pub fn end_gave_all()
    ensures { EndGaveAll }
{}

/// While a lane is not finished, `next` gives none exactly if all that is known of what was fed was given; a lane that is not finished
/// then has no byte left.
pub fn none_waits_for_bytes()
    ensures { NoneWaitsForBytes }
{}
