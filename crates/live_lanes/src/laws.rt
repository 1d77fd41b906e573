//! The laws on the bytes that are taken of lanes.
ghost use Rattle.live_lanes.specs.Laws.{AllTakenAreTheFile, AllWantTheSame, AreInStep, AreWholeBytes, TakenAreFirst};

/// The bytes that were taken of a lane, in whatever pieces, are the first of the file of that lane, whatever payload words follow.
/// Eight words are 67 bytes.
pub fn taken_are_first()
    ensures { TakenAreFirst }
{}

/// Once the lanes have ended, what was taken of a lane is its file if nothing waits.
pub fn all_taken_are_the_file()
    ensures { AllTakenAreTheFile }
{}

/// On each lane as many bytes were taken or wait as on each other.
pub fn are_in_step()
    ensures { AreInStep }
{}

/// Until the lanes have ended, the bytes of a lane that were taken or wait are as many as the words that each lane made complete.
pub fn are_whole_bytes()
    ensures { AreWholeBytes }
{}

/// The next words of all lanes are payload words, or all are framing words.
pub fn all_want_the_same()
    ensures { AllWantTheSame }
{}
