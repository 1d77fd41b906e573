ghost use Rattle.lane_model.specs.KeyLaw.{KeyIsItsSequence};
ghost use Rattle.lane_model.specs.CodingLaw.{CodesAreDetermined, CodesMeanTheirWords, DisparityRuns};
ghost use Rattle.lane_model.specs.FileLaw.{FilesAreDetermined};
ghost use Rattle.lane_model.specs.StripingLaw.{WordsAreStriped};

/// The key is one sequence of bits, in which each bit is the exclusive or of those 39 and 58 steps back; the states and
/// the bits that a word takes are cut from it, and it goes on from any state.
pub fn key_is_its_sequence()
    ensures { KeyIsItsSequence }
{}

/// The codes of a lane are determined by its words: each is the code of its word at the disparity of the codes before.
pub fn codes_are_determined()
    ensures { CodesAreDetermined }
{}

/// Any code of a word, plain or inverted, has 67 bits and means that word.
pub fn codes_mean_their_words()
    ensures { CodesMeanTheirWords }
{}

/// The running disparity is that of the codes before, and stays from -65 to 64.
pub fn disparity_runs()
    ensures { DisparityRuns }
{}

/// The bits of a lane are the bits of one file, and of one alone.
pub fn files_are_determined()
    ensures { FilesAreDetermined }
{}

/// Payload number n of lane i is word n times the lanes plus i of the stream, and is there exactly where that word is.
pub fn words_are_striped()
    ensures { WordsAreStriped }
{}
