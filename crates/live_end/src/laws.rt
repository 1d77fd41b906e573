//! The laws on what a live transmitter sends.
ghost use Rattle.live_end.specs.Laws.{AllTakenAreTheFile, PacketsAreOfTheLink, TakenAreFirst, WordsAreLive};

/// The words that are made are the live stream of what was given: each is right by what was given before it.
pub fn words_are_live()
    ensures { WordsAreLive }
{
    // proof: it is that of the scheduler
    live_stream::laws::words_are_live();
}

/// What was taken of a lane, in whatever pieces, is the first of the file of that lane of the stream.
pub fn taken_are_first()
    ensures { TakenAreFirst }
{
    // proof: it is that of the lanes
    live_lanes::laws::taken_are_first();
}

/// Once the lanes have ended the stream is whole, and what was taken of a lane is its file if nothing waits.
pub fn all_taken_are_the_file()
    ensures { AllTakenAreTheFile }
{
    // proof: it is that of the lanes
    live_lanes::laws::all_taken_are_the_file();
}

/// Each packet that was given is one of a listed channel, and has 1 to `max_packet` bytes by the settings of the link.
pub fn packets_are_of_the_link()
    ensures { PacketsAreOfTheLink }
{}
