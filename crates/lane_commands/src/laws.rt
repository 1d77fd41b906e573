//! Laws on what `stripe` makes.
ghost use Rattle.lane_commands.specs.StripeLaws.{GroupStays, NoWordsNoBytes, StripeSendsBurst, TagsAreRead, ThreeFillAGroup, WordsStripeOnce};

/// `stripe` after `burst` of one plan creates the lane files that `send` of the plan creates, if the words file is within the
/// limit of words files.
pub fn stripe_sends_burst()
    ensures { StripeSendsBurst }
{}

/// Words have one stream of whole groups, and without a word each lane file is empty.
pub fn striped_streams()
    ensures once { WordsStripeOnce }
    ensures none { NoWordsNoBytes }
{}

/// Worked examples: what fills a group, and each refusal of a words file.
pub fn worked_examples()
    ensures three { ThreeFillAGroup }
    ensures whole { GroupStays }
    ensures tags { TagsAreRead }
{}
