ghost use Rattle.live_checker.specs.Examples.{LiveExamples};

/// Worked examples: when the row of `empty` comes, and a channel that is turned off between two words.
pub fn live_examples()
    ensures { LiveExamples }
{}
