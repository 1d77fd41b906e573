ghost use Rattle.run_stops.specs.Examples.{WorkedLines};

/// Worked examples: the line of each cause.
pub fn worked_lines()
    ensures { WorkedLines }
{}
