ghost use Rattle.lane_events.specs.Examples.{WorkedEvents};

/// The events of words before and after a declaration, right, wrong and Bad, and of lost locks.
pub fn worked_events()
    ensures { WorkedEvents }
{}
