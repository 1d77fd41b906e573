//! Laws on what `inspect` makes.
ghost use Rattle.inspect_commands.specs.InspectLaws.{InspectIsWork, LanesDetermineInspected, WorkedTables};

/// What is read for `inspect` comes to one outcome; where the files hold bytes it comes to one; and no stream is held. The plan and
/// the bytes of its lanes determine it.
pub fn inspect_is_work()
    ensures work { InspectIsWork }
    ensures determined { LanesDetermineInspected }
{}

/// Worked examples: the table of a lane that shows nothing, and the table and the text of three lanes.
pub fn worked_tables()
    ensures { WorkedTables }
{}
