//! Laws on what `gather` makes.
ghost use Rattle.gather_commands.specs.GatherLaws.{GatherIsWork, LanesDetermineGathered};
ghost use Rattle.gather_commands.specs.JoinLaw.{JoinDeliversAsReceive};
ghost use Rattle.gather_commands.specs.TableLaws.{WorkedTables};

/// What is read for `gather` comes to one outcome; where the files hold bytes it comes to one; and no stream is held. The plan and
/// the bytes of its lanes determine it.
pub fn gather_is_work()
    ensures work { GatherIsWork }
    ensures determined { LanesDetermineGathered }
{}

/// `join` of a plan, where the words file is the one that `gather` of the plan made, delivers on each listed channel the packets that
/// `receive` of the same lanes delivers, in order: their captures are the same.
///
/// The premises: the plan and its lanes are accepted, the plan is still the same when `join` runs, and the words file is within the
/// limit of words files.
pub fn join_delivers_as_receive()
    ensures { JoinDeliversAsReceive }
{}

/// Worked examples: the table and the text of no item, and of two epochs.
pub fn worked_examples()
    ensures { WorkedTables }
{}
