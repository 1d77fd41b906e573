//! Laws on what `check` makes.
ghost use Rattle.check_commands.specs.AfterBurst.{CheckAfterBurst};
ghost use Rattle.check_commands.specs.CheckLaws.{CheckIsWork, WorkedTables, WorkedTexts};

/// What is read for `check` has at most one outcome; if the files hold bytes it has one; and no stream is held.
pub fn check_is_work()
    ensures { CheckIsWork }
{}

/// `check` after `burst` of one plan, whose inputs were accepted, tells no fault: the words file that `burst` wrote, within the limit
/// of words files, breaks none of the rules of a sender by that plan.
pub fn check_after_burst()
    ensures { CheckAfterBurst }
{}

/// Worked examples: the table and the text of no fault, and of three faults of three rules.
pub fn worked_examples()
    ensures tables { WorkedTables }
    ensures texts { WorkedTexts }
{}
