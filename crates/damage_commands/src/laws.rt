//! Laws on what `damage` makes.
ghost use Rattle.damage_commands.specs.DamageLaws.{ArrivesAsSent, DamageAfterSend, DamageIsWork, NoneStruck, WorkedLanes};

/// What `damage` reads comes to one outcome, and where files hold bytes there is one.
pub fn damage_is_work()
    ensures { DamageIsWork }
{}

/// No bit of a lane is told as struck exactly where the lane arrives as it was sent but for its skew.
pub fn struck_is_damage()
    ensures bits { NoneStruck }
    ensures files { ArrivesAsSent }
{}

/// `damage` after `send` of one plan gives the lanes that `link` writes, but for zeros at their ends, where no row names a padding
/// bit.
pub fn damage_after_send()
    ensures { DamageAfterSend }
{}

/// Worked examples: what is struck, which rows name no bit, and the lines.
pub fn worked_examples()
    ensures { WorkedLanes }
{}
