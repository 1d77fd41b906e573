//! Laws on what `resend` makes.
ghost use Rattle.resend_commands.specs.Accepted.{ResendIsWork, ResentInOrder};
ghost use Rattle.resend_commands.specs.PremisesMet.{ResentMeets};

/// What is read for `resend` comes to one outcome; where the files hold bytes it comes to one; and no stream is held.
pub fn resend_is_work()
    ensures { ResendIsWork }
{}

/// Whatever the events lose, repeat and delay, the words file holds the words of the first pieces of the plan's stream, each
/// accepted once, in order; what is acknowledged was accepted, and what was accepted was sent.
pub fn resent_in_order()
    ensures { ResentInOrder }
{}

/// The premises of these laws are met by a plan with a packet of eight bytes, whose events send three pieces, deliver one,
/// lose one and deliver one out of turn: it is read so, and comes to an outcome.
pub fn premises_are_met()
    ensures { ResentMeets }
{}
