//! Laws on what `duplex` makes.
ghost use Rattle.duplex_commands.specs.HeldBack.{EndsHoldBack};
ghost use Rattle.duplex_commands.specs.PremisesMet.{TwoEndsMeet};
ghost use Rattle.duplex_commands.specs.Laws.{DuplexIsWork, CapturesAreSent, PeaksAreBounded};

/// What is read for `duplex` comes to one outcome; where the files hold bytes it comes to one; and no stream is held.
pub fn duplex_is_work()
    ensures { DuplexIsWork }
{}

/// The captures of each end have exactly the packets of the other end whose end word arrived, in order.
pub fn captures_are_sent()
    ensures { CapturesAreSent }
{}

/// The peaks of a channel that has a calendar entry, which the lines report, stay within the bound of the plan's link.
pub fn peaks_are_bounded()
    ensures { PeaksAreBounded }
{}

/// What is made, whatever the files hold: the captures have exactly the packets that arrived, and the queues of channels with a
/// calendar entry were never above the bound.
pub fn ends_hold_back()
    ensures { EndsHoldBack }
{}

/// The premises of these laws are met by settings with a plan of one lane and a packet of eight bytes at end a: they are read so,
/// and come to an outcome.
pub fn premises_are_met()
    ensures { TwoEndsMeet }
{}
