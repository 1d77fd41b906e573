ghost use Rattle.gathered_laws.specs.AfterSend.{CheckAfterGather, GatherAfterSend};
ghost use Rattle.gathered_laws.specs.AfterSendMet.{AfterSendMet};
ghost use Rattle.gathered_laws.specs.AfterStripe.{GatherAfterStripe};
ghost use Rattle.gathered_laws.specs.AfterStripeMet.{AfterStripeMet};
ghost use Rattle.gathered_laws.specs.JoinWhole.{JoinReceivesWhole};

/// What `gather` after `send` of one plan makes, whose inputs were accepted: the words file has the words of the stream from the fourth
/// group on, and no other.
///
/// The premises: the plan and its lanes are accepted by `gather`, and the lanes are those that `send` wrote.
pub fn gather_after_send()
    ensures { GatherAfterSend }
{
    // the words of clean lanes are those of the stream
    lane_words::laws::words_are_of_epochs();
}

/// What `gather` after `stripe` of one plan makes, whose words were accepted: the words file has the words of the stream from the fourth
/// group on, and no other; none, where the stream has three groups or fewer. The stream is the words filled up to whole groups, whatever
/// words they are.
///
/// The premises: the plan and its lanes are accepted by `gather`, and the lanes are those that `stripe` wrote.
pub fn gather_after_stripe()
    ensures { GatherAfterStripe }
{
    // the words of clean lanes are those of the stream
    lane_words::laws::words_are_of_epochs();
}

/// `check` after `send` and `gather` of one plan, whose inputs were accepted and have no row of flow control, tells no fault: the words
/// that `gather` wrote of the lanes that `send` wrote, within the limit of words files, break none of the rules of a sender by that
/// plan.
pub fn check_after_gather()
    ensures { CheckAfterGather }
{
    gather_after_send();
    // what was written is read, and the table of no fault is its heading
    lane_words::laws::words_grow();
    check_commands::laws::worked_examples();
}

/// The premises of both laws are met by a plan with its files, of two lanes and one packet: `send` makes 336 words of it, and of the 168
/// that `gather` gives of its lanes `check` tells no fault.
pub fn after_send_premises_are_met()
    ensures { AfterSendMet }
{
    link_commands::laws::premises_are_met();
    gather_after_send();
    check_after_gather();
    lane_words::laws::words_grow();
}

/// The premises of the law on `gather` after `stripe` are met by the same plan, with 170 data words, as the stream of no source begins:
/// of the four groups that `stripe` makes of them `gather` gives the fourth, the last two words and 54 fillers.
pub fn after_stripe_premises_are_met()
    ensures { AfterStripeMet }
{
    link_commands::laws::premises_are_met();
    lane_commands::laws::striped_streams();
    gather_after_stripe();
}

/// Words of which `check` of a plan tells no fault are received whole by `join` of that plan. The capture of each listed channel has
/// exactly the packets that begin with SOP at a Control word after the first and that the sender ended without an error, in order. The
/// span table has no span but the outer ones. A packet is counted as dropped only if the words end before it does, or if the sender said
/// that it is in error.
pub fn join_receives_whole()
    ensures { JoinReceivesWhole }
{
    // words without a fault are received whole
    rule_laws::laws::whole_law();
    rule_laws::laws::packets_law();
    // the table of no fault is its heading
    check_commands::laws::worked_examples();
}
