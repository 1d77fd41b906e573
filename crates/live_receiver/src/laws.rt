//! The laws on calls.
ghost use Rattle.live_receiver.specs.CallsLaw.{CallsGiveFirst, ChannelsAreHeard, ReadsNoPacket, ReadsThePacket};
ghost use Rattle.live_receiver.specs.StateLaw.{StatesAreReported};

/// After any calls on a receiver, in any order and with any misuse among them, the events that it gave are the first of those of
/// all lanes whose bytes begin with what was fed, and are equal to it on finished lanes.
pub fn calls_give_first()
    ensures { CallsGiveFirst }
{}

/// After `next` gave a packet, and any other calls, `read` is done, and copies bytes of that packet.
pub fn reads_the_packet()
    ensures { ReadsThePacket }
{}

/// Before the first `next`, and after any other calls, `read` finds no packet.
pub fn reads_no_packet()
    ensures { ReadsNoPacket }
{}

/// After any calls on a receiver a channel of the far end is on by the events that were given: each verified control word counts as
/// the word of a flow row, and after a fault span no word counts up to the next with Reset Calendar.
/// The answer is none if and only if the channel is not listed.
pub fn channels_are_heard()
    ensures { ChannelsAreHeard }
{}

// why: That a lock is declared if and only if its report has more locks than lost ones is a law of the receiver for C
// (live_receiver::states_are_reported), and none of lock_model. It is on what a caller can see: the state and the report
// of one lane, after any calls. A law on attempts alone would add nothing to it.
/// The lock of a lane is declared if and only if its report has more locks than lost ones.
pub fn states_are_reported()
    ensures { StatesAreReported }
{}
