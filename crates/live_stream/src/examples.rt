ghost use Rattle.live_stream.specs.Examples.{LiveExamples};

/// From which slot on a packet counts, the order of channels where one that was idle gets a packet, the premises of the laws, met by two
/// worked streams, which packets and states are refused, and how many packets are left.
pub fn worked_examples()
    ensures { LiveExamples }
{}
