/// What became of the packets of a channel.
#[derive(Clone, Copy, Debug, PartialEq, Eq)]
pub struct SentCount {
    /// The channel's number.
    pub channel: u16,
    /// How many of its packets are sent: those whose end word is in the stream.
    pub packets: u64,
    /// The bytes of its sent packets together.
    pub bytes: u64,
    /// How many of its packets are not sent.
    pub left: u64,
}

/// Locks, groups and passing stretches of a receiver that are not the sender's.
#[derive(Clone, Copy, Debug, PartialEq, Eq)]
pub struct Accidents {
    /// Declared locks whose declaring Sync is none of the sender's.
    pub locks: u64,
    /// Groups whose Syncs are not all of one number of the sender's.
    pub groups: u64,
    /// Passing stretches whose words are not, at their places, those after a sent control word up to and including the next.
    pub stretches: u64,
}

/// A sent packet that was not delivered.
#[derive(Clone, Copy, Debug, PartialEq, Eq)]
pub struct Missing {
    /// Its channel.
    pub channel: u16,
    /// Its number among the channel's packets, from 0.
    pub number: u32,
    /// The slot of its SOP word.
    pub first: u64,
    /// The slot of its end word.
    pub last: u64,
    /// The number, from 0, of the first fault span that it meets, or the number of spans if it meets none.
    pub span: u64,
}
