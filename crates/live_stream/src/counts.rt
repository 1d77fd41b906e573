ghost use Rattle.std.specs.Prelude.{◌≡◌};
ghost use Rattle.live_stream.specs.Waiting.{left_of};

/// The most bytes that a channel is given.
pub const MOST_BYTES: u64 = 1_152_921_504_606_846_976;

/// What was given to a channel and what was sent of it. A burst is sent with its burst word: then all its bytes count, and its packet
/// where it is the last burst of one. The bytes that are left are those given less those sent.
#[derive(Clone, Copy, Debug, PartialEq, Eq)]
pub struct Counts {
    /// The packets that were given.
    pub packets_given: u64,
    /// Their bytes, `MOST_BYTES` at most.
    pub bytes_given: u64,
    /// The packets whose last burst was sent.
    pub packets_sent: u64,
    /// The bytes of the bursts that were sent.
    pub bytes_sent: u64,
}

impl Counts {
    /// The packets that were given and whose last burst was not sent.
    pub fn packets_left(&self) -> u64
        ensures { result ≡ left_of self.now }
    {
        self.packets_given.saturating_sub(self.packets_sent)
    }
}
