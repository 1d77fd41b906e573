//! What a transmitter was given and what it sent of it, as C sees it.
ghost use Rattle.std.specs.Prelude.{◌≡◌};
ghost use Rattle.c_transmitter.specs.Held.{as_counts, no_counts};

use live_end::Counts;

/// What was given to a channel and what was sent of it. A burst is sent once its burst word was made.
#[repr(C)]
#[derive(Clone, Copy)]
pub struct CCounts {
    /// The packets that were given.
    pub packets_given: u64,
    /// The packets whose last burst was sent.
    pub packets_sent: u64,
    /// The bytes of the packets that were given.
    pub bytes_given: u64,
    /// The bytes of the bursts that were sent.
    pub bytes_sent: u64,
}

/// Nothing was given, and nothing sent.
pub fn no_counts() -> CCounts
    ensures { result ≡ no_counts }
{
    CCounts {
        packets_given: 0,
        packets_sent: 0,
        bytes_given: 0,
        bytes_sent: 0,
    }
}

/// The counts of a channel, as C sees them.
pub fn as_counts(counts: Counts) -> CCounts
    ensures { result ≡ as_counts counts }
{
    CCounts {
        packets_given: counts.packets_given,
        packets_sent: counts.packets_sent,
        bytes_given: counts.bytes_given,
        bytes_sent: counts.bytes_sent,
    }
}
