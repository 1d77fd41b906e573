//! What is kept of the channels, by number.
ghost use Rattle.std.specs.Prelude.{◌≡◌, ◌≤◌, ◌<◌, ◌+◌, ◌^◌, ◌++◌, length, slice_index_or, IsOk, OnOk, vec_capacity, vec_len};
ghost use Rattle.word_rules.specs.Channels.{kept_after, long_at, none_kept, open_by, packet_rows_by, seen_by, sop_by};

use crate::before::{Before, is_burst_word};
use crate::burst::Burst;
use crate::channel::ChannelState;
use crate::fault::Fault;
use crate::limits::WordLimits;
use crate::rows::tell;
use crate::rule::WordRule;
use control_words::ControlWord;
use lk_base::OutOfMemory;

/// What is kept of the channel of a Control word, once this has closed the burst before it.
#[derive(Clone, Copy, Debug, PartialEq, Eq)]
pub struct OwnChannel {
    /// Whether its packet goes on after its last known burst, if it has one.
    pub going: Option<bool>,
    /// Whether it is listed.
    pub listed: bool,
    /// Whether the burst that was closed breaks `long`.
    pub long: bool,
}

/// What is kept of a channel.
pub fn channel_at(kept: &[ChannelState], channel: u16) -> ChannelState
    requires { length kept.now ≡ 65536 }
    ensures { result ≡ slice_index_or kept.now channel none_kept }
{
    kept[channel as usize]
}

// Whether a Control word breaks `sop`, by whether the packet of its channel goes on.
fn breaks_sop(going: Option<bool>, word: ControlWord) -> bool
    ensures { result ≡ sop_by going word.0 }
{
    is_burst_word(word) && word.starts_packet() && going.unwrap_or(false)
}

// Whether a Control word breaks `open`, by whether the packet of its channel goes on, and whether a Bad word stands before.
fn breaks_open(going: Option<bool>, any_bad: bool, word: ControlWord) -> bool
    ensures { result ≡ open_by going any_bad word.0 }
{
    is_burst_word(word)
        && !word.starts_packet()
        && !going.unwrap_or(false)
        && (going.is_some() || !any_bad)
}

// Closes the burst right before a Control word, if there is one, after `bads` Bad words. It returns whether `long` is broken.
fn close(
    kept: &mut Vec<ChannelState>,
    before: Before,
    limits: WordLimits,
    bads: u64,
    word: ControlWord,
) -> bool
    requires all { length kept.old.items ≡ 65536 }
    requires size { before.size < 2 ^ 60 }
    ensures kept { kept.new.items ≡ kept_after limits bads kept.old.items before word.0 }
    ensures long { result ≡ long_at limits bads kept.old.items before word.0 }
{
    match before.burst {
        Some(first) => {
            let at = ControlWord(first).channel(limits.wide) as usize;
            let burst = Burst {
                word: first,
                size: before.size,
                closer: word.0,
            };
            let channel = kept[at];
            kept[at] = channel.after_burst(bads, limits.max_packet, burst);
            channel.breaks_long(bads, limits.max_packet, burst)
        }
        None => false,
    }
}

/// Adds the rows of a Control word by its channel, after it has closed the burst before it, and by whether that is `long`.
pub fn packet_rows(
    before: Before,
    limits: WordLimits,
    own: OwnChannel,
    word: ControlWord,
    faults: &mut Vec<Fault>,
) -> Result<(), OutOfMemory>
    ensures rows { OnOk result (faults.new.items ≡ faults.old.items ++ packet_rows_by limits before own word.0) }
    ensures room { vec_len faults.old + 4 ≤ vec_capacity faults.old → IsOk result }
    ensures kept { vec_capacity faults.old ≤ vec_capacity faults.new }
    ensures few { vec_len faults.new ≤ vec_len faults.old + 4 }
{
    let number = before.number;
    let channel = Some(word.channel(limits.wide));
    let closed = before.channel(limits.wide);
    let sop = breaks_sop(own.going, word);
    let open = breaks_open(own.going, before.any_bad, word);
    let unlisted = is_burst_word(word) && !own.listed;
    tell(faults, number, WordRule::Sop, channel, sop)?;
    tell(faults, number, WordRule::Open, channel, open)?;
    tell(faults, number, WordRule::Channel, channel, unlisted)?;
    tell(faults, number, WordRule::Long, closed, own.long)
}

/// Closes the burst right before a Control word, and returns what is kept of the word's channel then.
pub fn close_before(
    kept: &mut Vec<ChannelState>,
    before: Before,
    limits: WordLimits,
    bads: u64,
    word: ControlWord,
) -> OwnChannel
    requires all { length kept.old.items ≡ 65536 }
    requires size { before.size < 2 ^ 60 }
    ensures kept { kept.new.items ≡ kept_after limits bads kept.old.items before word.0 }
    ensures seen { result ≡ seen_by limits bads kept.old.items before word.0 }
{
    let long = close(kept, before, limits, bads, word);
    let own = channel_at(kept, word.channel(limits.wide));
    OwnChannel {
        going: own.going(bads),
        listed: own.listed,
        long,
    }
}
