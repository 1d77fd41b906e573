//! The rows of a Control word.
ghost use Rattle.std.specs.Prelude.{◌≡◌, ◌≤◌, ◌<◌, ◌+◌, ◌^◌, ◌++◌, ℕ, List, IsOk, OnOk, length, vec_capacity, vec_len};
ghost use Rattle.stream_model.specs.declared.rows.FlowRow.{FlowRow};
ghost use Rattle.word_rules.specs.Rules.{breaks_idle, breaks_multi};
ghost use Rattle.word_rules.specs.ControlRows.{control_rows_by, field_rows_by, off_by};
ghost use Rattle.word_rules.specs.Flows.{InOrder, IsFlow};

use crate::before::{Before, is_burst_word};
use crate::channel::ChannelState;
use crate::channels::{OwnChannel, channel_at, packet_rows};
use crate::fault::Fault;
use crate::flow::Flow;
use crate::limits::WordLimits;
use crate::rows::tell;
use crate::rule::WordRule;
use control_words::ControlWord;
use lk_base::{OutOfMemory, RxWord};

// Whether a Control word breaks `idle`.
fn breaks_idle(word: ControlWord) -> bool
    ensures { result ≡ breaks_idle word.0 }
{
    word.is_accepted()
        && !word.is_burst()
        && (word.starts_packet() || word.channel(false) != 0 || word.multi() != 0)
}

// Whether a Control word breaks `multi`.
fn breaks_multi(limits: WordLimits, word: ControlWord) -> bool
    ensures { result ≡ breaks_multi limits word.0 }
{
    !limits.wide && is_burst_word(word) && word.multi() != 0
}

/// Whether the Control word of this number breaks `off`.
pub fn breaks_off(
    flow: &mut Flow,
    kept: &[ChannelState],
    limits: WordLimits,
    number: u64,
    word: ControlWord,
) -> bool
    requires all { length kept.now ≡ 65536 }
    requires flow { (entries : List ℕ) × (rows : List FlowRow) × IsFlow flow.old entries rows number }
    ensures flow { (entries : List ℕ) (rows : List FlowRow) → IsFlow flow.old entries rows number → IsFlow flow.new entries rows number }
    ensures off { (entries : List ℕ) (rows : List FlowRow) → IsFlow flow.old entries rows number → InOrder rows → result ≡ off_by limits kept.now entries rows number word.0 }
{
    let channel = word.channel(limits.wide);
    let listed = channel_at(kept, channel).listed;
    is_burst_word(word) && listed && flow.is_off(channel, number)
}

/// Adds the rows of a Control word up to `long`, by what is kept of its channel, once it has closed the burst before it.
pub fn control_rows(
    before: Before,
    limits: WordLimits,
    own: OwnChannel,
    word: ControlWord,
    next: Option<RxWord>,
    faults: &mut Vec<Fault>,
) -> Result<(), OutOfMemory>
    requires { before.size < 2 ^ 60 }
    ensures rows { OnOk result (faults.new.items ≡ faults.old.items ++ control_rows_by limits before own word.0 next) }
    ensures room { vec_len faults.old + 12 ≤ vec_capacity faults.old → IsOk result }
    ensures kept { vec_capacity faults.old ≤ vec_capacity faults.new }
    ensures few { vec_len faults.new ≤ vec_len faults.old + 12 }
{
    before.word_rows(limits, word, next, faults)?;
    before.burst_rows(limits, word, faults)?;
    packet_rows(before, limits, own, word, faults)
}

/// Adds the rows of the Control word of this number after `long`, by whether it breaks `calendar` and `off`.
pub fn field_rows(
    number: u64,
    limits: WordLimits,
    calendar: bool,
    off: bool,
    word: ControlWord,
    faults: &mut Vec<Fault>,
) -> Result<(), OutOfMemory>
    ensures rows { OnOk result (faults.new.items ≡ faults.old.items ++ field_rows_by limits number calendar off word.0) }
    ensures room { vec_len faults.old + 4 ≤ vec_capacity faults.old → IsOk result }
    ensures kept { vec_capacity faults.old ≤ vec_capacity faults.new }
    ensures few { vec_len faults.new ≤ vec_len faults.old + 4 }
{
    let own = Some(word.channel(limits.wide));
    let (idle, multi) = (breaks_idle(word), breaks_multi(limits, word));
    tell(faults, number, WordRule::Idle, None, idle)?;
    tell(faults, number, WordRule::Multi, own, multi)?;
    tell(faults, number, WordRule::Calendar, None, calendar)?;
    tell(faults, number, WordRule::Off, own, off)
}
