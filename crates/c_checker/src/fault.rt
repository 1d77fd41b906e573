//! A fault as C sees it.
ghost use Rattle.std.specs.Prelude.{◌≡◌};
ghost use Rattle.c_checker.specs.Faults.{as_fault, no_fault};

use crate::codes::rule_code;
use c_parts::codes::RULE_NONE;
use word_rules::Fault;

/// A word that breaks a rule.
#[repr(C)]
#[derive(Clone, Copy)]
pub struct CFault {
    /// The number of a `WordRule`, from 1 on, or `RULE_NONE` if there is no fault.
    pub rule: u32,
    /// 1 if the rule is on a channel, otherwise 0.
    pub has_channel: u32,
    /// The channel; 0 if there is none.
    pub channel: u32,
    /// 0.
    pub reserved: u32,
    /// The number of the word, from 0.
    pub word: u64,
}

/// No fault.
pub fn no_fault() -> CFault
    ensures { result ≡ no_fault }
{
    CFault {
        rule: RULE_NONE,
        has_channel: 0,
        channel: 0,
        reserved: 0,
        word: 0,
    }
}

/// A fault as C sees it.
pub fn as_fault(fault: Fault) -> CFault
    ensures { result ≡ as_fault fault }
{
    let (has_channel, channel) = match fault.channel {
        Some(channel) => (1, channel as u32),
        None => (0, 0),
    };
    CFault {
        rule: rule_code(fault.rule),
        has_channel,
        channel,
        reserved: 0,
        word: fault.word,
    }
}
