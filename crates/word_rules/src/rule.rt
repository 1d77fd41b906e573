//! The rules of a sender's words, by name.
ghost use Rattle.std.specs.Prelude.{◌≡◌, ◌<◌};
ghost use Rattle.word_rules.specs.Names.{name_of, rule_place};

use std::fmt;

/// A rule that a sender's words keep, in the order in which faults of one word are told.
#[derive(Clone, Copy, Debug, PartialEq, Eq)]
pub enum WordRule {
    /// A word that is neither Data nor Control.
    Bad,
    /// A Control word that no receiver accepts.
    Control,
    /// A CRC24 that is not that of the Data words before the word and of itself.
    Crc,
    /// Data after a Control word that begins no burst, or before any word.
    Data,
    /// A burst of more than BurstMax.
    Max,
    /// A burst word with no Data after it.
    Empty,
    /// A burst word fewer than BurstShort after the burst word before it.
    Short,
    /// An end format after no Data of a burst.
    End,
    /// A last Data word whose bytes past the end are not all 0.
    Fill,
    /// A burst that does not end a packet and is no multiple of 32 bytes.
    Part,
    /// A burst of fewer bytes than BurstMin that is not the whole of a packet.
    Min,
    /// SOP on a channel whose packet has not ended.
    Sop,
    /// No SOP on a channel whose packet has ended, or that has none yet.
    Open,
    /// A burst on a channel that is not listed.
    Channel,
    /// A packet of more bytes than `max_packet`.
    Long,
    /// An idle with bits that no idle has.
    Idle,
    /// A burst word with multiple use where channel numbers are narrow.
    Multi,
    /// Reset Calendar that is not as is due, or a flow bit past the last entry that is 0.
    Calendar,
    /// A burst on a channel that flow control has turned off.
    Off,
}

impl WordRule {
    /// All rules, in the order in which the faults of one word are told.
    pub const ALL: [WordRule; 19] = [
        WordRule::Bad,
        WordRule::Control,
        WordRule::Crc,
        WordRule::Data,
        WordRule::Max,
        WordRule::Empty,
        WordRule::Short,
        WordRule::End,
        WordRule::Fill,
        WordRule::Part,
        WordRule::Min,
        WordRule::Sop,
        WordRule::Open,
        WordRule::Channel,
        WordRule::Long,
        WordRule::Idle,
        WordRule::Multi,
        WordRule::Calendar,
        WordRule::Off,
    ];

    /// Returns the rule's place in `ALL`, from 0.
    #[inline]
    pub fn place(self) -> usize
        ensures place { result ≡ rule_place self }
        ensures bound { result < 19 }
    {
        self as usize
    }

    /// The rule's name, as it stands in the table of faults.
    pub fn name(self) -> &'static str
        ensures { result.now ≡ name_of self }
    {
        match self {
            WordRule::Bad => "bad",
            WordRule::Control => "control",
            WordRule::Crc => "crc",
            WordRule::Data => "data",
            WordRule::Max => "max",
            WordRule::Empty => "empty",
            WordRule::Short => "short",
            WordRule::End => "end",
            WordRule::Fill => "fill",
            WordRule::Part => "part",
            WordRule::Min => "min",
            WordRule::Sop => "sop",
            WordRule::Open => "open",
            WordRule::Channel => "channel",
            WordRule::Long => "long",
            WordRule::Idle => "idle",
            WordRule::Multi => "multi",
            WordRule::Calendar => "calendar",
            WordRule::Off => "off",
        }
    }
}

impl fmt::Display for WordRule {
    ghost use Rattle.std.specs.Prelude.{Some};
    ghost use Rattle.word_rules.specs.Names.{name_of};

    ghost output = { λ rule. Some (name_of rule) };

    fn fmt<W: fmt::Write>(&self, f: &mut fmt::Formatter<W>) -> fmt::Result {
        write!(f, "{}", self.name())
    }
}
