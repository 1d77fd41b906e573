use crate::rule::WordRule;

/// A fault of a sender's words.
#[derive(Clone, Copy, Debug, PartialEq, Eq)]
pub struct Fault {
    /// The number of the word, from 0.
    pub word: u64,
    /// The rule that the word breaks.
    pub rule: WordRule,
    /// The channel of the burst word concerned, where the rule has one.
    pub channel: Option<u16>,
}
