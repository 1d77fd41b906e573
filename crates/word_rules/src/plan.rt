use crate::limits::WordLimits;
use stream_model::FlowRow;

/// What a sender's words are checked by.
#[derive(Clone, Copy, Debug)]
pub struct WordPlan<'a> {
    /// The numbers of the plan.
    pub limits: WordLimits,
    /// The listed channels.
    pub channels: &'a [u16],
    /// The entries of the calendar.
    pub entries: &'a [u16],
    /// The rows of flow control, in order of slot.
    pub flow: &'a [FlowRow],
}
