use crate::event::Event;

/// A row of an events file: an event, and how often it comes.
#[derive(Clone, Copy, Debug, PartialEq, Eq)]
pub struct EventRow {
    /// What happens.
    pub event: Event,
    /// How often it happens: 1..=4194304.
    pub count: u32,
}
