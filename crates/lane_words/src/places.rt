//! Where the groups and breaks of lanes stand among their words.

use lk_base::{Pos, Why};

/// A row of the table: that of a group, or that of the break that ends an epoch.
#[derive(Clone, Copy, Debug, PartialEq, Eq)]
pub struct PlaceRow {
    /// How many words stand before it in the words file: the number of the first word of the group, or of the word for the break.
    pub word: u64,
    /// The place: that of the first word of the group, or that of the break.
    pub at: Pos,
    /// Why the epoch ended; `None` for a group.
    pub why: Option<Why>,
}
