/// The kinds of words that a words file may hold, each with its tag.
#[derive(Clone, Copy)]
pub enum Tags {
    /// Sent words: 1 for data, 2 for control.
    Sent,
    /// Received words: also 3, for a bad word.
    Received,
}
