/// A burst that a Control word closes.
#[derive(Clone, Copy, Debug, PartialEq, Eq)]
pub struct Burst {
    /// Its burst word.
    pub word: u64,
    /// The number of its Data words.
    pub size: u64,
    /// The Control word that closes it, accepted or not.
    pub closer: u64,
}
