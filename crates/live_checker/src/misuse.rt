/// Why a word, or a word of flow control, is not taken.
#[derive(Clone, Copy, Debug, PartialEq, Eq)]
pub enum Misuse {
    /// The words were ended.
    Finished,
    /// Faults are due that `next` has not given.
    Waiting,
    /// 2^57 words came.
    TooMany,
}
