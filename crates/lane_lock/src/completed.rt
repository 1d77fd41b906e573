use lock_model::LaneStep;

/// The word of a word lock that ends within some bytes.
#[derive(Clone, Copy, Debug, PartialEq, Eq)]
pub struct Completed {
    /// The place of the bit that ends it among their bits. Bit 0 is the highest bit of the first byte.
    pub place: u32,
    /// The step that this bit completes. Their other bits complete none.
    pub step: LaneStep,
}
