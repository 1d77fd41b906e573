/// The most bytes of a words file or of a lane file that is listed.
pub const LISTED_LIMIT: u64 = 16_777_216;

/// The most bytes of a text that is assembled.
pub const TEXT_LIMIT: u64 = 268_435_456;
