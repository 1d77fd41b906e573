/// The bytes of a word in a words file: its tag, and then its number, the highest byte first.
pub const WORD_BYTES: usize = 9;

/// The tag of a data word.
pub const DATA_TAG: u8 = 1;

/// The tag of a control word.
pub const CONTROL_TAG: u8 = 2;

/// The tag of a bad word, whose number is ignored.
pub const BAD_TAG: u8 = 3;
