ghost use Rattle.lane_model.specs.Examples.{DamagedBits, FirstBytes, FramingWords, TwoEqualWords};

/// The first three words of lane 0 of a metaframe of 32 words with one Skip word: how they are coded, the disparity
/// after each, and the lane's first 25 bytes.
pub fn first_bytes_of_a_lane()
    ensures { FirstBytes }
{}

/// A data word of zeros, sent twice from the start of a lane, goes plain and then inverted.
pub fn two_equal_words()
    ensures { TwoEqualWords }
{}

/// The key of lane 0, and words of a lane of idle words with no checksum: the last payload word of the first metaframe,
/// its Diagnostic word, and the second Scrambler State word.
pub fn framing_words()
    ensures { FramingWords }
{}

/// Bits that are flipped once, twice and in the dark, dark bits, and damage that changes nothing.
pub fn damaged_bits()
    ensures { DamagedBits }
{}
