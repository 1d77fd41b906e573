//! The law on pieces of bits.
ghost use Rattle.c_bits.specs.Laws.{BitsAreKept};

/// In whatever pieces bits of a lane come, the bits of the bytes that it took, and then its part of a byte, are the bits that were taken.
pub fn bits_are_kept()
    ensures { BitsAreKept }
{}
