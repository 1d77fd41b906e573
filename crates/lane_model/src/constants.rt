//! What a lane carries, as numbers that its makers and readers share.

/// The bits of the code of a word: one for the inversion, two of the header and 64 of the payload.
pub const CODE_BITS: u32 = 67;

/// The payload of a Sync word.
pub const SYNC: u64 = 0x78F6_78F6_78F6_78F6;

/// The payload of a Skip word.
pub const SKIP: u64 = 0x1E1E_1E1E_1E1E_1E1E;

/// The payload of a Diagnostic word before its CRC32: 011001 in bits 63:58, and both health bits.
pub const DIAGNOSTIC: u64 = 0b011001 << 58 | 3 << 32;

/// The payload of a Scrambler State word before the state, which has bits 57:0: 001010 in bits 63:58.
pub const SCRAMBLER_STATE: u64 = 0b001010 << 58;

/// A lane that comes in pieces takes no more bytes once it has this many, and no piece of one is as long.
pub const LANE_BYTES_LIMIT: usize = 1 << 40;
