/// The greatest number of a slot in a flow or local file, and the most slots of a duplex run.
pub const LAST_SLOT: u64 = 16_777_215;

/// The greatest number of a channel where channels are wide.
pub const LAST_CHANNEL: u64 = 65_535;

/// The most bytes of the name of a file.
pub const LONGEST_NAME: usize = 255;

/// The most bytes of the prefix of the outputs' names.
pub const LONGEST_PREFIX: usize = 200;

// The greatest link type of a plan.
pub const LAST_LINK_TYPE: u64 = 65_535;

// The most bits by which a lane is late.
pub const LONGEST_SKEW: u64 = 65_535;

// The greatest number of a bit of a lane, and the most bits of a dark stretch.
pub const LAST_BIT: u64 = 999_999_999_999;
