use link_plan::{LAST_CHANNEL, LAST_SLOT};

// The most slots that a word is on its way.
pub const LONGEST_DELAY: u32 = 4096;

// The greatest count of words in a queue from which on its channel is off.
pub const HIGHEST_MARK: u32 = 65_536;

// The most slots of a run.
pub const MOST_SLOTS: u32 = LAST_SLOT as u32;

// The most slots after which each queue loses a word.
pub const SLOWEST_DRAIN: u32 = 1024;

// The number of keys that may stand once, which have the first places.
pub const SINGLE_KEYS: usize = 6;

// The number of places of rows: the keys that may stand once, and then each channel of end b.
pub const PLACES: usize = SINGLE_KEYS + LAST_CHANNEL as usize + 1;
