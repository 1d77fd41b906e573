//! The CRC32 of long runs of words. Six powers of x, the highest x^209, add up to a multiple of its polynomial. Squared six times
//! they are powers of x^64, so a word is added to five later words in place of being taken. Eight powers up to x^79 do the
//! same for what is left.
#![tactic(auto)]

mod add;
mod far;
mod long;
mod near;
mod run;

pub use long::LongCrc32;
pub use run::crc32_run;
