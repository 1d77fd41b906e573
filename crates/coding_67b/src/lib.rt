//! Codes of 67 bits both ways, and the bits of a lane as bytes both ways.
// why: After a bit writer padded its last byte nothing waits; the lane's file pads, and no other caller does.
#![tactic(auto)]

mod codes;
mod eight;
mod encoder;
mod reader;
mod writer;

pub use codes::{code_with, decode, header_of, inversion_of, payload_of};
pub use eight::{EIGHT_CODES_BYTES, put_number, put_rest};
pub use encoder::Encoder;
pub use reader::BitReader;
pub use writer::BitWriter;
