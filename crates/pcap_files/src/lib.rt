//! Captures in the classic format, version 2.4, read and written: a header of 24 bytes, then records of a head of 16
//! bytes and a packet. Time stamps, the original lengths and the link type of what is read are not looked at.
#![tactic(auto)]

mod capture;
mod error;
pub mod laws;
mod lengths;
mod name;
mod order;
mod place;
mod places;
mod reader;
mod writer;

pub use capture::{CaptureError, packets_of};
pub use error::PcapError;
pub use name::capture_name;
pub use place::PacketPlace;
pub use places::places_of;
pub use reader::PcapReader;
pub use writer::{put_record_head, write_header, write_packet};
