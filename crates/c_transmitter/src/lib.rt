//! A transmitter of the lanes of a link behind a handle for C, and the calls on it.
#![tactic(auto)]

mod bit_transmitter;
mod block;
mod calls;
mod codes;
mod counts;
mod handle;
mod status;

pub use calls::{
    close, finish, flow, free, local, new, packet, sent, slots, status_of, take, take_bits,
};
pub use counts::CCounts;
pub use handle::TransmitterHandle;
pub use status::CStatus;
