//! The pointer that C holds to a transmitter, or to none.
ghost use Rattle.std.specs.Prelude.{◌≡◌, true, is_some, Option, Some, None};
ghost use Rattle.c_transmitter.specs.declared.bit_transmitter.BitTransmitter.{BitTransmitter};
ghost use Rattle.std.specs.Coded.{coded_option};
ghost use Rattle.c_parts.specs.OnBlock.{block_owns};
ghost use Rattle.c_transmitter.specs.contracts.bit_transmitter.BitTransmitter.{the_row};

use crate::bit_transmitter::BitTransmitter;
use c_parts::Parts;
use std::alloc::Global;
use std::marker::Model;
use std::ptr;

/// A pointer to a transmitter, which owns it: the transmitter lies at the pointer, and its block may be given back. If there is none
/// it owns nothing.
#[repr(C)]
#[derive(Drop)]
pub struct TransmitterBlock {
    ptr: *mut u8,
    alloc: Global,
    pub ghost transmitter: { Option BitTransmitter } by { coded_option the_row.coded },
}

impl Model for TransmitterBlock {
    ghost also_owns = { λ b. block_owns the_row b.alloc b.ptr b.transmitter };
}

impl TransmitterBlock {
    /// No transmitter.
    pub fn absent(alloc: Global) -> TransmitterBlock
        ensures { result.transmitter ≡ None }
    {
        let ptr = ptr::null_mut();
        TransmitterBlock { ptr, alloc }
    }

    /// The block of the transmitter of these parts.
    pub fn of(parts: Parts<BitTransmitter, Global>) -> TransmitterBlock
        ensures { result.transmitter ≡ Some parts.value }
    {
        let Parts { ptr, alloc } = parts;
        let ptr = ptr as *mut u8;
        TransmitterBlock { ptr, alloc }
    }

    /// The parts of the transmitter's box.
    pub fn into_parts(self) -> Parts<BitTransmitter, Global>
        requires { is_some self.transmitter ≡ true }
        ensures { self.transmitter ≡ Some result.value }
    {
        let TransmitterBlock { ptr, alloc } = self;
        let ptr = ptr as *mut BitTransmitter;
        Parts { ptr, alloc }
    }
}
