//! What C holds: a transmitter, or none.
ghost use Rattle.std.specs.Prelude.{◌≡◌, is_some, Some, None, IfSome, IfNone};

use crate::bit_transmitter::BitTransmitter;
use crate::block::TransmitterBlock;
use c_parts::Parts;
use std::alloc::Global;
use std::mem;

/// A handle of a transmitter, or of none. All zeros is a handle of none.
#[repr(C)]
#[derive(Drop)]
pub struct TransmitterHandle {
    pub at: TransmitterBlock,
    live: bool,
    ghost marked: { live ≡ is_some at.transmitter },
}

impl TransmitterHandle {
    // No transmitter.
    fn absent(alloc: Global) -> TransmitterHandle
        ensures { result.at.transmitter ≡ None }
    {
        TransmitterHandle {
            at: TransmitterBlock::absent(alloc),
            live: false,
        }
    }

    /// Gives the transmitter away, if there is one. There is none afterwards.
    pub fn take(&mut self, alloc: Global) -> Option<Box<BitTransmitter, Global>>
        ensures gone { self.new.at.transmitter ≡ None }
        ensures some { IfSome result (λ b. self.old.at.transmitter ≡ Some b.value) }
        ensures none { IfNone result (self.old.at.transmitter ≡ None) }
    {
        let transmitter = mem::replace(self, TransmitterHandle::absent(alloc));
        if !transmitter.live {
            return None;
        }
        Some(transmitter.at.into_parts().into_box())
    }

    /// Holds this transmitter from now on.
    pub fn put(&mut self, transmitter: Box<BitTransmitter, Global>)
        ensures { self.new.at.transmitter ≡ Some transmitter.value }
    {
        *self = TransmitterHandle {
            at: TransmitterBlock::of(Parts::of(transmitter)),
            live: true,
        };
    }
}
