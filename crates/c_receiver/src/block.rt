//! The pointer that C holds to a session, or to none.
ghost use Rattle.std.specs.Prelude.{◌≡◌, true, is_some, Option, Some, None};
ghost use Rattle.std.specs.Coded.{coded_option};
ghost use Rattle.c_parts.specs.OnBlock.{block_owns};
ghost use Rattle.c_receiver.specs.contracts.bit_receiver.BitReceiver.{the_row};
ghost use Rattle.c_receiver.specs.declared.bit_receiver.BitReceiver.{BitReceiver};

use crate::bit_receiver::BitReceiver;
use c_parts::Parts;
use std::alloc::Global;
use std::marker::Model;
use std::ptr;

/// A pointer to a session, which owns it: the session is at the pointer, and its block may be given back. If there is no
/// session, it owns nothing.
#[repr(C)]
#[derive(Drop)]
pub struct ReceiverBlock {
    ptr: *mut u8,
    alloc: Global,
    pub ghost session: { Option BitReceiver } by { coded_option the_row.coded },
}

impl Model for ReceiverBlock {
    ghost also_owns = { λ h. block_owns the_row h.alloc h.ptr h.session };
}

impl ReceiverBlock {
    /// No session.
    pub fn absent(alloc: Global) -> ReceiverBlock
        ensures { result.session ≡ None }
    {
        let ptr = ptr::null_mut();
        ReceiverBlock { ptr, alloc }
    }

    /// The handle of the session of these parts.
    pub fn of(parts: Parts<BitReceiver, Global>) -> ReceiverBlock
        ensures { result.session ≡ Some parts.value }
    {
        let Parts { ptr, alloc } = parts;
        let ptr = ptr as *mut u8;
        ReceiverBlock { ptr, alloc }
    }

    /// The parts of the session's box.
    pub fn into_parts(self) -> Parts<BitReceiver, Global>
        requires { is_some self.session ≡ true }
        ensures { self.session ≡ Some result.value }
    {
        let ReceiverBlock { ptr, alloc } = self;
        let ptr = ptr as *mut BitReceiver;
        Parts { ptr, alloc }
    }
}
