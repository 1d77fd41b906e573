//! What C holds: a receiver, or none.
ghost use Rattle.std.specs.Prelude.{◌≡◌, is_some, Some, None, IfSome, IfNone};

use crate::bit_receiver::BitReceiver;
use crate::block::ReceiverBlock;
use c_parts::Parts;
use std::alloc::Global;
use std::mem;

/// A handle of a receiver, or of none. All zeros is a handle of none.
#[repr(C)]
#[derive(Drop)]
pub struct ReceiverHandle {
    pub at: ReceiverBlock,
    live: bool,
    ghost marked: { live ≡ is_some at.session },
}

impl ReceiverHandle {
    // No receiver.
    fn absent(alloc: Global) -> ReceiverHandle
        ensures { result.at.session ≡ None }
    {
        ReceiverHandle {
            at: ReceiverBlock::absent(alloc),
            live: false,
        }
    }

    /// Gives the session away, if there is one. There is none afterwards.
    pub fn take(&mut self, alloc: Global) -> Option<Box<BitReceiver, Global>>
        ensures gone { self.new.at.session ≡ None }
        ensures some { IfSome result (λ b. self.old.at.session ≡ Some b.value) }
        ensures none { IfNone result (self.old.at.session ≡ None) }
    {
        let receiver = mem::replace(self, ReceiverHandle::absent(alloc));
        if !receiver.live {
            return None;
        }
        Some(receiver.at.into_parts().into_box())
    }

    /// Holds a session from now on.
    pub fn put(&mut self, session: Box<BitReceiver, Global>)
        ensures { self.new.at.session ≡ Some session.value }
    {
        *self = ReceiverHandle {
            at: ReceiverBlock::of(Parts::of(session)),
            live: true,
        };
    }
}
