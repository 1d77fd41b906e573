//! What C holds: a gatherer of lanes, or none.
ghost use Rattle.std.specs.Prelude.{◌≡◌, is_some, Some, None, IfSome, IfNone};

use crate::bit_gatherer::BitGatherer;
use crate::block::GathererBlock;
use c_parts::Parts;
use std::alloc::Global;
use std::mem;

/// A handle of a gatherer, or of none. All zeros is a handle of none.
#[repr(C)]
#[derive(Drop)]
pub struct GathererHandle {
    pub at: GathererBlock,
    live: bool,
    ghost marked: { live ≡ is_some at.gatherer },
}

impl GathererHandle {
    // No gatherer.
    fn absent(alloc: Global) -> GathererHandle
        ensures { result.at.gatherer ≡ None }
    {
        GathererHandle {
            at: GathererBlock::absent(alloc),
            live: false,
        }
    }

    /// Gives the gatherer away, if there is one. There is none afterwards.
    pub fn take(&mut self, alloc: Global) -> Option<Box<BitGatherer, Global>>
        ensures gone { self.new.at.gatherer ≡ None }
        ensures some { IfSome result (λ b. self.old.at.gatherer ≡ Some b.value) }
        ensures none { IfNone result (self.old.at.gatherer ≡ None) }
    {
        let gatherer = mem::replace(self, GathererHandle::absent(alloc));
        if !gatherer.live {
            return None;
        }
        Some(gatherer.at.into_parts().into_box())
    }

    /// Holds this gatherer from now on.
    pub fn put(&mut self, gatherer: Box<BitGatherer, Global>)
        ensures { self.new.at.gatherer ≡ Some gatherer.value }
    {
        *self = GathererHandle {
            at: GathererBlock::of(Parts::of(gatherer)),
            live: true,
        };
    }
}
