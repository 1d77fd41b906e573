//! What C holds: an inspector of lanes, or none.
ghost use Rattle.std.specs.Prelude.{◌≡◌, is_some, Some, None, IfSome, IfNone};

use crate::bit_inspector::BitInspector;
use crate::block::InspectorBlock;
use c_parts::Parts;
use std::alloc::Global;
use std::mem;

/// A handle of an inspector, or of none. All zeros is a handle of none.
#[repr(C)]
#[derive(Drop)]
pub struct InspectorHandle {
    pub at: InspectorBlock,
    live: bool,
    ghost marked: { live ≡ is_some at.inspector },
}

impl InspectorHandle {
    // No inspector.
    fn absent(alloc: Global) -> InspectorHandle
        ensures { result.at.inspector ≡ None }
    {
        InspectorHandle {
            at: InspectorBlock::absent(alloc),
            live: false,
        }
    }

    /// Gives the inspector away, if there is one. There is none afterwards.
    pub fn take(&mut self, alloc: Global) -> Option<Box<BitInspector, Global>>
        ensures gone { self.new.at.inspector ≡ None }
        ensures some { IfSome result (λ b. self.old.at.inspector ≡ Some b.value) }
        ensures none { IfNone result (self.old.at.inspector ≡ None) }
    {
        let inspector = mem::replace(self, InspectorHandle::absent(alloc));
        if !inspector.live {
            return None;
        }
        Some(inspector.at.into_parts().into_box())
    }

    /// Holds this inspector from now on.
    pub fn put(&mut self, inspector: Box<BitInspector, Global>)
        ensures { self.new.at.inspector ≡ Some inspector.value }
    {
        *self = InspectorHandle {
            at: InspectorBlock::of(Parts::of(inspector)),
            live: true,
        };
    }
}
