//! The pointer that C holds to an inspector, or to none.
ghost use Rattle.std.specs.Prelude.{◌≡◌, true, is_some, Option, Some, None};
ghost use Rattle.c_inspector.specs.declared.bit_inspector.BitInspector.{BitInspector};
ghost use Rattle.std.specs.Coded.{coded_option};
ghost use Rattle.c_parts.specs.OnBlock.{block_owns};
ghost use Rattle.c_inspector.specs.contracts.bit_inspector.BitInspector.{the_row};

use crate::bit_inspector::BitInspector;
use c_parts::Parts;
use std::alloc::Global;
use std::marker::Model;
use std::ptr;

/// A pointer to an inspector, which owns it: the inspector is at the pointer, and its block may be given back. If there is none, it owns
/// nothing.
#[repr(C)]
#[derive(Drop)]
pub struct InspectorBlock {
    ptr: *mut u8,
    alloc: Global,
    pub ghost inspector: { Option BitInspector } by { coded_option the_row.coded },
}

impl Model for InspectorBlock {
    ghost also_owns = { λ b. block_owns the_row b.alloc b.ptr b.inspector };
}

impl InspectorBlock {
    /// No inspector.
    pub fn absent(alloc: Global) -> InspectorBlock
        ensures { result.inspector ≡ None }
    {
        let ptr = ptr::null_mut();
        InspectorBlock { ptr, alloc }
    }

    /// The block of the inspector of these parts.
    pub fn of(parts: Parts<BitInspector, Global>) -> InspectorBlock
        ensures { result.inspector ≡ Some parts.value }
    {
        let Parts { ptr, alloc } = parts;
        let ptr = ptr as *mut u8;
        InspectorBlock { ptr, alloc }
    }

    /// The parts of the inspector's box.
    pub fn into_parts(self) -> Parts<BitInspector, Global>
        requires { is_some self.inspector ≡ true }
        ensures { self.inspector ≡ Some result.value }
    {
        let InspectorBlock { ptr, alloc } = self;
        let ptr = ptr as *mut BitInspector;
        Parts { ptr, alloc }
    }
}
