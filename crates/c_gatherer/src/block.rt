//! The pointer that C holds to a gatherer, or to none.
ghost use Rattle.std.specs.Prelude.{◌≡◌, true, is_some, Option, Some, None};
ghost use Rattle.c_gatherer.specs.declared.bit_gatherer.BitGatherer.{BitGatherer};
ghost use Rattle.std.specs.Coded.{coded_option};
ghost use Rattle.c_parts.specs.OnBlock.{block_owns};
ghost use Rattle.c_gatherer.specs.contracts.bit_gatherer.BitGatherer.{the_row};

use crate::bit_gatherer::BitGatherer;
use c_parts::Parts;
use std::alloc::Global;
use std::marker::Model;
use std::ptr;

/// A pointer to a gatherer, which owns it: the gatherer is at the pointer, and its block may be given back. If there is none, it owns
/// nothing.
#[repr(C)]
#[derive(Drop)]
pub struct GathererBlock {
    ptr: *mut u8,
    alloc: Global,
    pub ghost gatherer: { Option BitGatherer } by { coded_option the_row.coded },
}

impl Model for GathererBlock {
    ghost also_owns = { λ b. block_owns the_row b.alloc b.ptr b.gatherer };
}

impl GathererBlock {
    /// No gatherer.
    pub fn absent(alloc: Global) -> GathererBlock
        ensures { result.gatherer ≡ None }
    {
        let ptr = ptr::null_mut();
        GathererBlock { ptr, alloc }
    }

    /// The block of the gatherer of these parts.
    pub fn of(parts: Parts<BitGatherer, Global>) -> GathererBlock
        ensures { result.gatherer ≡ Some parts.value }
    {
        let Parts { ptr, alloc } = parts;
        let ptr = ptr as *mut u8;
        GathererBlock { ptr, alloc }
    }

    /// The parts of the gatherer's box.
    pub fn into_parts(self) -> Parts<BitGatherer, Global>
        requires { is_some self.gatherer ≡ true }
        ensures { self.gatherer ≡ Some result.value }
    {
        let GathererBlock { ptr, alloc } = self;
        let ptr = ptr as *mut BitGatherer;
        Parts { ptr, alloc }
    }
}
