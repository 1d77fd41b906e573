//! The pointer that C holds to a checker, or to none.
ghost use Rattle.std.specs.Prelude.{◌≡◌, true, is_some, Option, Some, None};
ghost use Rattle.live_checker.specs.States.{State};
ghost use Rattle.std.specs.Coded.{coded_option};
ghost use Rattle.c_parts.specs.OnBlock.{block_owns};
ghost use Rattle.live_checker.specs.contracts.checker.LiveChecker.{the_row};

use c_parts::Parts;
use live_checker::LiveChecker;
use std::alloc::Global;
use std::marker::Model;
use std::ptr;

/// A pointer to a checker, which owns it: the checker lies at the pointer, and its block may be given back. If there is none it owns
/// nothing.
#[repr(C)]
#[derive(Drop)]
pub struct CheckerBlock {
    ptr: *mut u8,
    alloc: Global,
    pub ghost checker: { Option State } by { coded_option the_row.coded },
}

impl Model for CheckerBlock {
    ghost also_owns = { λ b. block_owns the_row b.alloc b.ptr b.checker };
}

impl CheckerBlock {
    /// No checker.
    pub fn absent(alloc: Global) -> CheckerBlock
        ensures { result.checker ≡ None }
    {
        let ptr = ptr::null_mut();
        CheckerBlock { ptr, alloc }
    }

    /// The block of the checker of these parts.
    pub fn of(parts: Parts<LiveChecker, Global>) -> CheckerBlock
        ensures { result.checker ≡ Some parts.value }
    {
        let Parts { ptr, alloc } = parts;
        let ptr = ptr as *mut u8;
        CheckerBlock { ptr, alloc }
    }

    /// The parts of the checker's box.
    pub fn into_parts(self) -> Parts<LiveChecker, Global>
        requires { is_some self.checker ≡ true }
        ensures { self.checker ≡ Some result.value }
    {
        let CheckerBlock { ptr, alloc } = self;
        let ptr = ptr as *mut LiveChecker;
        Parts { ptr, alloc }
    }
}
