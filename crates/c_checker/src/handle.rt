//! What C holds: a checker, or none.
ghost use Rattle.std.specs.Prelude.{◌≡◌, is_some, Some, None, IfSome, IfNone};

use crate::block::CheckerBlock;
use c_parts::Parts;
use live_checker::LiveChecker;
use std::alloc::Global;
use std::mem;

/// A handle of a checker, or of none. All zeros is a handle of none.
#[repr(C)]
#[derive(Drop)]
pub struct CheckerHandle {
    pub at: CheckerBlock,
    live: bool,
    ghost marked: { live ≡ is_some at.checker },
}

impl CheckerHandle {
    // No checker.
    fn absent(alloc: Global) -> CheckerHandle
        ensures { result.at.checker ≡ None }
    {
        CheckerHandle {
            at: CheckerBlock::absent(alloc),
            live: false,
        }
    }

    /// Gives the checker away, if there is one. There is none afterwards.
    pub fn take(&mut self, alloc: Global) -> Option<Box<LiveChecker, Global>>
        ensures gone { self.new.at.checker ≡ None }
        ensures some { IfSome result (λ b. self.old.at.checker ≡ Some b.value) }
        ensures none { IfNone result (self.old.at.checker ≡ None) }
    {
        let checker = mem::replace(self, CheckerHandle::absent(alloc));
        if !checker.live {
            return None;
        }
        Some(checker.at.into_parts().into_box())
    }

    /// Holds this checker from now on.
    pub fn put(&mut self, checker: Box<LiveChecker, Global>)
        ensures { self.new.at.checker ≡ Some checker.value }
    {
        *self = CheckerHandle {
            at: CheckerBlock::of(Parts::of(checker)),
            live: true,
        };
    }
}
