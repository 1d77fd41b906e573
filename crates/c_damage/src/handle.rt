//! What C holds: the damage of lanes, or none.
ghost use Rattle.std.specs.Prelude.{◌≡◌, is_some, Some, None, IfSome, IfNone};

use crate::block::DamageBlock;
use c_parts::Parts;
use lane_damage::Damage;
use std::alloc::Global;
use std::mem;

/// A handle of damage, or of none. All zeros is a handle of none.
#[repr(C)]
#[derive(Drop)]
pub struct DamageHandle {
    pub at: DamageBlock,
    live: bool,
    ghost marked: { live ≡ is_some at.damage },
}

impl DamageHandle {
    // No damage.
    fn absent(alloc: Global) -> DamageHandle
        ensures { result.at.damage ≡ None }
    {
        DamageHandle {
            at: DamageBlock::absent(alloc),
            live: false,
        }
    }

    /// Gives the damage away, if there is one. There is none afterwards.
    pub fn take(&mut self, alloc: Global) -> Option<Box<Damage, Global>>
        ensures gone { self.new.at.damage ≡ None }
        ensures some { IfSome result (λ b. self.old.at.damage ≡ Some b.value) }
        ensures none { IfNone result (self.old.at.damage ≡ None) }
    {
        let damage = mem::replace(self, DamageHandle::absent(alloc));
        if !damage.live {
            return None;
        }
        Some(damage.at.into_parts().into_box())
    }

    /// Holds this damage from now on.
    pub fn put(&mut self, damage: Box<Damage, Global>)
        ensures { self.new.at.damage ≡ Some damage.value }
    {
        *self = DamageHandle {
            at: DamageBlock::of(Parts::of(damage)),
            live: true,
        };
    }
}
