//! The pointer that C holds to the damage of lanes, or to none.
ghost use Rattle.std.specs.Prelude.{◌≡◌, true, is_some, List, Option, Some, None};
ghost use Rattle.lane_damage.specs.OnWay.{OnWay};
ghost use Rattle.std.specs.Coded.{coded_option};
ghost use Rattle.c_parts.specs.OnBlock.{block_owns};
ghost use Rattle.lane_damage.specs.contracts.damage.Damage.{the_row};

use c_parts::Parts;
use lane_damage::Damage;
use std::alloc::Global;
use std::marker::Model;
use std::ptr;

/// A pointer to damage, which owns it: the damage lies at the pointer, and its block may be given back. Where there is none it owns
/// nothing.
#[repr(C)]
#[derive(Drop)]
pub struct DamageBlock {
    ptr: *mut u8,
    alloc: Global,
    pub ghost damage: { Option (List OnWay) } by { coded_option the_row.coded },
}

impl Model for DamageBlock {
    ghost also_owns = { λ b. block_owns the_row b.alloc b.ptr b.damage };
}

impl DamageBlock {
    /// No damage.
    pub fn absent(alloc: Global) -> DamageBlock
        ensures { result.damage ≡ None }
    {
        let ptr = ptr::null_mut();
        DamageBlock { ptr, alloc }
    }

    /// The block of the damage of these parts.
    pub fn of(parts: Parts<Damage, Global>) -> DamageBlock
        ensures { result.damage ≡ Some parts.value }
    {
        let Parts { ptr, alloc } = parts;
        let ptr = ptr as *mut u8;
        DamageBlock { ptr, alloc }
    }

    /// The parts of the damage's box.
    pub fn into_parts(self) -> Parts<Damage, Global>
        requires { is_some self.damage ≡ true }
        ensures { self.damage ≡ Some result.value }
    {
        let DamageBlock { ptr, alloc } = self;
        let ptr = ptr as *mut Damage;
        Parts { ptr, alloc }
    }
}
