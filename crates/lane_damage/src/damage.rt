//! Damage of the lanes of a link while their bytes pass.
ghost use Rattle.std.specs.Prelude.{◌≡◌, IfOk};
ghost use Rattle.lane_damage.specs.Calls.{AreUntouched, IsApplyOf, IsDarkOf, IsFlipOf};

use crate::lane::LaneOnWay;
use crate::refused::Refused;
use lk_base::OutOfMemory;
use std::alloc::Global;
use std::marker::Model;

/// Damages the lanes of a link while their bytes pass.
#[derive(Drop)]
pub struct Damage {
    lanes: Vec<LaneOnWay>,
}

impl Model for Damage {
    ghost use Rattle.std.specs.Prelude.{List};
    ghost use Rattle.lane_damage.specs.OnWay.{OnWay};

    ghost Value = { List OnWay };

    ghost view = { λ a. a.lanes.items };
}

// Creates this many lanes without damage.
fn untouched_lanes(alloc: Global, count: u32) -> Result<Vec<LaneOnWay>, OutOfMemory>
    ensures { IfOk result (λ v. AreUntouched count v.items) }
{
    let mut lanes = Vec::new(alloc);
    for _lane in 0..count {
        lanes.push(LaneOnWay::new(alloc))?;
    }
    Ok(lanes)
}

impl Damage {
    /// Creates the damage of this many lanes, with no rows yet.
    ///
    /// # Errors
    ///
    /// `OutOfMemory` if memory ran out, and only then.
    pub fn new(alloc: Global, lanes: u32) -> Result<Damage, OutOfMemory>
        ensures { IfOk result (λ damage. AreUntouched lanes damage) }
    {
        let lanes = untouched_lanes(alloc, lanes)?;
        Ok(Damage { lanes })
    }

    /// Inverts a bit of a lane, counted from 0, once more.
    ///
    /// # Errors
    ///
    /// `NoLane`, `OutOfRange`, `Passed`, or `OutOfMemory`. The damage is then unchanged.
    pub fn flip(&mut self, lane: u32, bit: u64) -> Result<(), Refused>
        ensures { IsFlipOf self.old self.new lane bit result }
    {
        let at = lane as usize;
        if at >= self.lanes.len() {
            return Err(Refused::NoLane);
        }
        self.lanes[at].flip(bit)
    }

    /// Makes `count` bits of a lane 0, from bit `first` on, as far as they have not passed.
    ///
    /// # Errors
    ///
    /// `NoLane`, `OutOfRange`, `Passed`, or `OutOfMemory`. The damage is then unchanged.
    pub fn dark(&mut self, lane: u32, first: u64, count: u64) -> Result<(), Refused>
        ensures { IsDarkOf self.old self.new lane first count result }
    {
        let at = lane as usize;
        if at >= self.lanes.len() {
            return Err(Refused::NoLane);
        }
        self.lanes[at].dark(first, count)
    }

    /// Damages the next bytes of a lane.
    ///
    /// # Errors
    ///
    /// `NoLane` or `TooMany`. The damage and the bytes are then unchanged.
    pub fn apply(&mut self, lane: u32, bytes: &mut [u8]) -> Result<(), Refused>
        ensures { IsApplyOf self.old self.new lane bytes.old bytes.new result }
    {
        let at = lane as usize;
        if at >= self.lanes.len() {
            return Err(Refused::NoLane);
        }
        self.lanes[at].apply(bytes)
    }
}
