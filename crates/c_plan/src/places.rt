//! Where on the lanes a word is.
ghost use Rattle.std.specs.Prelude.{◌≡◌, ◌↔◌, IfSome, IsSome};
ghost use Rattle.c_plan.specs.Places.{IsPlace, IsSlot, place_found, slot_found};

use c_parts::CPlace;
use lane_model::CODE_BITS;
use lk_base::Link;

/// A place whose group is here or later is no place: a lane has fewer bits.
const GROUPS_LIMIT: u64 = 1 << 44;

/// A payload word whose number is this or more is not counted.
const SLOTS_LIMIT: u64 = 1 << 56;

/// A lane, and a bit of it.
#[derive(Clone, Copy)]
pub struct LaneBit {
    /// The lane, from 0.
    pub lane: u32,
    /// The bit of the lane, from 0.
    pub bit: u64,
}

/// The lane of a word of a group, and the bit at which its code would begin if no lane were skewed. None if no group has the place.
pub fn find_place(link: &Link, at: &CPlace) -> Option<LaneBit>
    ensures there { IsSome result ↔ IsPlace link.now at.now }
    ensures value { IfSome result (λ found. found ≡ place_found link.now at.now) }
{
    if at.known != 1 || at.index as u64 >= link.group_words() || at.group >= GROUPS_LIMIT {
        return None;
    }
    let after_sync = link.skips() + 2 + at.index / link.lanes();
    Some(LaneBit {
        lane: at.index % link.lanes(),
        bit: at.group + CODE_BITS as u64 * after_sync as u64,
    })
}

/// The lane of a payload word that is sent, by its number in the stream, and the bit at which its code begins. None from number 2^56 on.
pub fn find_slot(link: &Link, slot: u64) -> Option<LaneBit>
    ensures there { IsSome result ↔ IsSlot slot }
    ensures value { IfSome result (λ found. found ≡ slot_found link.now slot) }
{
    if slot >= SLOTS_LIMIT {
        return None;
    }
    link.keeps_limits();
    let lanes = link.lanes() as u64;
    let metaframe = link.metaframe() as u64;
    let after_sync = link.skips() as u64 + 2;
    let payloads = metaframe - after_sync - 1;
    let payload = slot / lanes;
    let position = payload / payloads * metaframe + (after_sync + payload % payloads);
    Some(LaneBit {
        lane: (slot % lanes) as u32,
        bit: CODE_BITS as u64 * position,
    })
}
