//! The place of a word as C sees it.
ghost use Rattle.std.specs.Prelude.{◌≡◌};
ghost use Rattle.c_parts.specs.Places.{place_of};

use lk_base::Pos;

/// The place of a word: its group, named by the received bit position of its Sync on lane 0, and the index of the word in it. All is
/// 0 if there is no place.
#[repr(C)]
#[derive(Clone, Copy)]
pub struct CPlace {
    /// 1 if there is a place, otherwise 0.
    pub known: u32,
    /// The index of the word in its group.
    pub index: u32,
    /// The group.
    pub group: u64,
}

/// A place, or none, as C sees it.
pub fn place_of(pos: Option<Pos>) -> CPlace
    ensures { result ≡ place_of pos }
{
    match pos {
        None => CPlace {
            known: 0,
            index: 0,
            group: 0,
        },
        Some(pos) => CPlace {
            known: 1,
            index: pos.index,
            group: pos.group,
        },
    }
}
