//! Many calls of `next` at once.
ghost use Rattle.c_gatherer.specs.Many.{GivesMany};

use crate::gathered::{CGathered, shown};
use live_gatherer::LiveGatherer;

/// Writes what is given, one after another, as much as there is room for, or up to the first none. Returns how much that is.
pub fn give_many(gatherer: &mut LiveGatherer, out: &mut [CGathered]) -> usize
    ensures { GivesMany gatherer.old gatherer.new out.old out.new result }
{
    let room = out.len();
    for count in 0..room {
        let Some(given) = gatherer.next() else {
            return count;
        };
        out[count] = shown(Some(given));
    }
    room
}
