ghost use Rattle.std.specs.Prelude.{◌+◌, ◌*◌, ◌≤◌, length, map};
ghost use Rattle.link_plan.specs.ScheduleViews.{flip_value};
ghost use Rattle.lane_damage.specs.Bits.{turned_by};
ghost use Rattle.link_replay.specs.Damages.{AreChanged, flips_on};

use lane_damage::invert;
use link_plan::Flip;

/// Inverts each bit that a flip of this lane names, counted after the first `before` bits. A bit that does not exist is left out.
pub fn invert_all(bytes: &mut [u8], lane: u32, before: u32, bits: u64, flips: &[Flip])
    requires { before + bits ≤ 8 * length bytes.old }
    ensures { AreChanged (turned_by (flips_on lane (map flip_value flips.now))) before bits bytes.old bytes.new }
{
    for flip in flips {
        if flip.lane == lane && flip.bit < bits {
            invert(bytes, before as usize + flip.bit as usize);
        }
    }
}
