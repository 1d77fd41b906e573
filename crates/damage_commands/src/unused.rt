//! Rows of a schedule that name no bit of their lane.
ghost use Rattle.std.specs.Prelude.{◌≡◌, ◌≤◌, count_by, length, map, nat_le};
ghost use Rattle.lane_model.specs.Damage.{DarkBits};
ghost use Rattle.link_plan.specs.ScheduleViews.{dark_value, flip_value, schedule_value};
ghost use Rattle.link_replay.specs.Damages.{darks_on, flips_on, lane_damage};
ghost use Rattle.damage_commands.specs.Struck.{unused};

use link_plan::{Dark, Flip, Schedule};

// How many of these flips of a lane of this many bits are at its end or past it.
fn unused_flips(flips: &[Flip], lane: u32, bits: u64) -> u64
    ensures count { result ≡ count_by (λ bit. nat_le bits bit) (flips_on lane (map flip_value flips.now)) }
    ensures few { result ≤ length flips.now }
{
    let mut unused = 0;
    for flip in flips {
        if flip.lane == lane && flip.bit >= bits {
            unused += 1;
        }
    }
    unused
}

// How many of these dark stretches of a lane of this many bits begin at its end or past it.
fn unused_darks(darks: &[Dark], lane: u32, bits: u64) -> u64
    ensures count { result ≡ count_by (λ (dark : DarkBits). nat_le bits dark.first) (darks_on lane (map dark_value darks.now)) }
    ensures few { result ≤ length darks.now }
{
    let mut unused = 0;
    for dark in darks {
        if dark.lane == lane && dark.first >= bits {
            unused += 1;
        }
    }
    unused
}

/// How many rows of a schedule name a lane, and no bit of it, since they begin at its end or past it.
pub fn unused_rows(schedule: &Schedule, lane: u32, bits: u64) -> u64
    ensures { result ≡ unused (lane_damage (schedule_value schedule.now) lane) bits }
{
    unused_flips(&schedule.flips, lane, bits) + unused_darks(&schedule.darks, lane, bits)
}
