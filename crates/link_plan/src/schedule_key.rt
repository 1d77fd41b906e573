ghost use Rattle.std.specs.Prelude.{◌≡◌};
ghost use Rattle.link_plan.specs.Schedules.{key_of};

use csv_rows::{Named, value_named};

/// A key of a schedule file.
#[derive(Clone, Copy, Debug, PartialEq, Eq)]
pub enum ScheduleKey {
    /// `skew`
    Skew,
    /// `flip`
    Flip,
    /// `dark`
    Dark,
}

// The names of the keys.
static KEYS: &[Named<ScheduleKey>] = &[
    Named {
        name: "skew",
        value: ScheduleKey::Skew,
    },
    Named {
        name: "flip",
        value: ScheduleKey::Flip,
    },
    Named {
        name: "dark",
        value: ScheduleKey::Dark,
    },
];

/// Looks up the key of a name.
pub fn key_named(name: &[u8]) -> Option<ScheduleKey>
    ensures { result ≡ key_of name.now }
{
    value_named(KEYS, name)
}
