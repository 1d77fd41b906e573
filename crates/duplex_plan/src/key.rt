ghost use Rattle.std.specs.Prelude.{◌≡◌};
ghost use Rattle.duplex_plan.specs.Rows.{key_of};

use csv_rows::{Named, value_named};

/// A key of the file of a duplex run.
#[derive(Clone, Copy, Debug, PartialEq, Eq)]
pub enum DuplexKey {
    /// `plan`
    Plan,
    /// `delay`
    Delay,
    /// `mark`
    Mark,
    /// `slots`
    Slots,
    /// `drain`
    Drain,
    /// `back`
    Back,
    /// `out`
    Out,
}

// The names of the keys.
static KEYS: &[Named<DuplexKey>] = &[
    Named {
        name: "plan",
        value: DuplexKey::Plan,
    },
    Named {
        name: "delay",
        value: DuplexKey::Delay,
    },
    Named {
        name: "mark",
        value: DuplexKey::Mark,
    },
    Named {
        name: "slots",
        value: DuplexKey::Slots,
    },
    Named {
        name: "drain",
        value: DuplexKey::Drain,
    },
    Named {
        name: "back",
        value: DuplexKey::Back,
    },
    Named {
        name: "out",
        value: DuplexKey::Out,
    },
];

/// Looks up the key of a name.
pub fn key_named(name: &[u8]) -> Option<DuplexKey>
    ensures { result ≡ key_of name.now }
{
    value_named(KEYS, name)
}
