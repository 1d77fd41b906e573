ghost use Rattle.std.specs.Prelude.{◌≡◌};
ghost use Rattle.csv_rows.specs.Named.{named_in};

// why: The names of events and of the states of local rows, and the keys of a schedule and of a duplex run's file, are tables
// of csv_rows::Named; value_named looks a name up. A plan's keys are a table of Rule, which also says what a row may be.
// An events row is judged by the count of all events before it. A back row is judged by a place for its channel: a search
// of up to 65,536 earlier rows would be slow.
/// A name in a file, and what it names.
#[derive(Clone, Copy, Debug)]
pub struct Named<T> {
    /// The name.
    pub name: &'static str,
    /// What it names.
    pub value: T,
}

/// Looks up the value of the first line with a name, if there is one.
pub fn value_named<T: Copy>(table: &[Named<T>], name: &[u8]) -> Option<T>
    ensures { result ≡ named_in table.now name.now }
{
    for line in table {
        if name == line.name.as_bytes() {
            return Some(line.value);
        }
    }
    None
}
