//! How far the events of rows were done.
ghost use Rattle.std.specs.Prelude.{◌≡◌, ◌<◌, ◌≤◌, ◌++◌, length, replicate};
ghost use Rattle.resend_commands.specs.Left.{IsAmong, count_left, events_left};

use resend_events::EventRow;

// The most events that are done at once.
const AT_ONCE: u32 = 4096;

/// A place among the events of rows.
#[derive(Clone, Copy)]
pub struct Place {
    /// The rows before this one were done.
    pub row: usize,
    /// How many times the event of this row was done.
    pub done: u32,
}

impl Place {
    /// Passes the next events, 4,096 at most and all of one row, and returns the event with how often it comes.
    pub fn next(&mut self, rows: &[EventRow]) -> EventRow
        requires among { IsAmong rows.now self.old }
        requires more { self.old.row < length rows.now }
        ensures few { result.count ≤ 4096 }
        ensures events { events_left rows.now self.old ≡ replicate result.count result.event ++ events_left rows.now self.new }
        ensures among { IsAmong rows.now self.new }
        ensures less { count_left rows.now self.new < count_left rows.now self.old }
    {
        let row = rows[self.row];
        let count = AT_ONCE.min(row.count - self.done);
        let run = EventRow {
            event: row.event,
            count,
        };
        if self.done + count < row.count {
            self.done += count;
            return run;
        }
        self.row += 1;
        self.done = 0;
        run
    }
}
