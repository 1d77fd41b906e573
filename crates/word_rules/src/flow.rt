//! Which channels flow control has turned off at a slot.
ghost use Rattle.std.specs.Prelude.{◌≡◌, ◌≤◌, ◌<◌, ◌++◌, ◌∷◌, [], ℕ, List, IfOk, length, take, get_or, not};
ghost use Rattle.stream_model.specs.Calendar.{is_on};
ghost use Rattle.stream_model.specs.declared.rows.FlowRow.{FlowRow};
ghost use Rattle.calendar.specs.Incoming.{IsHeardAs, Stands, StandsFor};
ghost use Rattle.word_rules.specs.Flows.{InOrder, IsFlow, NoneLater, no_row, with_row};

use arrayvec::ArrayVec;
use calendar::{CalendarIn, valid_word, verified_word};
use control_words::Control;
use lk_base::OutOfMemory;
use std::alloc::Global;
use stream_model::FlowRow;

// Takes the next word, `None` for one that is not valid.
fn take_word(calendar: &mut CalendarIn, word: Option<Control>)
    requires stands { (entries : List ℕ) × (rows : List FlowRow) × Stands calendar.old entries rows }
    ensures { (entries : List ℕ) (rows : List FlowRow) (row : FlowRow) → Stands calendar.old entries rows → StandsFor word row.word → Stands calendar.new entries (rows ++ row ∷ []) }
{
    let mut changed = ArrayVec::new();
    calendar.take(word, &mut changed);
}

// Takes the word of one row.
fn take_row(calendar: &mut CalendarIn, row: FlowRow)
    requires stands { (entries : List ℕ) × (rows : List FlowRow) × Stands calendar.old entries rows }
    ensures { (entries : List ℕ) (rows : List FlowRow) → Stands calendar.old entries rows → Stands calendar.new entries (rows ++ row ∷ []) }
{
    take_word(calendar, valid_word(row.word));
}

// Takes the rows up to a slot, from number `taken` on, and returns how many are taken then.
fn take_rows(calendar: &mut CalendarIn, rows: &[FlowRow], taken: usize, slot: u64) -> usize
    requires part { taken ≤ length rows.now }
    requires stands { (entries : List ℕ) × (heard : List FlowRow) × Stands calendar.old entries (heard ++ take taken rows.now) }
    ensures part { result ≤ length rows.now }
    ensures stands { (entries : List ℕ) (heard : List FlowRow) → Stands calendar.old entries (heard ++ take taken rows.now) → Stands calendar.new entries (heard ++ take result rows.now) }
    ensures early { NoneLater (take taken rows.now) slot → NoneLater (take result rows.now) slot }
    ensures late { result < length rows.now → slot < (get_or rows.now result no_row).slot }
{
    for n in taken..rows.len() {
        let row = rows[n];
        if slot < row.slot {
            return n;
        }
        take_row(calendar, row);
    }
    rows.len()
}

/// The rows of flow control, of which the first were taken: words that were heard, which are not kept, and the first of those that are.
#[derive(Drop)]
pub struct Flow {
    calendar: CalendarIn,
    rows: Vec<FlowRow>,
    taken: usize,
}

impl Flow {
    /// No row is taken.
    pub fn new(alloc: Global, entries: &[u16], rows: &[FlowRow]) -> Result<Flow, OutOfMemory>
        ensures { IfOk result (λ flow. (t : ℕ) → IsFlow flow entries.now rows.now t) }
    {
        let calendar = CalendarIn::new(alloc, entries)?;
        let own = Vec::from_slice(alloc, rows)?;
        Ok(Flow {
            calendar,
            rows: own,
            taken: 0,
        })
    }

    /// Whether the channel is off at a slot, which is not below that of an earlier call.
    pub fn is_off(&mut self, channel: u16, slot: u64) -> bool
        requires flow { (entries : List ℕ) × (rows : List FlowRow) × (s : ℕ) × IsFlow self.old entries rows s × (s ≤ slot) }
        ensures flow { (entries : List ℕ) (rows : List FlowRow) (s : ℕ) → IsFlow self.old entries rows s → s ≤ slot → IsFlow self.new entries rows slot }
        ensures off { (entries : List ℕ) (rows : List FlowRow) (s : ℕ) → IsFlow self.old entries rows s → s ≤ slot → InOrder rows → result ≡ not (is_on entries rows channel slot) }
    {
        self.taken = take_rows(&mut self.calendar, &self.rows, self.taken, slot);
        !self.calendar.is_on(channel)
    }

    /// Takes a control word that was verified, whatever its checksum: it counts from a slot on, after all rows, as one with the checksum of
    /// the word alone. None of the rows is of a later slot, and they are not kept any more.
    pub fn hear(&mut self, word: u64, slot: u64)
        requires flow { (entries : List ℕ) × (rows : List FlowRow) × (s : ℕ) × IsFlow self.old entries rows s }
        ensures flow { (entries : List ℕ) (rows : List FlowRow) (s heard : ℕ) → IsFlow self.old entries rows s → NoneLater rows slot → IsHeardAs word heard → IsFlow self.new entries (with_row rows slot heard) slot }
    {
        take_rows(&mut self.calendar, &self.rows, self.taken, slot);
        take_word(&mut self.calendar, verified_word(word));
        self.rows.clear();
        self.taken = 0;
    }
}
