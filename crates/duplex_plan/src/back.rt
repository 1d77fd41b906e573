// why: A row that is read from a file is a struct with named fields (BackRow, EventRow), in specs too. The forms of
// csv_rows::Form have named fields, too. In specs a form is its constructor with the fields in order: least, greatest, and
// the step or the longest text.
/// A channel of end b that has packets.
#[derive(Debug, Drop)]
pub struct BackRow {
    /// The number of the channel.
    pub channel: u16,
    /// The name of its capture: 1 to 255 bytes.
    pub capture: String,
    /// The number of the row that says so, counted from 1.
    pub row: u32,
}
