//! The payload stream of a link whose packets and rows are given while it is made: at any time, between any two words.
// why: A maker of a live stream keeps all listed channels with their queues in one list in the order of their keys, and looks
// for the first that is on and has packets. A burst, and a flow entry that turns a channel on, move its queue to the back.
// So there are no marks to count and none to overflow. The price is a scan for each burst, and a move of up to 1,024
// queues.
// why: The source at a slot filters only packets and keeps all rows: rows of later slots do not count by the definitions of
// flow control. So the law that a live stream with its packets at slot 0 is an open stream needs no order of rows.
// why: A closed live stream ends at the first control slot, from the close on and after the warm-up, at which no channel is
// ready. The bytes that are left then are held, since no row can come. A burst counts as sent with its burst word: its
// bytes are copied then, and a packet is freed with its last burst. The limits of a live stream (2⁶⁰ words, 2⁶⁰ bytes of a
// channel) are results, so that calls for C need no requires.
// why: A live transmitter takes no packet that its plan forbids: one above max_packet is refused. So each live stream meets
// what the law on rules (rules_law) asks of the packets of a source, 1 to max_packet bytes each.
// why: A state of this end's own is of a listed channel. Each entry of a plan's calendar is of one, too (another is a clash),
// so no entry needs a test of its own.
#![tactic(auto)]

mod counts;
pub mod examples;
pub mod laws;
mod refused;
mod scheduler;
mod turns;
mod waiting;

pub use counts::{Counts, MOST_BYTES};
pub use refused::{Closed, LocalRefused, Refused};
pub use scheduler::{LiveScheduler, MOST_WORDS};
