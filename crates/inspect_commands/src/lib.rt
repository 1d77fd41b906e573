//! The command that inspects: the lanes of a plan become a table of what each shows, and where.
// why: inspect reads no report for a word whose step can show nothing but a balance, and whose code leaves the lock balanced:
// by the definition it has no event. The words that show something are reported in a function that is kept out of the
// loop.
// why: inspect takes eight payload words of a declared lock at once if they begin with a byte, their headers are legal, and
// none of them unbalances the lock: such words have no event. A piece has seven bytes, or fewer if the next word ends with
// one of them, so no word that begins with a byte is missed. The lock takes codes and not bytes: the balance of the same
// codes must be known before the lock goes on.
#![tactic(auto)]

mod inspect;
mod lane;
mod lanes;
pub mod laws;
mod table;

pub use inspect::Inspect;
