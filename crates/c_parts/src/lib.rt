//! What the handles for C share: the numbers that C sees, misuse of calls, refusals of plans, places of words,
//! reports of lanes, and the parts of a box.
// why: A handle for C is a block (a pointer) and a mark that says if it holds a value; the value is a ghost. A call takes the box out
// and puts it back, so all hand-made proofs are of functions by value, here once for all handles. All zeros are a handle of none.
#![tactic(auto)]

pub mod codes;
pub mod misuse;
mod parts;
pub mod place;
pub mod refusal;
pub mod report;

pub use misuse::Misuse;
pub use parts::Parts;
pub use place::CPlace;
pub use refusal::Refusal;
pub use report::Report;
