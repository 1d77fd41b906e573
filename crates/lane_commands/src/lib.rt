//! The commands on words and lanes that are there: `stripe` puts the words of a words file on the lanes of a plan's link.
// why: stripe keeps the bytes of its words file and makes its lanes a group at a time (tx_end::LaneFiller). Its stream is a
// relation (Stripes) and not a function of the number of words; a law says that there is only one (striped_streams), and a
// lemma that there is one (stripe_some).
#![tactic(auto)]

mod lane_maker;
pub mod laws;
mod plan_words;
mod sent_words;
mod stripe;

pub use stripe::Stripe;
