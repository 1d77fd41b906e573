//! A receiver of the lanes of a link that takes any calls: it answers why it does not do one that is misused, lends the packet of the
//! last event, and knows what the far end tells of its channels.
// why: live_receiver has what a receiver's handle does, with each misuse as a result, as live_inspector and live_gatherer have
// for theirs; c_receiver adds the handle. rx_orders, the program that tries orders of calls, uses it, too.
// why: The invariant of a session says that there is a history of calls, and forgets which: many histories lead to one
// receiver.
#![tactic(auto)]

mod far_end;
pub mod laws;
mod session;

pub use far_end::FarEnd;
pub use session::Session;
