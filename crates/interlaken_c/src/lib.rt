//! Calls for C. Behind a handle each: a receiver and a transmitter of the lanes of a link, damage of lanes on their way, an inspector of
//! lanes, a checker of words, a gatherer of the words of lanes. Without a handle: the numbers of a plan. Each export is the call of its
//! name in the crate of its handle, or of plans.
// why: A library crate for each handle has the calls, and interlaken_c only exports them, since no crate can depend on a static
// library. c_parts has what they share.
#![tactic(auto)]

mod checker;
mod damage;
mod gatherer;
mod inspector;
mod plan;
mod receiver;
mod transmitter;
mod version;
