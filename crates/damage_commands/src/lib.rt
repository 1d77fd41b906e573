//! `damage FILE`: the schedule of a plan is applied to the lanes that are there, and what it struck is told.
#![tactic(auto)]

mod damage;
mod inputs;
mod lane_maker;
pub mod laws;
mod line;
mod struck;
mod unused;

pub use damage::Damage;
