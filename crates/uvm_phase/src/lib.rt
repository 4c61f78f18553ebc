//! The phases of a run (IEEE 1800.2-2020, Clause 9), and the calls that are due.
#![tactic(auto)]

mod agendas;
pub mod laws;
mod owners;
mod phases;

pub use agendas::{Agenda, Cause, Due, MAX_TICKS};
pub use phases::{Phase, Schedule};
