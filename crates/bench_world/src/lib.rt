//! The world of a run: its script, its log, and its services, whose state follows from the log.
#![tactic(auto)]

mod entries;
mod making;
pub mod pending;
mod stored_acts;
mod unsound_ports;
mod worlds;

pub use worlds::World;
