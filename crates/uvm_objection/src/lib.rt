//! Objections: the counts that keep a phase from ending, and the drain times that delay their fall (IEEE 1800.2-2020, Clause 10.5).
#![tactic(auto)]

mod faults;
pub mod laws;
mod nodes;
mod objections;
mod walks;

pub use faults::BelowZero;
pub use objections::{Due, Objection};
