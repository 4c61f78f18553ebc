//! The sequences that were started, with their steps and their parents (IEEE 1800.2-2020, Clause 14).
#![tactic(auto)]

pub mod laws;
mod starts;

pub use starts::{SeqId, SeqStep, Sequences};
