//! The holders of a sequencer: the sequences that hold its locks (IEEE 1800.2-2020, Clause 15).
#![tactic(auto)]

mod holders;

pub use holders::Holders;
