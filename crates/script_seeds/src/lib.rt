//! Runs of one bench for many seeds: a line for each seed, and a count.
#![tactic(auto)]

mod kept;
mod lines;
mod runs;

pub use kept::Kept;
pub use lines::Seeds;
pub use runs::run_seeds;
