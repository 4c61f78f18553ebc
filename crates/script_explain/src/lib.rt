//! Explains a run that has ended: which entry ended it, what keeps it, what has not ended and what waits, and what had no effect.
#![tactic(auto)]

mod effects;
mod endings;
mod keys;
mod refusals;
mod repeats;
mod runs;
mod seats;
mod sides;
mod waits;

pub use runs::explain;
