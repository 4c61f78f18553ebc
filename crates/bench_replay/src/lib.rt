//! Repeats the log of a core on a second core, entry by entry, so that the state after each entry can be read.
#![tactic(auto)]

mod entries;
mod replays;
mod words;

pub use replays::Replay;
pub use words::KnownWords;
