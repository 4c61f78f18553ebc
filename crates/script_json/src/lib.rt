//! The log of a run as JSON, for other tools: an object for each entry, each on a line of its own.
#![tactic(auto)]

mod entries;
mod logs;
mod objects;

pub use logs::write_log;
