//! Reads the answers of a client: the actions for a call, or whether the client made an object.
#![tactic(auto)]

mod actions;
mod errors;
pub mod laws;
pub mod lines;
mod readers;

pub use errors::AnswerError;
pub use readers::{AnswerReader, MOST_ACTS};
