//! Checks a document: why `run` rejects it, with the place in its text, and what in it has no effect.
#![tactic(auto)]

mod actions;
mod advices;
mod answers;
mod documents;
mod findings;
pub mod laws;
mod places;
mod reasons;
mod scripts;
mod suspicions;
mod words;

pub use documents::check;
pub use findings::{Finding, Level};
