//! The job of `script_bench serve`: the run of the script in a document, over the objects of a client.
#![tactic(auto)]

mod documents;
mod lines;
mod verdicts;

pub use documents::{serve_bench, serve_nothing};
pub use serve_dialogue::{AnswerError, Client, Pipe, ServeError};
pub use verdicts::Verdict;
