//! The dialogue of the kernel with a client, the program that holds the objects of a testbench. It consists of the kernel's requests and
//! notices, and of the client's answers, line by line.
#![tactic(auto)]

mod clients;
mod errors;
mod pipes;
mod questions;
mod serving;

pub use clients::Client;
pub use errors::ServeError;
pub use pipes::Pipe;
pub use serve_answers::AnswerError;
pub use serving::serve_script;
