//! The jobs of the bus bench: the command line that asks for one, the commands `run` and `debug` on the bytes of a script, and their verdicts.
#![tactic(auto)]

mod commands;
mod debugging;
mod jobs;
pub mod laws;
mod runs;
mod texts;
mod verdicts;

pub use commands::job;
pub use debugging::debug_bench;
pub use jobs::{Job, JobFault};
pub use runs::run_bench;
pub use script_input::Breakage;
pub use verdicts::{Verdict, tell, write_line};
