//! The job of `script_bench`: the run of a document, which holds a script and the answers of its objects.
#![tactic(auto)]

mod answers;
mod benches;
pub mod laws;
mod objects;
mod runs;
mod verdicts;

pub use answers::declared_answers;
pub use benches::Bench;
pub use objects::BenchObject;
pub use runs::{EndedRun, reported, run_bench, run_to_core, script_to_run};
pub use verdicts::{Refusal, Verdict};
