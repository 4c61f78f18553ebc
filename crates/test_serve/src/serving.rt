//! Runs of documents over a client whose answers are written before the run.

use serve_jobs::{Pipe, Verdict, serve_bench};
use std::alloc::{AllocError, Global};
use uvm_glob::Name;

/// The result of a run.
#[derive(Drop)]
pub struct Outcome {
    pub verdict: Verdict,
    pub output: Vec<u8>,
    pub last_line: Vec<u8>,
}

/// Runs a document with the seed 7, its own test and no trace. Errors: out of memory.
pub fn serve(alloc: Global, document: &[u8], answers: &[u8]) -> Result<Outcome, AllocError> {
    serve_test(alloc, document, answers, None, false)
}

/// Runs a document with the seed 7. If `test` is given, it replaces the test of the document. Errors: out of memory.
pub fn serve_test(
    alloc: Global,
    document: &[u8],
    answers: &[u8],
    test: Option<&Name>,
    trace: bool,
) -> Result<Outcome, AllocError> {
    let mut client = Pipe::new(alloc, answers, Vec::new(alloc))?;
    let verdict = serve_bench(alloc, document, 7, test, trace, &mut client);
    Ok(Outcome {
        verdict,
        output: Vec::from_slice(alloc, client.output().as_slice())?,
        last_line: Vec::from_slice(alloc, client.last_line())?,
    })
}

/// Returns whether the line of the verdict, for a file `f`, is `want`, which is empty if no line is written.
pub fn reports(alloc: Global, outcome: &Outcome, want: &[u8]) -> bool {
    let mut text: Vec<u8> = Vec::new(alloc);
    let written = outcome
        .verdict
        .write_line("f", outcome.last_line.as_slice(), &mut text);
    written.is_ok() && text.as_slice() == want
}

/// Returns whether the output ends with `want`.
pub fn ends(outcome: &Outcome, want: &[u8]) -> bool {
    outcome.output.as_slice().ends_with(want)
}
