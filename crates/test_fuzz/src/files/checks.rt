//! Checks of a bench in a file: objects of another type are supplied first, and each call in turn gets no answer.

use crate::files::benches::{answers_of, bytes_of, script_of};
use crate::files::counted::Counted;
use crate::files::ends::End;
use bench_script::read_document;
use script_objects::Answers;
use std::alloc::{AllocError, Global};
use std::rt::Files;
use test_fuzz_runs::{FaultPlan, Record, RunUnderTest, Ticket, Violation, run_script};
use toml::Table;
use uvm_glob::Name;

/// The result of the checks of a bench.
#[derive(Clone, Copy, PartialEq, Eq)]
pub struct Checked {
    /// The number of calls in the run.
    pub calls: u64,
    /// The number of objects of another type that were rejected: one for each needed object.
    pub turned_away: usize,
}

// The fault plan of a check: the answers of the objects, and whether an object of another type precedes each needed one.
#[derive(Drop)]
struct Supplies<'a> {
    answers: &'a Answers,
    others_first: bool,
}

impl<'a> FaultPlan<Counted<'a>> for Supplies<'a> {
    fn behaviour(
        &mut self,
        alloc: Global,
        ticket: Ticket,
        type_name: &Name,
    ) -> Result<Counted<'a>, AllocError> {
        Counted::of_type(alloc, self.answers, ticket, type_name)
    }

    fn abandons(&mut self) -> bool {
        false
    }

    fn asks_again(&mut self) -> bool {
        false
    }

    fn other_type(&mut self, needed: &Name) -> Option<Name> {
        let idle = Name::literal("idle");
        match self.others_first {
            true if idle == *needed => Some(Name::literal("loud")),
            true => Some(idle),
            false => None,
        }
    }

    fn declines(&mut self) -> bool {
        false
    }
}

/// Runs the bench in a file as it is, and once for each call of that run, to which the object then gives no answer. Such a run aborts with
/// an out-of-memory error. Its log ends before that call, and each later step fails. A last run supplies an object of another type before
/// each needed one: of the type `idle`, or `loud` if `idle` is needed. The kernel must reject it, and the transcript must not change. In
/// each run, each object is returned and dropped once. Errors: `Fault` if the file cannot be read or is not a bench; `Violation` with the
/// first check that fails; `Memory`.
pub fn check_file<R: Files + AllocGlobal>(rt: &R, file: &str) -> Result<Checked, End> {
    let bytes = bytes_of(rt, file)?;
    check_bytes(rt.alloc(), bytes.as_slice())
}

fn check_bytes(alloc: Global, bytes: &[u8]) -> Result<Checked, End> {
    let root = read_document(alloc, bytes)?;
    check_table(alloc, &root)
}

fn check_table(alloc: Global, root: &Table) -> Result<Checked, End> {
    let script = script_of(alloc, root)?;
    let answers = answers_of(alloc, root, &script)?;
    check_answers(alloc, root, &answers)
}

fn check_answers(alloc: Global, root: &Table, answers: &Answers) -> Result<Checked, End> {
    let whole = watched(alloc, root, answers, false, u64::MAX)?;
    let calls = u64::MAX - whole.counts().answers();
    for call in 0..calls {
        check_silence(alloc, root, answers, call, whole.record())?;
    }
    let others = watched(alloc, root, answers, true, u64::MAX)?;
    if !others.record().is_text_of(whole.record()) {
        return Err(End::Violation(Violation::Differs));
    }
    Ok(Checked {
        calls,
        turned_away: others.turned_away(),
    })
}

// Runs the bench with the seed 1. Only the first `calls` calls get an answer. Errors: `Fault`; `Violation`; `Memory`.
fn watched<'a>(
    alloc: Global,
    root: &Table,
    answers: &'a Answers,
    others_first: bool,
    calls: u64,
) -> Result<RunUnderTest<Supplies<'a>>, End> {
    let script = script_of(alloc, root)?;
    let supplies = Supplies {
        answers,
        others_first,
    };
    let mut run_under_test = RunUnderTest::new(alloc, 1, calls, supplies)?;
    run_script::<Counted<'_>, Supplies<'_>>(alloc, script, &mut run_under_test)?;
    Ok(run_under_test)
}

// Checks a run in which the first `calls` calls get an answer, and the next gets none. Its transcript must be that of the whole run, up to
// the line of that call.
fn check_silence(
    alloc: Global,
    root: &Table,
    answers: &Answers,
    calls: u64,
    whole: &Record,
) -> Result<(), End> {
    let run_under_test = watched(alloc, root, answers, false, calls)?;
    let text = run_under_test.record().text();
    if !run_under_test.counts().is_silent() {
        return Err(End::Violation(Violation::GoesOn));
    }
    match whole.text().strip_prefix(text) {
        Some(rest) if rest.starts_with(b"heard ") && heard_in(text) == calls => Ok(()),
        _ => Err(End::Violation(Violation::Differs)),
    }
}

// Returns the number of lines of a transcript that are those of calls.
fn heard_in(text: &[u8]) -> u64 {
    text.split(|byte| *byte == b'\n')
        .filter(|line| line.starts_with(b"heard "))
        .count() as u64
}
