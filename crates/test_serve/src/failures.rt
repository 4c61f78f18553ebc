//! Tests of runs that abort.

use crate::serving::{Outcome, ends, reports, serve};
use serve_jobs::{AnswerError, Pipe, ServeError, Verdict, serve_bench, serve_nothing};
use std::alloc::{AllocError, Global};
use std::io;
use std::io::{ErrorKind, Write};
use std::test::Fail;

const ONE: &[u8] = b"version = 1
test = \"t\"
type = [{ name = \"t\", kind = \"component\" }]
";

// Returns whether a run over these answers aborts with status 3. `last` is the last two lines that the client receives, and `error` the
// line on standard error. Errors: out of memory.
fn breaks(alloc: Global, answers: &[u8], last: &[u8], error: &[u8]) -> Result<bool, AllocError> {
    let outcome: Outcome = serve(alloc, ONE, answers)?;
    Ok(ends(&outcome, last) && reports(alloc, &outcome, error) && outcome.verdict.status() == 3)
}

#[test]
fn a_need_is_answered_by_one_of_two_words(rt: HostRuntime) -> Result<(), Fail> {
    let last = b"! fault 1 neither made nor declined\n! end broken 3\n";
    let error = b"script_bench: f: line 1 of the client: neither made nor declined: Made\n";
    assert!(rt; breaks(rt.alloc(), b"Made\n", last, error)?);
    let error = b"script_bench: f: line 1 of the client: neither made nor declined: \n";
    assert!(rt; breaks(rt.alloc(), b"\nmade\n", last, error)?);
    Ok(())
}

#[test]
fn a_call_is_answered_by_actions(rt: HostRuntime) -> Result<(), Fail> {
    let last = b"! fault 3 no act\n! end broken 3\n";
    let error = b"script_bench: f: line 3 of the client: no act: raise  1\n";
    assert!(rt; breaks(rt.alloc(), b"made\nadd p imp\nraise  1\n\n", last, error)?);
    let error = b"script_bench: f: line 3 of the client: no act: get ?\n";
    assert!(rt; breaks(rt.alloc(), b"made\nadd p imp\nget \xff\n\n", last, error)?);
    Ok(())
}

#[test]
fn answers_that_end_break_the_run_off(rt: HostRuntime) -> Result<(), Fail> {
    let last = b"! fault 1 answers end\n! end broken 3\n";
    let error = b"script_bench: f: line 1 of the client: answers end: \n";
    assert!(rt; breaks(rt.alloc(), b"", last, error)?);
    let last = b"! fault 2 answers end\n! end broken 3\n";
    let error = b"script_bench: f: line 2 of the client: answers end: rai\n";
    assert!(rt; breaks(rt.alloc(), b"made\nrai", last, error)?);
    Ok(())
}

#[test]
fn at_most_80_bytes_of_a_line_are_shown(rt: HostRuntime) -> Result<(), Fail> {
    let alloc = rt.alloc();
    let mut answers: Vec<u8> = Vec::new(alloc);
    answers.resize(4097, b'x')?;
    let last = b"! fault 1 line too long\n! end broken 3\n";
    let error =
        b"script_bench: f: line 1 of the client: line too long: xxxxxxxxxxxxxxxxxxxxxxxxxxxxxxxxxxxxxxxxxxxxxxxxxxxxxxxxxxxxxxxxxxxxxxxxxxxxxxxx\n";
    assert!(rt; breaks(alloc, answers.as_slice(), last, error)?);
    Ok(())
}

#[test]
fn an_answer_of_1001_actions_breaks_the_run_off(rt: HostRuntime) -> Result<(), Fail> {
    let alloc = rt.alloc();
    let mut answers: Vec<u8> = Vec::from_slice(alloc, b"made\n")?;
    for _ in 0..1001 {
        answers.extend_from_slice(b"get f\n")?;
    }
    let last = b"! fault 1002 too many acts\n! end broken 3\n";
    let error = b"script_bench: f: line 1002 of the client: too many acts: get f\n";
    assert!(rt; breaks(alloc, answers.as_slice(), last, error)?);
    Ok(())
}

// A writer that accepts `left` bytes in all, and fails at a write that exceeds them.
#[derive(Drop)]
struct Closing {
    left: usize,
}

impl Write for Closing {
    fn write(&mut self, buf: &[u8]) -> io::Result<usize> {
        if buf.len() > self.left {
            return Err(io::Error::from(ErrorKind::BrokenPipe));
        }
        self.left -= buf.len();
        Ok(buf.len())
    }

    fn flush(&mut self) -> io::Result<()> {
        Ok(())
    }
}

#[test]
fn a_client_that_reads_no_more_breaks_the_run_off(rt: HostRuntime) -> Result<(), Fail> {
    let alloc = rt.alloc();
    for left in [0, 15, 30, 100] {
        let mut client = Pipe::new(
            alloc,
            b"made\n\n\n\n\n\n\n\n\n\n".as_slice(),
            Closing { left },
        )?;
        let verdict = serve_bench(alloc, ONE, 1, None, false, &mut client);
        assert!(rt; matches!(verdict, Verdict::Broken(ServeError::Output)));
    }
    let mut client = Pipe::new(alloc, b"".as_slice(), Closing { left: 20 })?;
    assert!(rt; serve_nothing(1, &mut client).is_err());
    Ok(())
}

#[test]
fn each_error_has_a_line(rt: HostRuntime) {
    let error = ServeError::NoAnswer(AnswerError::NoAct { line: 9 });
    assert!(rt; error.wrong_line() == 9 && error.label() == "no act");
    assert!(rt; ServeError::LogFull.wrong_line() == 0 && ServeError::LogFull.label() == "log full");
    assert!(rt; ServeError::Memory.label() == "memory");
}
