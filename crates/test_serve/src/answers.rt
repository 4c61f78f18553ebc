//! Tests of the reading of answers.

use crate::readers::{Broken, Single};
use serve_answers::lines::LineError;
use serve_answers::{AnswerError, AnswerReader};
use std::alloc::{AllocError, Global};
use std::io::{BufRead, ErrorKind};
use std::test::Fail;

// Returns the number of actions of the first answer, or its error. Errors: out of memory.
fn count<R: BufRead + Drop>(
    alloc: Global,
    reader: R,
) -> Result<Result<usize, AnswerError>, AllocError> {
    let mut answers = AnswerReader::new(alloc, reader)?;
    match answers.read_acts() {
        Ok(acts) => Ok(Ok(acts.len())),
        Err(error) => Ok(Err(error)),
    }
}

// Returns whether the first answer states that an object was made, or its error. Errors: out of memory.
fn made(alloc: Global, text: &[u8]) -> Result<Result<bool, AnswerError>, AllocError> {
    let mut answers = AnswerReader::new(alloc, text)?;
    Ok(answers.read_made())
}

// Returns an answer of `count` actions `lock`, one per line, with the empty line that ends it. Errors: out of memory.
fn locks(alloc: Global, count: usize) -> Result<Vec<u8>, AllocError> {
    let mut text = Vec::new(alloc);
    for _ in 0..count {
        text.extend_from_slice(b"lock\n")?;
    }
    text.push(b'\n')?;
    Ok(text)
}

#[test]
fn needs_are_answered(rt: HostRuntime) -> Result<(), Fail> {
    let alloc = rt.alloc();
    assert!(rt; made(alloc, b"made\n")? == Ok(true));
    assert!(rt; made(alloc, b"declined\n")? == Ok(false));
    let neither = Err(AnswerError::NeitherMadeNorDeclined { line: 1 });
    assert!(rt; made(alloc, b"made\r\n")? == neither);
    assert!(rt; made(alloc, b"\n")? == neither);
    let why = LineError::Ended;
    assert!(rt; made(alloc, b"made")? == Err(AnswerError::Unread { line: 1, why }));
    Ok(())
}

#[test]
fn calls_are_answered(rt: HostRuntime) -> Result<(), Fail> {
    let alloc = rt.alloc();
    assert!(rt; count(alloc, b"\n".as_slice())? == Ok(0));
    assert!(rt; count(alloc, b"raise 1\nstart q s (sqr) none\n\n".as_slice())? == Ok(2));
    assert!(rt; count(alloc, Single::new(b"raise 1\nlock\n\n"))? == Ok(2));
    Ok(())
}

#[test]
fn other_lines_are_no_actions(rt: HostRuntime) -> Result<(), Fail> {
    let alloc = rt.alloc();
    let second = Err(AnswerError::NoAct { line: 2 });
    assert!(rt; count(alloc, b"lock\nraise  1\n\n".as_slice())? == second);
    assert!(rt; count(alloc, b"lock\nput p *\n\n".as_slice())? == second);
    assert!(rt; count(alloc, b"lock\nget \xff\n\n".as_slice())? == second);
    assert!(rt; count(alloc, b"lock\nraise 70000\n\n".as_slice())? == second);
    Ok(())
}

#[test]
fn an_answer_has_at_most_1000_actions(rt: HostRuntime) -> Result<(), Fail> {
    let alloc = rt.alloc();
    let most = locks(alloc, 1000)?;
    assert!(rt; count(alloc, most.as_slice())? == Ok(1000));
    let more = locks(alloc, 1001)?;
    assert!(rt; count(alloc, more.as_slice())? == Err(AnswerError::TooManyActs { line: 1001 }));
    Ok(())
}

#[test]
fn a_failure_in_mid_answer_is_reported(rt: HostRuntime) -> Result<(), Fail> {
    let alloc = rt.alloc();
    let ended = AnswerError::Unread {
        line: 2,
        why: LineError::Ended,
    };
    assert!(rt; count(alloc, b"lock\n".as_slice())? == Err(ended));
    let kinds = [ErrorKind::Other];
    let unreadable = AnswerError::Unread {
        line: 2,
        why: LineError::Unreadable,
    };
    assert!(rt; count(alloc, Broken::new(b"lock\nra", &kinds, b"ise 1\n"))? == Err(unreadable));
    Ok(())
}

#[test]
fn the_line_that_stops_an_answer_is_kept(rt: HostRuntime) -> Result<(), Fail> {
    let mut answers = AnswerReader::new(rt.alloc(), b"lock\nno action\n\nmade\n".as_slice())?;
    let error = answers.read_acts().err();
    assert!(rt; error == Some(AnswerError::NoAct { line: 2 }));
    assert!(rt; answers.last_line() == b"no action".as_slice() && answers.line_number() == 2);
    Ok(())
}
