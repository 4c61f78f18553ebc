//! Tests of the reading of lines.

use crate::readers::{Broken, Single};
use serve_answers::lines::{LineError, read_line};
use std::alloc::{AllocError, Global};
use std::io::{BufRead, ErrorKind};

// Returns whether the first line of a reader is `want`.
fn reads<R: BufRead>(alloc: Global, reader: &mut R, want: &[u8]) -> bool {
    let mut line = Vec::new(alloc);
    match read_line(reader, &mut line) {
        Ok(()) => line.as_slice() == want,
        Err(_) => false,
    }
}

// Returns the error of the first line of a reader if the bytes that were read are `want`; otherwise `None`.
fn fails<R: BufRead>(alloc: Global, reader: &mut R, want: &[u8]) -> Option<LineError> {
    let mut line = Vec::new(alloc);
    match read_line(reader, &mut line) {
        Ok(()) => None,
        Err(error) if line.as_slice() == want => Some(error),
        Err(_) => None,
    }
}

// Returns `count` bytes without a newline. Errors: out of memory.
fn long(alloc: Global, count: usize) -> Result<Vec<u8>, AllocError> {
    let mut text = Vec::new(alloc);
    text.resize(count, b'x')?;
    Ok(text)
}

// Returns `count` bytes, and then a newline and the line `end`. Errors: out of memory.
fn long_and_end(alloc: Global, count: usize) -> Result<Vec<u8>, AllocError> {
    let mut text = long(alloc, count)?;
    text.extend_from_slice(b"\nend\n")?;
    Ok(text)
}

#[test]
fn lines_are_read_one_after_another(rt: HostRuntime) {
    let mut text = b"one\n\ntwo\n".as_slice();
    assert!(rt; reads(rt.alloc(), &mut text, b"one"));
    assert!(rt; reads(rt.alloc(), &mut text, b""));
    assert!(rt; reads(rt.alloc(), &mut text, b"two"));
    assert!(rt; fails(rt.alloc(), &mut text, b"") == Some(LineError::Ended));
}

#[test]
fn single_bytes_make_a_line(rt: HostRuntime) {
    let mut text = Single::new(b"one\ntw");
    assert!(rt; reads(rt.alloc(), &mut text, b"one"));
    assert!(rt; fails(rt.alloc(), &mut text, b"tw") == Some(LineError::Ended));
}

#[test]
fn interrupted_reads_are_repeated(rt: HostRuntime) {
    let kinds = [ErrorKind::Interrupted, ErrorKind::Interrupted];
    let mut text = Broken::new(b"on", &kinds, b"e\n");
    assert!(rt; reads(rt.alloc(), &mut text, b"one"));
}

#[test]
fn a_failure_in_mid_line_is_reported(rt: HostRuntime) {
    let kinds = [ErrorKind::Other];
    let mut text = Broken::new(b"on", &kinds, b"e\n");
    assert!(rt; fails(rt.alloc(), &mut text, b"on") == Some(LineError::Unreadable));
    assert!(rt; reads(rt.alloc(), &mut text, b"e"));
}

#[test]
fn the_longest_line_has_4096_bytes(rt: HostRuntime) -> Result<(), AllocError> {
    let alloc = rt.alloc();
    let (line, text) = (long(alloc, 4096)?, long_and_end(alloc, 4096)?);
    let mut left = text.as_slice();
    assert!(rt; reads(alloc, &mut left, line.as_slice()));
    assert!(rt; reads(alloc, &mut left, b"end"));
    Ok(())
}

#[test]
fn the_rest_of_a_longer_line_is_left(rt: HostRuntime) -> Result<(), AllocError> {
    let alloc = rt.alloc();
    let (line, text) = (long(alloc, 4097)?, long_and_end(alloc, 5000)?);
    let mut left = text.as_slice();
    assert!(rt; fails(alloc, &mut left, line.as_slice()) == Some(LineError::TooLong));
    let rest = long(alloc, 903)?;
    assert!(rt; reads(alloc, &mut left, rest.as_slice()));
    Ok(())
}
