//! Tests of how a file is read: to its end, or up to the limit of bytes.

use script_input::{Breakage, read_file};
use std::alloc::Global;
use std::io;
use std::io::{ErrorKind, Read};

// A reader that returns its results one after the other: a count of bytes, or a kind of error. It repeats the last one.
#[derive(Drop)]
struct Answers<'a> {
    left: &'a [Result<usize, ErrorKind>],
}

impl Read for Answers<'_> {
    fn read(&mut self, buf: &mut [u8]) -> io::Result<usize> {
        let Some((first, rest)) = self.left.split_first() else {
            return Ok(0);
        };
        if !rest.is_empty() {
            self.left = rest;
        }
        match first {
            Ok(count) => {
                let count = (*count).min(buf.len());
                buf[..count].fill(b'x');
                Ok(count)
            }
            Err(kind) => Err(io::Error::from(*kind)),
        }
    }
}

// Returns the result of `read_file`: the number of bytes, or its error.
fn read_answers(alloc: Global, answers: &[Result<usize, ErrorKind>]) -> Result<usize, Breakage> {
    let mut reader = Answers { left: answers };
    Ok(read_file(alloc, &mut reader)?.len())
}

// Returns whether `read_file` returns all bytes of a slice.
fn is_read_whole(alloc: Global, bytes: &[u8]) -> bool {
    let mut reader = bytes;
    match read_file(alloc, &mut reader) {
        Ok(read) => read.as_slice() == bytes,
        Err(_) => false,
    }
}

#[test]
fn a_slice_is_read_whole(rt: HostRuntime) {
    assert!(rt; is_read_whole(rt.alloc(), b"[bench]\n"));
}

#[test]
fn reads_end_as_the_reader_does(rt: HostRuntime) {
    let alloc = rt.alloc();
    let unread = Err(Breakage::Unread);
    let fails = Err(ErrorKind::Other);
    let interrupted = Err(ErrorKind::Interrupted);
    assert!(rt; read_answers(alloc, &[fails]) == unread);
    assert!(rt; read_answers(alloc, &[Ok(5), fails]) == unread);
    assert!(rt; read_answers(alloc, &[Ok(5), interrupted, Ok(2), Ok(0)]) == Ok(7));
    assert!(rt; read_answers(alloc, &[interrupted]) == unread);
    assert!(rt; read_answers(alloc, &[Ok(1)]) == Ok(1_048_577));
    assert!(rt; read_answers(alloc, &[Ok(usize::MAX)]) == Ok(1_048_577));
}
