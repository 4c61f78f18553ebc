//! Readers for the tests, as a program may have them: one delivers single bytes, and one fails.

use std::io;
use std::io::{BufRead, ErrorKind, Read};

/// A reader that delivers a text one byte at a time.
#[derive(Drop)]
pub struct Single<'a> {
    left: &'a [u8],
}

impl<'a> Single<'a> {
    pub fn new(text: &'a [u8]) -> Single<'a> {
        Single { left: text }
    }
}

impl Read for Single<'_> {
    fn read(&mut self, _buf: &mut [u8]) -> io::Result<usize> {
        Ok(0)
    }
}

impl BufRead for Single<'_> {
    fn fill_buf(&mut self) -> io::Result<&[u8]> {
        Ok(&self.left[..self.left.len().min(1)])
    }

    fn consume(&mut self, amount: usize) {
        self.left = &self.left[amount.min(self.left.len())..];
    }
}

/// A reader that delivers a text, then fails once with each of some kinds of error, and then delivers a second text.
#[derive(Drop)]
pub struct Broken<'a> {
    front: &'a [u8],
    kinds: &'a [ErrorKind],
    back: &'a [u8],
}

impl<'a> Broken<'a> {
    pub fn new(front: &'a [u8], kinds: &'a [ErrorKind], back: &'a [u8]) -> Broken<'a> {
        Broken { front, kinds, back }
    }
}

impl Read for Broken<'_> {
    fn read(&mut self, _buf: &mut [u8]) -> io::Result<usize> {
        Ok(0)
    }
}

impl BufRead for Broken<'_> {
    fn fill_buf(&mut self) -> io::Result<&[u8]> {
        if self.front.is_empty() {
            if let Some((kind, rest)) = self.kinds.split_first() {
                self.kinds = rest;
                return Err(io::Error::from(*kind));
            }
            self.front = self.back;
            self.back = b"".as_slice();
        }
        Ok(self.front)
    }

    fn consume(&mut self, amount: usize) {
        self.front = &self.front[amount.min(self.front.len())..];
    }
}
