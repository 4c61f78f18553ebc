//! Writers that fail, or take few bytes.

use std::alloc::Global;
use std::io;
use std::io::{ErrorKind, Write};

/// A writer that takes a number of writes, of a limited number of bytes each, and fails at the next.
#[derive(Drop)]
pub(crate) struct Narrow {
    /// The number of writes that it still takes.
    pub(crate) writes: usize,
    most: usize,
    /// The bytes that it has taken.
    pub(crate) taken: Vec<u8>,
}

impl Narrow {
    /// Creates a writer that takes `writes` writes, each of at most `most` bytes.
    pub(crate) fn new(alloc: Global, writes: usize, most: usize) -> Narrow {
        Narrow {
            writes,
            most,
            taken: Vec::new(alloc),
        }
    }

    /// Creates a writer that takes `writes` writes of any length.
    pub(crate) fn failing(alloc: Global, writes: usize) -> Narrow {
        Narrow::new(alloc, writes, usize::MAX)
    }
}

impl Write for Narrow {
    fn write(&mut self, buf: &[u8]) -> io::Result<usize> {
        if self.writes == 0 {
            return Err(io::Error::from(ErrorKind::Other));
        }
        self.writes -= 1;
        let count = buf.len().min(self.most);
        match self.taken.extend_from_slice(&buf[..count]) {
            Ok(()) => Ok(count),
            Err(_) => Err(io::Error::from(ErrorKind::OutOfMemory)),
        }
    }

    fn flush(&mut self) -> io::Result<()> {
        Ok(())
    }
}
