//! The sources of bytes.

use std::io;

/// A source of bytes, which returns them piece by piece, or fails. Each `io::Read` is a source, and may fail at any time.
///
/// `read_file` is proved for every source. It reports `Unread` only of a source that may fail. From a source that never fails it reads the
/// bytes, unless memory runs out.
pub trait Source {
    ghost use Rattle.std.specs.Prelude.{ℕ, List, OnErr, Option};
    ghost use Rattle.std.specs.Io.KnownBytes.{ReadConsumes};
    ghost use Rattle.std.specs.Io.{ReadsAtMost};

    /// The bytes that the source has left, if they are known.
    ghost remaining: { Self → Option (List ℕ) };

    /// The property that a read may fail, the next one or a later one. An interrupted read counts as a failure.
    ghost fails: { Self → Type 0 };

    /// Reads bytes into `piece` and returns their number. The number is 0 only at the end, or if `piece` is empty. On an error no byte was
    /// read. A source that cannot fail never becomes one that can.
    fn read_some(&mut self, piece: &mut [u8]) -> io::Result<usize>
        ensures bound { ReadsAtMost result piece.new }
        ensures bytes { ReadConsumes (remaining self.old) (remaining self.new) result piece.new }
        ensures failed { OnErr result (fails self.old) }
        ensures steady { fails self.new → fails self.old };
}

impl<R: io::Read> Source for R {
    ghost remaining = { R.remaining };

    ghost fails = { λ _. Unit {0} };

    fn read_some(&mut self, piece: &mut [u8]) -> io::Result<usize> {
        self.read(piece)
    }
}
