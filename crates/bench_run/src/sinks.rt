//! The destination of the text of a run.

use std::io;

/// A destination of text, which takes one whole text per call or refuses it. Each `io::Write` is a sink: it may refuse at any time, and does
/// not count its texts.
///
/// The contracts of a run hold for every sink. So `RunFault::Output` comes only from a sink that may refuse. If a sink counts its texts, the
/// contracts of a run state how many it takes.
pub trait Sink {
    ghost use Rattle.std.specs.Prelude.{ℕ, List, OnErr, OnOk, Option};
    ghost use Rattle.std.specs.Io.KnownBytes.{Appends};
    ghost use Rattle.bench_run.specs.Sinks.{TookMore};

    /// The bytes that the sink holds, if they are known.
    ghost contents: { Self → Option (List ℕ) };

    /// The number of texts that the sink has taken, if it counts them.
    ghost taken: { Self → Option ℕ };

    /// The property that the sink may refuse a text, the next one or a later one.
    ghost refuses: { Self → Type 0 };

    /// Writes a text. Errors: an I/O error, only if the sink may refuse; it is then unknown what was taken. A sink that never refuses stays one.
    fn put(&mut self, text: &[u8]) -> io::Result<()>
        ensures bytes { OnOk result (Appends (contents self.old) (contents self.new) text.now) }
        ensures count { OnOk result (TookMore 1 (taken self.old) (taken self.new)) }
        ensures refused { OnErr result (refuses self.old) }
        ensures steady { refuses self.new → refuses self.old };
}

impl<W: io::Write> Sink for W {
    ghost use Rattle.std.specs.Prelude.{None};

    ghost contents = { W.contents };

    ghost taken = { λ _. None };

    ghost refuses = { λ _. Unit {0} };

    fn put(&mut self, text: &[u8]) -> io::Result<()> {
        // If tracing is off most entries have no text. The writer is not called for an empty one.
        if text.is_empty() {
            return Ok(());
        }
        self.write_all(text)
    }
}
