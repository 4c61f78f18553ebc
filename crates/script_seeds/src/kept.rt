//! A sink that keeps what a run writes.

ghost use Rattle.std.specs.Prelude.{◌≡◌, []};

use bench_run::Sink;
use std::alloc::Global;
use std::io;

/// The text of a run. It refuses a text only if memory runs out.
#[derive(Drop)]
pub struct Kept {
    pub text: Vec<u8>,
}

impl Kept {
    /// Begins without a text.
    pub fn new(alloc: Global) -> Kept
        ensures { result.text.items ≡ [] }
    {
        Kept {
            text: Vec::new(alloc),
        }
    }
}

impl Sink for Kept {
    ghost use Rattle.std.specs.Prelude.{None, Some};

    ghost contents = { λ kept. Some kept.text.items };

    ghost taken = { λ _. None };

    ghost refuses = { λ _. Unit {0} };

    fn put(&mut self, text: &[u8]) -> io::Result<()> {
        self.text.extend_from_slice(text)?;
        Ok(())
    }
}
