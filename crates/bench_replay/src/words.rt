//! Random numbers that are known.

ghost use Rattle.std.specs.Prelude.{◌≡◌};

use rand_core::utils::NextWord;
use rand_core::{Rng, utils};
use std::marker::Model;

/// Random numbers that are known: those of a list, and then zeros. Contracts see the numbers that are left.
#[derive(Drop)]
pub struct KnownWords<'a> {
    left: &'a [u64],
}

impl<'a> Model for KnownWords<'a> {
    ghost use Rattle.std.specs.Prelude.{List, ℕ};

    ghost Value = { List ℕ };

    ghost view = { λ words. words.left.now };
}

impl<'a> KnownWords<'a> {
    /// Begins with the numbers of a list.
    pub fn new(left: &'a [u64]) -> KnownWords<'a>
        ensures { result ≡ left.now }
    {
        KnownWords { left }
    }
}

impl NextWord<u64> for KnownWords<'_> {
    ghost use Rattle.bench_replay.specs.KnownNumbers.{next_known};

    ghost step = { next_known };

    fn next_word(&mut self) -> u64 {
        let left = self.left;
        match left {
            [first, rest @ ..] => {
                self.left = rest;
                *first
            }
            [] => 0,
        }
    }
}

impl Rng for KnownWords<'_> {
    ghost use Rattle.rand_core.specs.Steps.{stream_of, steps_u64_low};
    ghost use Rattle.bench_replay.specs.KnownNumbers.{next_known};

    ghost stream = { stream_of (steps_u64_low next_known) };

    fn next_u32(&mut self) -> u32 {
        (self.next_word() & 0xffff_ffff) as u32
    }

    fn next_u64(&mut self) -> u64 {
        self.next_word()
    }

    fn fill_bytes(&mut self, dst: &mut [u8]) {
        utils::fill_bytes_via_u64(self, dst)
    }
}
