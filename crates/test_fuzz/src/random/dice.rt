//! Random choices.

use rand_core::{Rng, SeedableRng};
use rand_pcg::Pcg32;

/// A source of random choices, which a seed determines.
#[derive(Drop)]
pub(crate) struct Dice {
    words: Pcg32,
}

impl Dice {
    /// Creates the source of random choices of `seed`.
    pub(crate) fn new(seed: u64) -> Dice {
        Dice {
            words: Pcg32::seed_from_u64(seed),
        }
    }

    /// Returns a random number below `count`, or 0 if `count` is 0.
    pub(crate) fn below(&mut self, count: u64) -> u64 {
        u64::from(self.words.next_u32())
            .checked_rem(count)
            .unwrap_or(0)
    }

    /// Returns whether something happens now that happens once in `times` times on average.
    pub(crate) fn one_in(&mut self, times: u64) -> bool {
        self.below(times) == 0
    }

    /// Returns a random one of `values`, or `other` if there are none.
    pub(crate) fn pick<T: Copy>(&mut self, values: &[T], other: T) -> T {
        let place = self.below(values.len() as u64);
        values.get(place as usize).copied().unwrap_or(other)
    }
}
