//! The fault plan of a random run.

use crate::random::dice::Dice;
use crate::random::habits::Nature;
use crate::random::wild::Wild;
use std::alloc::{AllocError, Global};
use test_fuzz_runs::{FaultPlan, Ticket};
use uvm_glob::Name;

/// The fault plan of a seed. Now and then it aborts the run, steps the kernel once more, supplies an object of another type first, or
/// declines to supply an object.
#[derive(Drop)]
pub(crate) struct Moods {
    seed: u64,
    dice: Dice,
}

impl Moods {
    /// Creates the fault plan of `seed`.
    pub(crate) fn new(seed: u64) -> Moods {
        Moods {
            seed,
            dice: Dice::new(seed.wrapping_mul(31)),
        }
    }
}

impl FaultPlan<Wild> for Moods {
    fn behaviour(
        &mut self,
        _alloc: Global,
        ticket: Ticket,
        type_name: &Name,
    ) -> Result<Wild, AllocError> {
        Ok(Wild::new(ticket, Nature::of_type(type_name), self.seed))
    }

    fn abandons(&mut self) -> bool {
        self.dice.one_in(2000)
    }

    fn asks_again(&mut self) -> bool {
        self.dice.one_in(12)
    }

    fn other_type(&mut self, _needed: &Name) -> Option<Name> {
        match self.dice.one_in(12) {
            true => Some(Name::literal("other")),
            false => None,
        }
    }

    fn declines(&mut self) -> bool {
        self.dice.one_in(24)
    }
}
