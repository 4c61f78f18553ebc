//! Counts of the objects of a bench.

use std::alloc::{AllocError, Global};
use std::cell::Cell;
use std::rc::Rc;

/// The counts that the objects of a bench share: how many are created and dropped, and how many answers are left to give.
#[derive(Drop)]
pub struct Counts {
    made: Cell<u64>,
    dropped: Cell<u64>,
    answers: Cell<u64>,
    is_silent: Cell<bool>,
    // The sum of the squares of the numbers of the dropped objects, modulo 2^64.
    squares: Cell<u64>,
}

/// The part of an object that counts it: when the ticket is created and when it is dropped.
pub struct Ticket {
    counts: Rc<Counts>,
    number: u64,
}

impl Counts {
    /// Creates the counts of a bench in which `answers` answers are left to give. Later changes of the counts allocate no memory. Errors:
    /// out of memory.
    pub fn new(alloc: Global, answers: u64) -> Result<Rc<Counts>, AllocError> {
        let counts = Counts {
            made: Cell::new(0),
            dropped: Cell::new(0),
            answers: Cell::new(answers),
            is_silent: Cell::new(false),
            squares: Cell::new(0),
        };
        Ok(Rc::new(alloc, counts)?)
    }

    /// Returns the number of objects that were created.
    pub fn made(&self) -> u64 {
        self.made.get()
    }

    /// Returns the number of objects that were dropped.
    pub fn dropped(&self) -> u64 {
        self.dropped.get()
    }

    /// Returns the number of answers that are left to give.
    pub fn answers(&self) -> u64 {
        self.answers.get()
    }

    /// Returns whether an object gave no answer.
    pub fn is_silent(&self) -> bool {
        self.is_silent.get()
    }

    /// Returns whether each created object was dropped once. It compares the number of dropped objects and the sum of the squares of their
    /// numbers.
    pub fn are_dropped(&self) -> bool {
        let mut squares = 0u64;
        for number in 0..self.made.get() {
            squares = squares.wrapping_add(number.wrapping_mul(number));
        }
        self.dropped.get() == self.made.get() && self.squares.get() == squares
    }

    /// Takes one of the answers that are left. Returns whether there was one.
    pub fn take_answer(&self) -> bool {
        match self.answers.get().checked_sub(1) {
            Some(left) => {
                self.answers.set(left);
                true
            }
            None => false,
        }
    }
}

impl Ticket {
    /// Creates the ticket of one more object, and counts the object. Allocates no memory. Errors: `AllocError` if the reference count of
    /// `counts` is at its limit. An error changes nothing.
    pub fn new(counts: &Rc<Counts>) -> Result<Ticket, AllocError> {
        let counts = counts.clone()?;
        let number = counts.made.get();
        counts.made.set(number.wrapping_add(1));
        Ok(Ticket { counts, number })
    }

    /// Returns the number of the object: how many were created before it.
    pub fn number(&self) -> u64 {
        self.number
    }

    /// Returns the counts that the object shares with the others.
    pub fn counts(&self) -> &Counts {
        &self.counts
    }

    /// Records that the object gives no answer.
    pub fn fall_silent(&self) {
        self.counts.is_silent.set(true);
    }
}

impl Drop for Ticket {
    fn drop(self) {
        let Ticket { counts, number } = self;
        counts.dropped.set(counts.dropped.get().wrapping_add(1));
        let square = number.wrapping_mul(number);
        counts
            .squares
            .set(counts.squares.get().wrapping_add(square));
    }
}
