//! Counted objects of a bench.

use script_jobs::BenchObject;
use script_objects::Answers;
use std::alloc::{AllocError, Global};
use test_fuzz_runs::{Behaviour, Ticket};
use uvm_glob::Name;
use uvm_object::{Acts, Call, UvmObject};

/// The behaviour of an object of a bench, with the ticket that counts it.
#[derive(Drop)]
pub(crate) struct Counted<'a> {
    object: BenchObject<'a>,
    ticket: Ticket,
}

impl<'a> Counted<'a> {
    /// Creates the behaviour of an object of the type `type_name`. Errors: out of memory.
    pub(crate) fn of_type(
        alloc: Global,
        answers: &'a Answers,
        ticket: Ticket,
        type_name: &Name,
    ) -> Result<Counted<'a>, AllocError> {
        let object = BenchObject::of_type(alloc, answers, type_name)?;
        Ok(Counted { object, ticket })
    }
}

impl Behaviour for Counted<'_> {
    fn ticket(&self) -> &Ticket {
        &self.ticket
    }
}

impl uvm_object::Answers for Counted<'_> {
    fn answer(&mut self, alloc: Global, call: &Call) -> Result<Acts, AllocError> {
        if !self.ticket.counts().take_answer() {
            self.ticket.fall_silent();
            return Err(AllocError);
        }
        self.object.hear(alloc, call)
    }
}
