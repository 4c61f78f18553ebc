//! The objects of a run.

ghost use Rattle.std.specs.Prelude.{◌≡◌, IfOk};
ghost use Rattle.script_jobs.specs.Objects.{object_named};

use bus_objects::BusObject;
use script_objects::{Answers, Scripted};
use std::alloc::{AllocError, Global};
use uvm_glob::Name;
use uvm_object::{Acts, Call, UvmObject};

/// An object of a run: a scripted object, whose answers are data, or an object of the bus bench. Its view and its relation are those of the
/// object that it holds.
#[derive(Drop)]
pub enum BenchObject<'a> {
    /// A scripted object, whose answers are data.
    Scripted(Scripted<'a>),
    /// An object of the bus bench.
    Bus(BusObject),
}

impl<'a> BenchObject<'a> {
    /// Creates the object of a type. If the type has answers, the object gives them. Otherwise it is the object of the bus bench, if that has
    /// the type. Otherwise it answers every call with no actions. Errors: out of memory.
    pub fn of_type(
        alloc: Global,
        answers: &'a Answers,
        type_name: &Name,
    ) -> Result<BenchObject<'a>, AllocError>
        ensures { IfOk result (λ object. object ≡ object_named answers.now type_name.now) }
    {
        if let Some(rules) = answers.of_type(type_name) {
            return Ok(BenchObject::Scripted(Scripted::new(alloc, type_name, rules)?));
        }
        match BusObject::of_type(type_name) {
            Some(object) => Ok(BenchObject::Bus(object)),
            None => Ok(BenchObject::Scripted(Scripted::new(alloc, type_name, &[])?)),
        }
    }
}

impl UvmObject for BenchObject<'_> {
    ghost use Rattle.script_jobs.specs.Objects.{name_of, says_of, view_of};

    ghost view = { view_of };

    ghost name = { name_of };

    ghost says = { says_of };

    fn type_name(&self) -> &Name {
        match self {
            BenchObject::Scripted(scripted) => scripted.type_name(),
            BenchObject::Bus(object) => object.type_name(),
        }
    }

    fn hear(&mut self, alloc: Global, call: &Call) -> Result<Acts, AllocError> {
        match self {
            BenchObject::Scripted(scripted) => scripted.hear(alloc, call),
            BenchObject::Bus(object) => object.hear(alloc, call),
        }
    }
}
