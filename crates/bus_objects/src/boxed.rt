//! Objects that move to the heap at their first call.

ghost use Rattle.std.specs.Prelude.{◌≡◌, ℕ, List};

use std::alloc::{AllocError, Global};
use std::marker::Model;
use uvm_glob::Name;
use uvm_object::{Acts, Call, UvmObject};

/// An object type whose new objects are determined by their type name.
pub trait Fresh: UvmObject {
    ghost fresh: { List ℕ → Self };

    /// Returns the new object with this type name. Allocates no memory.
    fn fresh(alloc: Global, type_name: Name) -> Self
        ensures { result ≡ fresh type_name };

    // The type name of the new object is that name.
    ghost named: { (type_name : List ℕ) → Self.name (fresh type_name) ≡ type_name };
}

// An object before its first call, which its type name determines, or an object after its first call.
#[derive(Drop)]
enum BoxedState<O: Fresh> {
    New(Name),
    Called(Box<O>),
}

/// An object that is on the heap from its first call on. So an object with much state takes little space in an enum with smaller ones.
/// Contracts see the object itself.
#[derive(Drop)]
pub struct Boxed<O: Fresh> {
    state: BoxedState<O>,
}

impl<O: Fresh> Model for Boxed<O> {
    ghost use Rattle.bus_objects.specs.Boxed.{object_at};

    ghost Value = { O };

    ghost view = { λ b. object_at O.fresh b.state };
}

impl<O: Fresh> Boxed<O> {
    /// Returns the new object with this type name. Allocates no memory before the first call. If that call runs out of memory, the object
    /// stays new.
    pub fn new(type_name: Name) -> Boxed<O>
        ensures { result ≡ O.fresh type_name }
    {
        Boxed {
            state: BoxedState::New(type_name),
        }
    }
}

impl<O: Fresh> UvmObject for Boxed<O> {
    ghost view = { O.view };

    ghost name = { O.name };

    ghost says = { O.says };

    fn type_name(&self) -> &Name {
        match &self.state {
            BoxedState::New(type_name) => type_name,
            BoxedState::Called(object) => object.type_name(),
        }
    }

    fn hear(&mut self, alloc: Global, call: &Call) -> Result<Acts, AllocError> {
        match &mut self.state {
            BoxedState::New(type_name) => {
                let mut object = O::fresh(alloc, *type_name);
                let acts = object.hear(alloc, call)?;
                self.state = BoxedState::Called(Box::new(alloc, object)?);
                Ok(acts)
            }
            BoxedState::Called(object) => object.hear(alloc, call),
        }
    }
}
