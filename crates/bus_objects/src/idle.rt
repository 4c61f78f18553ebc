//! The object `idle`.

ghost use Rattle.std.specs.Prelude.{◌≡◌};

use std::alloc::{AllocError, Global};
use uvm_glob::Name;
use uvm_object::{Acts, Call, UvmObject};

/// An object that answers every call with no actions.
///
/// View: always empty, since it has no state.
#[derive(Drop)]
pub struct Idle {
    type_name: Name,
}

impl Idle {
    ghost use Rattle.bus_objects.specs.Idle.{idle_named};

    /// Returns a new object if `type_name` is `idle`, otherwise `None`.
    pub fn of_type(type_name: &Name) -> Option<Idle>
        ensures { result ≡ idle_named type_name.now }
    {
        if type_name.as_bytes() == b"idle".as_slice() {
            Some(Idle {
                type_name: *type_name,
            })
        } else {
            None
        }
    }
}

impl UvmObject for Idle {
    ghost use Rattle.bus_objects.specs.Idle.{IdleSays, idle_view};

    ghost view = { idle_view };

    ghost name = { λ idle. idle.type_name };

    ghost says = { λ _. IdleSays };

    fn type_name(&self) -> &Name {
        &self.type_name
    }

    fn hear(&mut self, alloc: Global, _call: &Call) -> Result<Acts, AllocError> {
        Ok(Acts::new(alloc))
    }
}
