//! The object `loud`.

ghost use Rattle.std.specs.Prelude.{◌≡◌};

use std::alloc::{AllocError, Global};
use uvm_glob::Name;
use uvm_object::{Acts, Call, UvmObject};
use uvm_phase::Phase;
use uvm_report::Text;

/// A component that reports three ERRORs in `build`, all with id `E`. Their texts are `one`, `two` and `three`, in this order.
///
/// View: always empty, since it has no state. It answers every other call with no actions.
#[derive(Drop)]
pub struct Loud {
    type_name: Name,
}

impl Loud {
    ghost use Rattle.bus_objects.specs.Loud.{loud_named};

    /// Returns a new object if `type_name` is `loud`, otherwise `None`.
    pub fn of_type(type_name: &Name) -> Option<Loud>
        ensures { result ≡ loud_named type_name.now }
    {
        if type_name.as_bytes() == b"loud".as_slice() {
            Some(Loud {
                type_name: *type_name,
            })
        } else {
            None
        }
    }
}

impl UvmObject for Loud {
    ghost use Rattle.bus_objects.specs.Loud.{LoudSays, loud_view};

    ghost view = { loud_view };

    ghost name = { λ loud. loud.type_name };

    ghost says = { λ _. LoudSays };

    fn type_name(&self) -> &Name {
        &self.type_name
    }

    fn hear(&mut self, alloc: Global, call: &Call) -> Result<Acts, AllocError> {
        let mut acts = Acts::new(alloc);
        if let Call::Phase(Phase::Build) = call {
            acts.error("E", Text::literal(alloc, "one")?)?;
            acts.error("E", Text::literal(alloc, "two")?)?;
            acts.error("E", Text::literal(alloc, "three")?)?;
        }
        Ok(acts)
    }
}
