//! The object `spinner`.

ghost use Rattle.std.specs.Prelude.{◌≡◌};

use std::alloc::{AllocError, Global};
use uvm_glob::Name;
use uvm_object::{Acts, Call, UvmObject};
use uvm_phase::Phase;

/// A component that waits for 0 ticks in `run`, and again each time it wakes (`wake`). So time never advances, and `run` never ends.
///
/// View: always empty, since it has no state. It answers every other call with no actions.
#[derive(Drop)]
pub struct Spinner {
    type_name: Name,
}

impl Spinner {
    ghost use Rattle.bus_objects.specs.Spinner.{spinner_named};

    /// Returns a new object if `type_name` is `spinner`, otherwise `None`.
    pub fn of_type(type_name: &Name) -> Option<Spinner>
        ensures { result ≡ spinner_named type_name.now }
    {
        if type_name.as_bytes() == b"spinner".as_slice() {
            Some(Spinner {
                type_name: *type_name,
            })
        } else {
            None
        }
    }
}

impl UvmObject for Spinner {
    ghost use Rattle.bus_objects.specs.Spinner.{SpinnerSays, spinner_view};

    ghost view = { spinner_view };

    ghost name = { λ spinner. spinner.type_name };

    ghost says = { λ _. SpinnerSays };

    fn type_name(&self) -> &Name {
        &self.type_name
    }

    fn hear(&mut self, alloc: Global, call: &Call) -> Result<Acts, AllocError> {
        let mut acts = Acts::new(alloc);
        match call {
            Call::Phase(Phase::Run) => acts.wait(0, 1)?,
            Call::Wake { .. } => acts.wait(0, 1)?,
            _ => (),
        }
        Ok(acts)
    }
}
