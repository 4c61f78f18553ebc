//! The object `pulse`.

ghost use Rattle.std.specs.Prelude.{◌≡◌};

use std::alloc::{AllocError, Global};
use uvm_glob::Name;
use uvm_object::{Acts, Call, UvmObject};
use uvm_phase::Phase;

/// A component that raises and drops two objections, and raises the second before the first has drained. In `run` it sets a drain time of 5
/// ticks, raises an objection, and waits for 10 ticks with tag 1. At `wake 1` it drops the objection, and waits for 2 ticks with tag 2. At
/// `wake 2` it raises another objection, and waits for 8 ticks with tag 3. At `wake 3` it drops that objection.
///
/// View: always empty, since it has no state. It answers every other call, also a `wake` with another tag, with no actions. Standard:
/// IEEE 1800.2-2020, Clause 10.5.
#[derive(Drop)]
pub struct Pulse {
    type_name: Name,
}

impl Pulse {
    ghost use Rattle.bus_objects.specs.Pulse.{pulse_named};

    /// Returns a new object if `type_name` is `pulse`, otherwise `None`.
    pub fn of_type(type_name: &Name) -> Option<Pulse>
        ensures { result ≡ pulse_named type_name.now }
    {
        if type_name.as_bytes() == b"pulse".as_slice() {
            Some(Pulse {
                type_name: *type_name,
            })
        } else {
            None
        }
    }
}

impl UvmObject for Pulse {
    ghost use Rattle.bus_objects.specs.Pulse.{PulseSays, pulse_view};

    ghost view = { pulse_view };

    ghost name = { λ pulse. pulse.type_name };

    ghost says = { λ _. PulseSays };

    fn type_name(&self) -> &Name {
        &self.type_name
    }

    fn hear(&mut self, alloc: Global, call: &Call) -> Result<Acts, AllocError> {
        let mut acts = Acts::new(alloc);
        match call {
            Call::Phase(Phase::Run) => {
                acts.set_drain(5)?;
                acts.raise_objection(1)?;
                acts.wait(10, 1)?;
            }
            Call::Wake { tag: 1 } => {
                acts.drop_objection(1)?;
                acts.wait(2, 2)?;
            }
            Call::Wake { tag: 2 } => {
                acts.raise_objection(1)?;
                acts.wait(8, 3)?;
            }
            Call::Wake { tag: 3 } => acts.drop_objection(1)?,
            _ => (),
        }
        Ok(acts)
    }
}
