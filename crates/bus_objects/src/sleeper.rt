//! The object `sleeper`.

ghost use Rattle.std.specs.Prelude.{◌≡◌};
ghost use Rattle.bus_objects.specs.Sleeper.{shown, ticks_kept};

use crate::boxed::{Boxed, Fresh};
use std::alloc::{AllocError, Global};
use uvm_glob::Name;
use uvm_object::{Acts, Call, UvmObject};
use uvm_phase::Phase;

/// A component that keeps `run` from ending for a number of ticks. In `build` it looks up the field `at`. When the value comes (`config`),
/// it keeps the value as this number, which is 0 if the field has no value. In `run` it raises an objection and waits for these ticks. When
/// it wakes (`wake`), it drops the objection. If the value is negative, it raises the objection and does not wait, so the objection
/// remains.
///
/// View: the ticks, initially 0; empty if the value is negative. It answers every other call with no actions. Standard: IEEE 1800.2-2020,
/// Annex C (the field), Clause 10.5 (the objection).
#[derive(Drop)]
pub struct Sleeper {
    type_name: Name,
    // The number of ticks to wait in `run`; `None` if the value of the field is negative.
    ticks: Option<u64>,
}

impl Sleeper {
    ghost use Rattle.bus_objects.specs.Sleeper.{sleeper_named};

    /// Returns a new object, which keeps 0 ticks, if `type_name` is `sleeper`, otherwise `None`. Allocates no memory.
    pub fn of_type(type_name: &Name) -> Option<Boxed<Sleeper>>
        ensures { result ≡ sleeper_named type_name.now }
    {
        if type_name.as_bytes() == b"sleeper".as_slice() {
            Some(Boxed::new(*type_name))
        } else {
            None
        }
    }
}

impl Fresh for Sleeper {
    ghost use Rattle.std.specs.Prelude.{refl};
    ghost use Rattle.bus_objects.specs.Sleeper.{new_sleeper};

    ghost fresh = { new_sleeper };

    fn fresh(_alloc: Global, type_name: Name) -> Sleeper {
        Sleeper {
            type_name,
            ticks: Some(0),
        }
    }

    ghost named = { λ _. refl };
}

impl UvmObject for Sleeper {
    ghost use Rattle.bus_objects.specs.Sleeper.{SleeperSays, sleeper_view};

    ghost view = { sleeper_view };

    ghost name = { λ sleeper. sleeper.type_name };

    ghost says = { λ _. SleeperSays };

    fn type_name(&self) -> &Name {
        &self.type_name
    }

    fn hear(&mut self, alloc: Global, call: &Call) -> Result<Acts, AllocError> {
        let mut acts = Acts::new(alloc);
        match call {
            Call::Phase(Phase::Build) => acts.get_config("at")?,
            Call::Phase(Phase::Run) => {
                acts.raise_objection(1)?;
                if let Some(ticks) = self.ticks {
                    acts.wait(ticks, 1)?;
                }
            }
            Call::Config { value, .. } => self.ticks = ticks_kept(*value),
            Call::Wake { .. } => acts.drop_objection(1)?,
            _ => (),
        }
        Ok(acts)
    }
}

// Returns the ticks for the value of the field `at`: 0 if there is no value, `None` if it is negative.
fn ticks_kept(value: Option<i64>) -> Option<u64>
    ensures { shown result ≡ ticks_kept value }
{
    match value {
        None => Some(0),
        Some(value) if value.is_negative() => None,
        Some(value) => Some(value.unsigned_abs()),
    }
}
