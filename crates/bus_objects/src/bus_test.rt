//! The object `bus_test`.

ghost use Rattle.std.specs.Prelude.{◌≡◌};

use std::alloc::{AllocError, Global};
use uvm_glob::Name;
use uvm_object::{Acts, Call, UvmObject};
use uvm_phase::Phase;

/// A test that runs a `seq_smoke` in the environment of the bus. In `build` it creates a `bus_env` as `env`. In `run` it raises an
/// objection, and starts a `seq_smoke` as `seq` on `env.agent.sqr`, with no priority given. When the sequence has finished (`finished`), it
/// drops the objection.
///
/// View: always empty, since it has no state. It answers every other call with no actions. Standard: IEEE 1800.2-2020, Clause 14 (the
/// sequence), Clause 10.5 (the objection).
#[derive(Drop)]
pub struct BusTest {
    type_name: Name,
}

impl BusTest {
    ghost use Rattle.bus_objects.specs.BusTest.{bus_test_named};

    /// Returns a new object if `type_name` is `bus_test`, otherwise `None`.
    pub fn of_type(type_name: &Name) -> Option<BusTest>
        ensures { result ≡ bus_test_named type_name.now }
    {
        if type_name.as_bytes() == b"bus_test".as_slice() {
            Some(BusTest {
                type_name: *type_name,
            })
        } else {
            None
        }
    }
}

impl UvmObject for BusTest {
    ghost use Rattle.bus_objects.specs.BusTest.{BusTestSays, bus_test_view};

    ghost view = { bus_test_view };

    ghost name = { λ bus_test. bus_test.type_name };

    ghost says = { λ _. BusTestSays };

    fn type_name(&self) -> &Name {
        &self.type_name
    }

    fn hear(&mut self, alloc: Global, call: &Call) -> Result<Acts, AllocError> {
        let mut acts = Acts::new(alloc);
        match call {
            Call::Phase(Phase::Build) => acts.create("bus_env", "env")?,
            Call::Phase(Phase::Run) => {
                acts.raise_objection(1)?;
                acts.start("seq_smoke", "seq", "env.agent.sqr", None)?;
            }
            Call::Finished { .. } => acts.drop_objection(1)?,
            _ => (),
        }
        Ok(acts)
    }
}
