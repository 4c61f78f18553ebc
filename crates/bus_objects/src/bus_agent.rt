//! The object `bus_agent`.

ghost use Rattle.std.specs.Prelude.{◌≡◌};
ghost use Rattle.bus_objects.specs.BusAgent.{mode_of};

use std::alloc::{AllocError, Global};
use uvm_glob::Name;
use uvm_object::{Acts, Call, UvmObject};
use uvm_phase::Phase;
use uvm_sequencer::Mode;

/// A component that builds the sequencer, the driver and the monitor of the bus, and connects them. In `build` it looks up the field `arb`.
/// When the value comes (`config`), it adds the sequencer `sqr`. It then creates a `bus_driver` as `drv` and a `bus_monitor` as `mon`. The
/// value selects the arbitration mode of `sqr`: 1 `WEIGHTED`, 2 `RANDOM`, 3 `STRICT_FIFO`, 4 `STRICT_RANDOM`; any other value, or none,
/// selects `FIFO`. In `connect` it connects `drv.sqp` to `sqr` and `drv.ap` to `mon.bus`.
///
/// View: always empty, since it has no state. It answers every other call with no actions. Standard: IEEE 1800.2-2020, Annex C (the
/// field), Clause 15 (the sequencer), Clause 12 (the connections).
#[derive(Drop)]
pub struct BusAgent {
    type_name: Name,
}

impl BusAgent {
    ghost use Rattle.bus_objects.specs.BusAgent.{bus_agent_named};

    /// Returns a new object if `type_name` is `bus_agent`, otherwise `None`.
    pub fn of_type(type_name: &Name) -> Option<BusAgent>
        ensures { result ≡ bus_agent_named type_name.now }
    {
        if type_name.as_bytes() == b"bus_agent".as_slice() {
            Some(BusAgent {
                type_name: *type_name,
            })
        } else {
            None
        }
    }
}

impl UvmObject for BusAgent {
    ghost use Rattle.bus_objects.specs.BusAgent.{BusAgentSays, bus_agent_view};

    ghost view = { bus_agent_view };

    ghost name = { λ bus_agent. bus_agent.type_name };

    ghost says = { λ _. BusAgentSays };

    fn type_name(&self) -> &Name {
        &self.type_name
    }

    fn hear(&mut self, alloc: Global, call: &Call) -> Result<Acts, AllocError> {
        let mut acts = Acts::new(alloc);
        match call {
            Call::Phase(Phase::Build) => acts.get_config("arb")?,
            Call::Config { value, .. } => {
                acts.sequencer("sqr", mode_of(*value))?;
                acts.create("bus_driver", "drv")?;
                acts.create("bus_monitor", "mon")?;
            }
            Call::Phase(Phase::Connect) => {
                acts.connect("drv.sqp", "sqr")?;
                acts.connect("drv.ap", "mon.bus")?;
            }
            _ => (),
        }
        Ok(acts)
    }
}

// Returns the arbitration mode for the value of the field `arb`.
fn mode_of(value: Option<i64>) -> Mode
    ensures { result ≡ mode_of value }
{
    match value {
        Some(1) => Mode::Weighted,
        Some(2) => Mode::Random,
        Some(3) => Mode::StrictFifo,
        Some(4) => Mode::StrictRandom,
        _ => Mode::Fifo,
    }
}
