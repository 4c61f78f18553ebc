//! The object `bus_env`.

ghost use Rattle.std.specs.Prelude.{◌≡◌};

use std::alloc::{AllocError, Global};
use uvm_glob::Name;
use uvm_object::{Acts, Call, UvmObject};
use uvm_phase::Phase;

/// The environment of the bus, which creates and connects its parts. In `build` it creates a `bus_agent` as `agent`, a `bus_mem` as `mem`
/// and a `bus_scoreboard` as `sb`. It then adds the FIFOs `reqf` and `rspf`, each with a capacity of one item. In `connect` it connects
/// `agent.drv.req` and `mem.req` to `reqf`, and `agent.drv.rsp` and `mem.rsp` to `rspf`. It also connects `agent.mon.ap` to `sb.seen`.
///
/// View: always empty, since it has no state. It answers every other call with no actions. Standard: IEEE 1800.2-2020, Clause 12 (the
/// FIFOs and connections).
#[derive(Drop)]
pub struct BusEnv {
    type_name: Name,
}

impl BusEnv {
    ghost use Rattle.bus_objects.specs.BusEnv.{bus_env_named};

    /// Returns a new object if `type_name` is `bus_env`, otherwise `None`.
    pub fn of_type(type_name: &Name) -> Option<BusEnv>
        ensures { result ≡ bus_env_named type_name.now }
    {
        if type_name.as_bytes() == b"bus_env".as_slice() {
            Some(BusEnv {
                type_name: *type_name,
            })
        } else {
            None
        }
    }
}

impl UvmObject for BusEnv {
    ghost use Rattle.bus_objects.specs.BusEnv.{BusEnvSays, bus_env_view};

    ghost view = { bus_env_view };

    ghost name = { λ bus_env. bus_env.type_name };

    ghost says = { λ _. BusEnvSays };

    fn type_name(&self) -> &Name {
        &self.type_name
    }

    fn hear(&mut self, alloc: Global, call: &Call) -> Result<Acts, AllocError> {
        let mut acts = Acts::new(alloc);
        match call {
            Call::Phase(Phase::Build) => {
                acts.create("bus_agent", "agent")?;
                acts.create("bus_mem", "mem")?;
                acts.create("bus_scoreboard", "sb")?;
                acts.fifo("reqf", 1)?;
                acts.fifo("rspf", 1)?;
            }
            Call::Phase(Phase::Connect) => {
                acts.connect("agent.drv.req", "reqf")?;
                acts.connect("agent.drv.rsp", "rspf")?;
                acts.connect("mem.req", "reqf")?;
                acts.connect("mem.rsp", "rspf")?;
                acts.connect("agent.mon.ap", "sb.seen")?;
            }
            _ => (),
        }
        Ok(acts)
    }
}
