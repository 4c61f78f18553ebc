//! The object `bus_monitor`.

ghost use Rattle.std.specs.Prelude.{◌≡◌};

use crate::items::transfer_text;
use std::alloc::{AllocError, Global};
use uvm_glob::Name;
use uvm_object::{Acts, Call, UvmObject};
use uvm_phase::Phase;
use uvm_report::verbosity;
use uvm_tlm::PortKind;

/// A monitor that reports the items that are written to it, and passes them on. In `build` it adds the imp `bus` and the analysis port
/// `ap`. When an item is written to the imp (`written`), it reports an INFO with id `MON` and verbosity 200. The text is
/// `write ADDRESS DATA` if the item's operation is 1, otherwise `read ADDRESS DATA`. It then writes the item to `ap`.
///
/// View: always empty, since it has no state. It answers every other call with no actions. Standard: IEEE 1800.2-2020, Clause 12 (imp and
/// port), Clause 6 (the report, of medium verbosity).
#[derive(Drop)]
pub struct BusMonitor {
    type_name: Name,
}

impl BusMonitor {
    ghost use Rattle.bus_objects.specs.BusMonitor.{bus_monitor_named};

    /// Returns a new object if `type_name` is `bus_monitor`, otherwise `None`.
    pub fn of_type(type_name: &Name) -> Option<BusMonitor>
        ensures { result ≡ bus_monitor_named type_name.now }
    {
        if type_name.as_bytes() == b"bus_monitor".as_slice() {
            Some(BusMonitor {
                type_name: *type_name,
            })
        } else {
            None
        }
    }
}

impl UvmObject for BusMonitor {
    ghost use Rattle.bus_objects.specs.BusMonitor.{BusMonitorSays, bus_monitor_view};

    ghost view = { bus_monitor_view };

    ghost name = { λ bus_monitor. bus_monitor.type_name };

    ghost says = { λ _. BusMonitorSays };

    fn type_name(&self) -> &Name {
        &self.type_name
    }

    fn hear(&mut self, alloc: Global, call: &Call) -> Result<Acts, AllocError> {
        let mut acts = Acts::new(alloc);
        match call {
            Call::Phase(Phase::Build) => {
                acts.imp("bus")?;
                acts.port("ap", PortKind::Analysis)?;
            }
            Call::Written { item, .. } => {
                acts.info("MON", transfer_text(alloc, item)?, verbosity::MEDIUM)?;
                acts.write("ap", *item)?;
            }
            _ => (),
        }
        Ok(acts)
    }
}
