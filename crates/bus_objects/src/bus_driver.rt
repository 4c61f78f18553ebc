//! The object `bus_driver`.

ghost use Rattle.std.specs.Prelude.{◌≡◌};

use crate::driver::{driver_acts, put_item};
use std::alloc::{AllocError, Global};
use uvm_glob::Name;
use uvm_object::{Acts, Call, UvmObject};

/// A driver that passes items from a sequencer to a memory, and their results back. In `build` it adds the seq port `sqp`, the put port
/// `req`, the get port `rsp` and the analysis port `ap`. In `run` it requests an item through `sqp` (get_next_item). When an item comes
/// (`next_item`), it puts the item through `req`. When the item is stored (`stored`), it takes the result through `rsp`. When the result
/// comes (`taken`), it writes the result to `ap`. It then completes the item with the result as response (item_done), and requests the next
/// item.
///
/// View: always empty, since it has no state. It answers every other call, and a `next_item` without an item, with no actions. Standard:
/// IEEE 1800.2-2020, Clause 15 (the driver), Clause 12 (the ports).
#[derive(Drop)]
pub struct BusDriver {
    type_name: Name,
}

impl BusDriver {
    ghost use Rattle.bus_objects.specs.BusDriver.{bus_driver_named};

    /// Returns a new object if `type_name` is `bus_driver`, otherwise `None`.
    pub fn of_type(type_name: &Name) -> Option<BusDriver>
        ensures { result ≡ bus_driver_named type_name.now }
    {
        if type_name.as_bytes() == b"bus_driver".as_slice() {
            Some(BusDriver {
                type_name: *type_name,
            })
        } else {
            None
        }
    }
}

impl UvmObject for BusDriver {
    ghost use Rattle.bus_objects.specs.BusDriver.{BusDriverSays, bus_driver_view};

    ghost view = { bus_driver_view };

    ghost name = { λ bus_driver. bus_driver.type_name };

    ghost says = { λ _. BusDriverSays };

    fn type_name(&self) -> &Name {
        &self.type_name
    }

    fn hear(&mut self, alloc: Global, call: &Call) -> Result<Acts, AllocError> {
        match call {
            Call::NextItem {
                item: Some(item),
                ..
            } => put_item(alloc, *item),
            _ => driver_acts(alloc, call),
        }
    }
}
