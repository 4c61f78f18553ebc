//! The object `slow_driver`.

ghost use Rattle.std.specs.Prelude.{◌≡◌};

use crate::boxed::{Boxed, Fresh};
use crate::driver::{driver_acts, put_item};
use std::alloc::{AllocError, Global};
use uvm_glob::Name;
use uvm_object::{Acts, Call, UvmObject};
use uvm_tlm::Item;

/// A `bus_driver` that puts an item 3 ticks after the item came. When an item comes (`next_item`), it keeps the item and waits for 3 ticks.
/// When it wakes (`wake`), it puts the kept item through `req`.
///
/// View: the four integers of the kept item, initially zeros. It answers `build`, `run`, `stored` and `taken` as `BusDriver` does. It
/// answers every other call, and a `next_item` without an item, with no actions.
#[derive(Drop)]
pub struct SlowDriver {
    type_name: Name,
    // The last item that came, initially four zeros.
    item: Item,
}

impl SlowDriver {
    ghost use Rattle.bus_objects.specs.SlowDriver.{slow_driver_named};

    /// Returns a new object if `type_name` is `slow_driver`, otherwise `None`. Allocates no memory.
    pub fn of_type(type_name: &Name) -> Option<Boxed<SlowDriver>>
        ensures { result ≡ slow_driver_named type_name.now }
    {
        if type_name.as_bytes() == b"slow_driver".as_slice() {
            Some(Boxed::new(*type_name))
        } else {
            None
        }
    }
}

impl Fresh for SlowDriver {
    ghost use Rattle.std.specs.Prelude.{refl};
    ghost use Rattle.bus_objects.specs.SlowDriver.{new_slow_driver};

    ghost fresh = { new_slow_driver };

    fn fresh(_alloc: Global, type_name: Name) -> SlowDriver {
        SlowDriver {
            type_name,
            item: Item([0; 4]),
        }
    }

    ghost named = { λ _. refl };
}

impl UvmObject for SlowDriver {
    ghost use Rattle.bus_objects.specs.SlowDriver.{SlowDriverSays, slow_driver_view};

    ghost view = { slow_driver_view };

    ghost name = { λ slow_driver. slow_driver.type_name };

    ghost says = { λ _. SlowDriverSays };

    fn type_name(&self) -> &Name {
        &self.type_name
    }

    fn hear(&mut self, alloc: Global, call: &Call) -> Result<Acts, AllocError> {
        match call {
            Call::NextItem {
                item: Some(item),
                ..
            } => {
                let mut acts = Acts::new(alloc);
                acts.wait(3, 1)?;
                self.item = *item;
                Ok(acts)
            }
            Call::Wake { .. } => put_item(alloc, self.item),
            _ => driver_acts(alloc, call),
        }
    }
}
