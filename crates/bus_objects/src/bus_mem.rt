//! The object `bus_mem`.

ghost use Rattle.std.specs.Prelude.{◌≡◌};

use crate::boxed::{Boxed, Fresh};
use crate::memory::{Memory, Reading};
use std::alloc::{AllocError, Global};
use uvm_glob::Name;
use uvm_object::{Acts, Call, UvmObject};

/// A memory that performs the items of the bus. In `build` it adds the get port `req` and the put port `rsp`, and looks up the field
/// `waits`. When the value comes (`config`), it keeps the value as the number of ticks between an item and its result. This number is 2 if
/// the field has no value or a negative one. In `run` it takes an item through `req`. When the item comes (`taken`), it keeps the item and
/// waits for these ticks. When it wakes (`wake`), it performs the item and puts the result through `rsp`. When the result is stored
/// (`stored`), it takes the next item. An item has four integers: operation (1 write, any other number read), address, data, 0. A write
/// stores its data at its address, and its result is the item itself. The result of a read is the item with the word at its address as
/// data, 0 if none was stored.
///
/// View: the ticks, the kept item, and the stored words by address. A new object has 0 ticks, an item of zeros, and no words. It answers
/// every other call with no actions. Standard: IEEE 1800.2-2020, Clause 12 (the ports), Annex C (the field).
#[derive(Drop)]
pub struct BusMem {
    type_name: Name,
    memory: Memory,
}

impl BusMem {
    ghost use Rattle.bus_objects.specs.BusMem.{bus_mem_named};

    /// Returns a new object if `type_name` is `bus_mem`, otherwise `None`. Allocates no memory.
    pub fn of_type(type_name: &Name) -> Option<Boxed<BusMem>>
        ensures { result ≡ bus_mem_named type_name.now }
    {
        if type_name.as_bytes() == b"bus_mem".as_slice() {
            Some(Boxed::new(*type_name))
        } else {
            None
        }
    }
}

impl Fresh for BusMem {
    ghost use Rattle.std.specs.Prelude.{refl};
    ghost use Rattle.bus_objects.specs.BusMem.{new_bus_mem};

    ghost fresh = { new_bus_mem };

    fn fresh(alloc: Global, type_name: Name) -> BusMem {
        BusMem {
            type_name,
            memory: Memory::new(alloc),
        }
    }

    ghost named = { λ _. refl };
}

impl UvmObject for BusMem {
    ghost use Rattle.bus_objects.specs.BusMem.{BusMemSays, bus_mem_view};

    ghost view = { bus_mem_view };

    ghost name = { λ bus_mem. bus_mem.type_name };

    ghost says = { λ _. BusMemSays };

    fn type_name(&self) -> &Name {
        &self.type_name
    }

    fn hear(&mut self, alloc: Global, call: &Call) -> Result<Acts, AllocError> {
        self.memory.hear(alloc, Reading::Exact, call)
    }
}
