//! The object `bus_mem_bad`.

ghost use Rattle.std.specs.Prelude.{◌≡◌};

use crate::boxed::{Boxed, Fresh};
use crate::memory::{Memory, Reading};
use std::alloc::{AllocError, Global};
use uvm_glob::Name;
use uvm_object::{Acts, Call, UvmObject};

/// A `bus_mem` whose reads are wrong. The data of a read's result is the word at its address with the lowest bit flipped. It is 1 if no
/// word was stored there.
///
/// View: the ticks, the kept item, and the stored words by address. A new object has 0 ticks, an item of zeros, and no words. It answers
/// every other call with no actions, as `BusMem` does.
#[derive(Drop)]
pub struct BusMemBad {
    type_name: Name,
    memory: Memory,
}

impl BusMemBad {
    ghost use Rattle.bus_objects.specs.BusMemBad.{bus_mem_bad_named};

    /// Returns a new object if `type_name` is `bus_mem_bad`, otherwise `None`. Allocates no memory.
    pub fn of_type(type_name: &Name) -> Option<Boxed<BusMemBad>>
        ensures { result ≡ bus_mem_bad_named type_name.now }
    {
        if type_name.as_bytes() == b"bus_mem_bad".as_slice() {
            Some(Boxed::new(*type_name))
        } else {
            None
        }
    }
}

impl Fresh for BusMemBad {
    ghost use Rattle.std.specs.Prelude.{refl};
    ghost use Rattle.bus_objects.specs.BusMemBad.{new_bus_mem_bad};

    ghost fresh = { new_bus_mem_bad };

    fn fresh(alloc: Global, type_name: Name) -> BusMemBad {
        BusMemBad {
            type_name,
            memory: Memory::new(alloc),
        }
    }

    ghost named = { λ _. refl };
}

impl UvmObject for BusMemBad {
    ghost use Rattle.bus_objects.specs.BusMemBad.{BusMemBadSays, bus_mem_bad_view};

    ghost view = { bus_mem_bad_view };

    ghost name = { λ bus_mem_bad. bus_mem_bad.type_name };

    ghost says = { λ _. BusMemBadSays };

    fn type_name(&self) -> &Name {
        &self.type_name
    }

    fn hear(&mut self, alloc: Global, call: &Call) -> Result<Acts, AllocError> {
        self.memory.hear(alloc, Reading::Flipped, call)
    }
}
