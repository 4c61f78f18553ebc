//! The behavior that the memories of the bus share.

ghost use Rattle.std.specs.Prelude.{◌≡◌, IfOk, OnOk, OnErr};
ghost use Rattle.bus_objects.specs.Memory.{MemorySays, data_read, memory_acts, memory_after, memory_view, new_memory, result_of, waits_kept};

use crate::items::{address_of, is_write, with_data};
use crate::words::WordMap;
use std::alloc::{AllocError, Global};
use uvm_object::{Acts, Call};
use uvm_phase::Phase;
use uvm_tlm::{Item, PortKind};

// The number of ticks that a memory waits for if the field `waits` has no value or a negative one.
const USUAL_WAITS: u64 = 2;

// The data of the result of a read.
#[derive(Clone, Copy)]
pub(crate) enum Reading {
    // The stored word.
    Exact,
    // The stored word with its lowest bit flipped.
    Flipped,
}

impl Reading {
    // Returns the data of the result of a read, for the word at its address.
    fn data_read(self, word: i64) -> i64
        ensures { result ≡ data_read self word }
    {
        match self {
            Reading::Exact => word,
            Reading::Flipped => word ^ 1,
        }
    }
}

// The state of a memory, which takes an item, waits, performs the item, and puts its result.
#[derive(Drop)]
pub(crate) struct Memory {
    // The number of ticks between an item and its result.
    waits: u64,
    // The item that was taken last, initially four zeros.
    item: Item,
    words: WordMap,
}

impl Memory {
    pub(crate) fn new(alloc: Global) -> Memory
        ensures { result ≡ new_memory }
    {
        Memory {
            waits: 0,
            item: Item([0; 4]),
            words: WordMap::new(alloc),
        }
    }

    // Returns the actions that answer a call, and updates the memory. Errors: out of memory. An error changes nothing.
    pub(crate) fn hear(
        &mut self,
        alloc: Global,
        reading: Reading,
        call: &Call,
    ) -> Result<Acts, AllocError>
        ensures ok { IfOk result (λ acts. MemorySays reading (memory_view self.old) call.now acts (memory_view self.new)) }
        ensures err { OnErr result (self.new ≡ self.old) }
    {
        let acts = self.acts(alloc, reading, call)?;
        self.take_in(call)?;
        Ok(acts)
    }

    // Returns the actions that answer a call. Errors: out of memory.
    fn acts(&self, alloc: Global, reading: Reading, call: &Call) -> Result<Acts, AllocError>
        ensures { IfOk result (λ acts. acts ≡ memory_acts reading self.now call.now) }
    {
        let mut acts = Acts::new(alloc);
        match call {
            Call::Phase(Phase::Build) => {
                acts.port("req", PortKind::Get)?;
                acts.port("rsp", PortKind::Put)?;
                acts.get_config("waits")?;
            }
            Call::Phase(Phase::Run) | Call::Stored { .. } => acts.take("req")?,
            Call::Taken { .. } => acts.wait(self.waits, 1)?,
            Call::Wake { .. } => acts.put("rsp", self.result(reading))?,
            _ => (),
        }
        Ok(acts)
    }

    // Updates the memory for a call. Errors: out of memory. An error changes nothing.
    fn take_in(&mut self, call: &Call) -> Result<(), AllocError>
        ensures ok { OnOk result (self.new ≡ memory_after self.old call.now) }
        ensures err { OnErr result (self.new ≡ self.old) }
    {
        match call {
            Call::Config { value, .. } => self.waits = waits_kept(*value),
            Call::Taken { item, .. } => self.item = *item,
            Call::Wake { .. } => self.words.take_in(&self.item)?,
            _ => (),
        }
        Ok(())
    }

    // Returns the result of the kept item.
    fn result(&self, reading: Reading) -> Item
        ensures { result ≡ result_of reading self.now }
    {
        if is_write(&self.item) {
            self.item
        } else {
            let word = self.words.at(address_of(&self.item));
            with_data(&self.item, reading.data_read(word))
        }
    }
}

// Returns the ticks for the value of the field `waits`: 2 if there is no value or it is negative.
fn waits_kept(value: Option<i64>) -> u64
    ensures { result ≡ waits_kept value }
{
    match value {
        Some(value) if !value.is_negative() => value.unsigned_abs(),
        _ => USUAL_WAITS,
    }
}
