//! The words that writes store, by address.

ghost use Rattle.std.specs.Prelude.{◌≡◌, [], OnOk, OnErr};
ghost use Rattle.bus_objects.specs.Words.{word_at, words_after};

use crate::items::{address_of, data_of, is_write};
use std::alloc::{AllocError, Global};
use std::collections::BTreeMap;
use std::marker::Model;
use uvm_tlm::Item;

// The words that writes store, by address. Contracts see the list of addresses and words, in ascending order of address.
#[derive(Drop)]
pub(crate) struct WordMap {
    words: BTreeMap<i64, i64>,
}

impl Model for WordMap {
    ghost use Rattle.bus_objects.specs.Words.{Words};

    ghost Value = { Words };

    ghost view = { λ m. m.words.entries };
}

impl WordMap {
    // Creates a map without words. Allocates no memory.
    pub(crate) fn new(alloc: Global) -> WordMap
        ensures { result ≡ [] }
    {
        WordMap {
            words: BTreeMap::new(alloc),
        }
    }

    // Returns the word at an address, or 0 if none was stored.
    pub(crate) fn at(&self, address: i64) -> i64
        ensures { result ≡ word_at self.now address }
    {
        self.words.get(&address).copied().unwrap_or(0)
    }

    // Stores the data of a write at its address. Does nothing for a read. Errors: out of memory. An error changes nothing.
    pub(crate) fn take_in(&mut self, item: &Item) -> Result<(), AllocError>
        ensures ok { OnOk result (self.new ≡ words_after item.now self.old) }
        ensures err { OnErr result (self.new ≡ self.old) }
    {
        if is_write(item) {
            self.words.insert(address_of(item), data_of(item))?;
        }
        Ok(())
    }
}
