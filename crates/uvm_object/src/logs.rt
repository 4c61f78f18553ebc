//! The log of a run: its entries, up to a limit.

ghost use Rattle.std.specs.Prelude.{◌≡◌, ◌≢◌, ◌==◌, ◌↔◌, ◌∷◌, ◌<◌, ◌≤◌, [], length, reverse, nat_le, slice_get, Err, IsOk, OnOk, OnErr, option_copied};
ghost use Rattle.std.specs.Slice.Iter.{iter_rest};
ghost use Rattle.uvm_glob.specs.Lists.{newest};
ghost use Rattle.uvm_object.specs.Logs.{capacity_of};

use crate::entries::Entry;
use std::alloc::{AllocError, AllocFailed, Global};
use std::error::Error;
use std::marker::Model;
use std::{fmt, slice};

/// The reason why the log rejects an entry, in the order of the checks.
#[derive(Clone, Copy, Debug, PartialEq, Eq)]
pub enum LogFault {
    /// The limit of entries is reached.
    Full,
    /// Out of memory.
    Memory,
}

impl fmt::Display for LogFault {
    ghost use Rattle.std.specs.Prelude.{Some};
    ghost use Rattle.uvm_object.specs.Logs.{fault_text};

    ghost output = { λ fault. Some (fault_text fault) };

    fn fmt<W: fmt::Write>(&self, f: &mut fmt::Formatter<W>) -> fmt::Result {
        f.write_str(match self {
            LogFault::Full => "log full",
            LogFault::Memory => "out of memory",
        })
    }
}

impl Error for LogFault {}

impl<T: Drop> From<AllocFailed<T>> for LogFault {
    ghost use Rattle.std.specs.Prelude.{◌≡◌};
    ghost use Rattle.uvm_object.specs.declared.logs.LogFault.TheVariants.{Memory};

    ghost from_gives = { λ _ fault. fault ≡ Memory };

    fn from(_: AllocFailed<T>) -> LogFault {
        LogFault::Memory
    }
}

/// The entries of a run so far, up to a limit. In contracts it is a `LogValue`: the list of entries with the newest first, the limit, and the
/// number of further entries for which capacity is reserved. In that list the entries before an entry follow it.
pub struct Log {
    entries: Vec<Entry>,
    limit: u32,
}

// (Implemented by hand, so that dependent crates need no proof about the drop of its field.)
impl Drop for Log {
    fn drop(self) {
        let Log {
            entries: _,
            limit: _,
        } = self;
    }
}

impl Model for Log {
    ghost use Rattle.std.specs.Prelude.{◌-◌, ◌^◌, ◌<◌, ◌≤◌, reverse, vec_len, vec_capacity};
    ghost use Rattle.uvm_object.specs.Logs.{LogValue};

    ghost Value = { LogValue };

    ghost view = { λ l. record { entries = reverse l.entries.items; limit = l.limit; spare = vec_capacity l.entries - vec_len l.entries } };

    ghost invariant = { λ l. (vec_len l.entries ≤ l.limit) × (l.limit < 2 ^ 32) };
}

impl Log {
    /// Creates a log without entries and without reserved capacity. `limit` is the maximum number of entries.
    pub fn new(alloc: Global, limit: u32) -> Log
        ensures entries { result.entries ≡ [] }
        ensures limit { result.limit ≡ limit }
    {
        Log {
            entries: Vec::new(alloc),
            limit,
        }
    }

    /// Reserves capacity for one more entry, so that the next `push` allocates no memory. No reserved capacity is lost. Errors: out of memory,
    /// only if none was reserved. An error changes no entry.
    pub fn reserve(&mut self) -> Result<(), AllocError>
        ensures entries { self.new.entries ≡ self.old.entries }
        ensures limit { self.new.limit ≡ self.old.limit }
        ensures spare { OnOk result (0 < self.new.spare) }
        ensures room { 0 < self.old.spare → IsOk result }
        ensures kept { self.old.spare ≤ self.new.spare }
    {
        self.entries.reserve(1)
    }

    /// Appends an entry. Errors: `Full` if the limit is reached; `Memory` if out of memory, only if no capacity was reserved. An error changes
    /// no entry. No reserved capacity is lost, even on an error.
    pub fn push(&mut self, entry: Entry) -> Result<(), LogFault>
        ensures ok { OnOk result (self.new.entries ≡ entry ∷ self.old.entries) }
        ensures full { (result ≡ Err LogFault.Full) ↔ (self.old.limit ≤ length self.old.entries) }
        ensures room { 0 < self.old.spare → result ≢ Err LogFault.Memory }
        ensures err { OnErr result (self.new.entries ≡ self.old.entries) }
        ensures limit { self.new.limit ≡ self.old.limit }
        ensures capacity { capacity_of self.old ≤ capacity_of self.new }
    {
        if self.is_full() {
            return Err(LogFault::Full);
        }
        match self.entries.push(entry) {
            Ok(()) => Ok(()),
            Err(_) => Err(LogFault::Memory),
        }
    }

    /// Returns the maximum number of entries, as given to `new`. Allocates no memory.
    pub fn limit(&self) -> usize
        ensures { result ≡ self.now.limit }
    {
        self.limit as usize
    }

    /// Returns whether the limit is reached.
    pub fn is_full(&self) -> bool
        ensures { result ≡ nat_le self.now.limit (length self.now.entries) }
    {
        self.limit() <= self.entries.len()
    }

    /// Returns the number of entries.
    pub fn len(&self) -> usize
        ensures { result ≡ length self.now.entries }
    {
        self.entries.len()
    }

    /// Returns the place of the next entry, from 0, which is the number of entries. A full log accepts no further entry.
    pub fn next_place(&self) -> u32
        ensures { result ≡ length self.now.entries }
    {
        self.entries.len() as u32
    }

    /// Returns whether there are no entries.
    pub fn is_empty(&self) -> bool
        ensures { result ≡ (length self.now.entries == 0) }
    {
        self.entries.is_empty()
    }

    /// Returns the entry at a place, from 0 for the oldest; `None` if the place is not below the number of entries.
    pub fn get(&self, place: usize) -> Option<&Entry>
        ensures { option_copied result ≡ slice_get (reverse self.now.entries) place }
    {
        self.entries.get(place)
    }

    /// Returns the newest entry, if there is one.
    pub fn last(&self) -> Option<&Entry>
        ensures { option_copied result ≡ newest self.now.entries }
    {
        self.entries.last()
    }

    /// Returns an iterator over the entries, the oldest first. Allocates no memory.
    pub fn iter(&self) -> slice::Iter<'_, Entry>
        ensures { iter_rest result ≡ reverse self.now.entries }
    {
        self.entries.iter()
    }
}

/// Iterates over the entries, the oldest first.
impl<'a> IntoIterator for &'a Log {
    ghost use Rattle.std.specs.Prelude.{◌≡◌, reverse};
    ghost use Rattle.std.specs.Slice.Iter.{iter_rest};

    type Item = &'a Entry;

    type IntoIter = slice::Iter<'a, Entry>;

    ghost into_iter_gives = { λ log it. iter_rest it ≡ reverse log.now.entries };

    fn into_iter(self) -> slice::Iter<'a, Entry> {
        self.iter()
    }
}
