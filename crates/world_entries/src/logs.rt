//! Appends entries to the log.

ghost use Rattle.std.specs.Prelude.{◌≡◌, ◌∷◌, ◌<◌, length, OnOk, OnErr, IsOk};

use std::alloc::AllocError;
use uvm_object::{Entry, Log};

/// Appends an entry to a log that is not full. Errors: out of memory, only if no capacity was reserved. An error leaves the entries
/// unchanged.
pub fn push(log: &mut Log, entry: Entry) -> Result<(), AllocError>
    requires { length log.old.entries < log.old.limit }
    ensures ok { OnOk result (log.new.entries ≡ entry ∷ log.old.entries) }
    ensures err { OnErr result (log.new.entries ≡ log.old.entries) }
    ensures limit { log.new.limit ≡ log.old.limit }
    ensures room { 0 < log.old.spare → IsOk result }
{
    match log.push(entry) {
        Ok(()) => Ok(()),
        Err(_) => Err(AllocError),
    }
}
