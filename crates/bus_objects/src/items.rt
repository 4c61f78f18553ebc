//! The items of the bus.

ghost use Rattle.std.specs.Prelude.{◌≡◌, IfOk};
ghost use Rattle.bus_objects.specs.Items.{address_of, data_of, is_write, operation_text, transfer_text, with_data};

use std::alloc::{AllocError, Global};
use uvm_report::Text;
use uvm_tlm::Item;

// The operation of a write. Any other operation is a read.
const WRITE: i64 = 1;

// Returns whether the item is a write.
pub(crate) fn is_write(item: &Item) -> bool
    ensures { result ≡ is_write item.now }
{
    item.0[0] == WRITE
}

pub(crate) fn address_of(item: &Item) -> i64
    ensures { result ≡ address_of item.now }
{
    item.0[1]
}

pub(crate) fn data_of(item: &Item) -> i64
    ensures { result ≡ data_of item.now }
{
    item.0[2]
}

// Returns the item with this data.
pub(crate) fn with_data(item: &Item, word: i64) -> Item
    ensures { result ≡ with_data item.now word }
{
    let mut changed = *item;
    changed.0[2] = word;
    changed
}

// Returns the operation, the address and the data of an item as text, for example `write 16 -5`. Errors: out of memory.
pub(crate) fn transfer_text(alloc: Global, item: &Item) -> Result<Text, AllocError>
    ensures { IfOk result (λ text. text ≡ transfer_text item.now) }
{
    let operation = operation_text(item);
    let address = address_of(item);
    let datum = data_of(item);
    let text = format!(in alloc; "{operation} {address} {datum}")?;
    Text::lossy(alloc, text.as_str())
}

fn operation_text(item: &Item) -> &'static str
    ensures { result.now ≡ operation_text item.now }
{
    if is_write(item) { "write" } else { "read" }
}
