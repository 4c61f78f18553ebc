//! The object `seq_smoke`.

ghost use Rattle.std.specs.Prelude.{◌≡◌};

use std::alloc::{AllocError, Global};
use uvm_glob::Name;
use uvm_object::{Acts, Call, UvmObject};
use uvm_tlm::Item;

// The items that the sequence sends, in order: it writes a word and reads it back.
const ITEMS: [Item; 2] = [Item([1, 0, 10, 0]), Item([0, 0, 0, 0])];

/// A sequence that sends two items: it writes 10 at address 0, then reads there. In `pre_start` and `post_start` it only ends the step. In
/// `body` it requests to send an item. At each `grant` it sends the next of the items `[1,0,10,0]` and `[0,0,0,0]`. When the driver has
/// completed an item (`item_done`), it requests again if an item is left. Otherwise it ends `body`.
///
/// View: the number of items that it has sent, initially 0. It answers a `grant` with no item left, and every other call, with no
/// actions. Standard: IEEE 1800.2-2020, Clause 14 (the steps), Clause 15 (requests and items).
#[derive(Drop)]
pub struct SeqSmoke {
    type_name: Name,
    // The number of items sent.
    sent: u8,
}

impl SeqSmoke {
    ghost use Rattle.bus_objects.specs.SeqSmoke.{seq_smoke_named};

    /// Returns a new object, which has sent no item, if `type_name` is `seq_smoke`, otherwise `None`.
    pub fn of_type(type_name: &Name) -> Option<SeqSmoke>
        ensures { result ≡ seq_smoke_named type_name.now }
    {
        if type_name.as_bytes() == b"seq_smoke".as_slice() {
            Some(SeqSmoke {
                type_name: *type_name,
                sent: 0,
            })
        } else {
            None
        }
    }
}

impl UvmObject for SeqSmoke {
    ghost use Rattle.bus_objects.specs.SeqSmoke.{SeqSmokeSays, seq_smoke_view};

    ghost view = { seq_smoke_view };

    ghost name = { λ seq_smoke. seq_smoke.type_name };

    ghost says = { λ _. SeqSmokeSays };

    fn type_name(&self) -> &Name {
        &self.type_name
    }

    fn hear(&mut self, alloc: Global, call: &Call) -> Result<Acts, AllocError> {
        let mut acts = Acts::new(alloc);
        match call {
            Call::PreStart | Call::PostStart => acts.end_step()?,
            Call::Body => acts.request(None)?,
            Call::Grant => {
                if let Some(item) = ITEMS.get(usize::from(self.sent)) {
                    acts.send(*item)?;
                    self.sent += 1;
                }
            }
            Call::ItemDone { .. } => {
                if usize::from(self.sent) < ITEMS.len() {
                    acts.request(None)?;
                } else {
                    acts.end_step()?;
                }
            }
            _ => (),
        }
        Ok(acts)
    }
}
