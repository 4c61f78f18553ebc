//! The object `seq_burst`.

ghost use Rattle.std.specs.Prelude.{◌≡◌};

use std::alloc::{AllocError, Global};
use uvm_glob::Name;
use uvm_object::{Act, Acts, Call, UvmObject};
use uvm_tlm::Item;

// The items that the sequence sends, in order: it writes two words and reads them back.
const ITEMS: [Item; 4] = [
    Item([1, 0, 20, 0]),
    Item([1, 1, 21, 0]),
    Item([0, 0, 0, 0]),
    Item([0, 1, 0, 0]),
];

/// A sequence that sends four items under a lock: it writes 20 at address 0 and 21 at address 1, then reads at both. In `pre_start` and
/// `post_start` it only ends the step. In `body` it requests a lock of its sequencer. When it holds the sequencer (`held`), it requests to
/// send an item. At each `grant` it sends the next of the items `[1,0,20,0]`, `[1,1,21,0]`, `[0,0,0,0]` and `[0,1,0,0]`. When the driver
/// has completed an item (`item_done`), it requests again if items are left. Otherwise it releases the lock and ends `body`.
///
/// View: the number of items that it has sent, initially 0. It answers a `grant` with no item left, and every other call, with no
/// actions. Standard: IEEE 1800.2-2020, Clause 14 (the steps), Clause 15 (lock, requests and items).
#[derive(Drop)]
pub struct SeqBurst {
    type_name: Name,
    // The number of items sent.
    sent: u8,
}

impl SeqBurst {
    ghost use Rattle.bus_objects.specs.SeqBurst.{seq_burst_named};

    /// Returns a new object, which has sent no item, if `type_name` is `seq_burst`, otherwise `None`.
    pub fn of_type(type_name: &Name) -> Option<SeqBurst>
        ensures { result ≡ seq_burst_named type_name.now }
    {
        if type_name.as_bytes() == b"seq_burst".as_slice() {
            Some(SeqBurst {
                type_name: *type_name,
                sent: 0,
            })
        } else {
            None
        }
    }
}

impl UvmObject for SeqBurst {
    ghost use Rattle.bus_objects.specs.SeqBurst.{SeqBurstSays, seq_burst_view};

    ghost view = { seq_burst_view };

    ghost name = { λ seq_burst. seq_burst.type_name };

    ghost says = { λ _. SeqBurstSays };

    fn type_name(&self) -> &Name {
        &self.type_name
    }

    fn hear(&mut self, alloc: Global, call: &Call) -> Result<Acts, AllocError> {
        let mut acts = Acts::new(alloc);
        match call {
            Call::PreStart | Call::PostStart => acts.end_step()?,
            Call::Body => acts.push(Act::Lock)?,
            Call::Held => acts.request(None)?,
            Call::Grant => {
                if let Some(item) = ITEMS.get(usize::from(self.sent)) {
                    acts.send(*item)?;
                    self.sent += 1;
                }
            }
            Call::ItemDone { .. } => {
                if usize::from(self.sent) < ITEMS.len() {
                    acts.request(None)?;
                } else {
                    acts.push(Act::Unlock)?;
                    acts.end_step()?;
                }
            }
            _ => (),
        }
        Ok(acts)
    }
}
