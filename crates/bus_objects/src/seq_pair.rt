//! The object `seq_pair`.

ghost use Rattle.std.specs.Prelude.{◌≡◌};

use std::alloc::{AllocError, Global};
use uvm_glob::Name;
use uvm_object::{Acts, Call, UvmObject};

// The number of sequences that a `seq_pair` starts.
const CHILDREN: u8 = 2;

/// A sequence that starts two sequences, and ends when both have finished. In `pre_start` and `post_start` it only ends the step. In `body`
/// it starts a `seq_smoke` as `a`, with no priority given, and a `seq_burst` as `b` with priority 200. Both run on its own sequencer. When
/// the second of the two has finished (`finished`), it ends `body`.
///
/// View: how many of the two have finished, initially 0 and at most 2. It answers every other call, also the first `finished` and any
/// after the second, with no actions. Standard: IEEE 1800.2-2020, Clause 14.
#[derive(Drop)]
pub struct SeqPair {
    type_name: Name,
    // How many of these sequences have finished, at most `CHILDREN`.
    finished: u8,
}

impl SeqPair {
    ghost use Rattle.bus_objects.specs.SeqPair.{seq_pair_named};

    /// Returns a new object if `type_name` is `seq_pair`, otherwise `None`. None of its sequences has finished.
    pub fn of_type(type_name: &Name) -> Option<SeqPair>
        ensures { result ≡ seq_pair_named type_name.now }
    {
        if type_name.as_bytes() == b"seq_pair".as_slice() {
            Some(SeqPair {
                type_name: *type_name,
                finished: 0,
            })
        } else {
            None
        }
    }
}

impl UvmObject for SeqPair {
    ghost use Rattle.bus_objects.specs.SeqPair.{SeqPairSays, seq_pair_view};

    ghost view = { seq_pair_view };

    ghost name = { λ seq_pair. seq_pair.type_name };

    ghost says = { λ _. SeqPairSays };

    fn type_name(&self) -> &Name {
        &self.type_name
    }

    fn hear(&mut self, alloc: Global, call: &Call) -> Result<Acts, AllocError> {
        let mut acts = Acts::new(alloc);
        match call {
            Call::PreStart | Call::PostStart => acts.end_step()?,
            Call::Body => {
                acts.start("seq_smoke", "a", "", None)?;
                acts.start("seq_burst", "b", "", Some(200))?;
            }
            Call::Finished { .. } if self.finished < CHILDREN => {
                if self.finished + 1 == CHILDREN {
                    acts.end_step()?;
                }
                self.finished += 1;
            }
            _ => (),
        }
        Ok(acts)
    }
}
