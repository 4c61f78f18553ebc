//! The holders of a sequencer.

ghost use Rattle.std.specs.Prelude.{◌≡◌, ◌≤◌, ◌<◌, ◌+◌, ◌==◌, ◌∷◌, ◌++◌, [], All, filter, is_some, length, IfSome, OnErr, OnOk};
ghost use Rattle.std.specs.Bool.{OnFalse};
ghost use Rattle.uvm_sequencer_holders.specs.Runs.{Holds, held_by, less_by};
ghost use Rattle.uvm_sequencer_holders.specs.Holding.{all_released, is_blocked, is_held, is_live_at, released};

use std::alloc::{AllocError, Global};
use std::marker::Model;
use uvm_sequences::{SeqId, Sequences};

// A sequence that holds the sequencer, and the number of locks that it was granted in succession.
#[derive(Clone, Copy)]
pub(crate) struct Held {
    pub seq: SeqId,
    pub times: usize,
}

/// The holders of a sequencer, in the order of granting. In contracts, the value is a list with one holder for each lock, and for
/// how many more locks there is reserved capacity. Cost: a scan of the holders takes one step for all locks that a sequence was
/// granted in succession.
#[derive(Drop)]
pub struct Holders {
    runs: Vec<Held>,
}

impl Model for Holders {
    ghost use Rattle.std.specs.Prelude.{◌-◌, All, length, vec_capacity};
    ghost use Rattle.std.specs.Bool.{OnFalse};
    ghost use Rattle.uvm_sequencer_holders.specs.Holding.{HoldersValue};
    ghost use Rattle.uvm_sequencer_holders.specs.Runs.{Holds, held_by};

    ghost Value = { HoldersValue };

    ghost view = { λ h. record { list = held_by h.runs.items; spare = vec_capacity h.runs - length h.runs.items } };

    ghost invariant = { λ h. All Holds h.runs.items };
}

impl Holders {
    /// Creates an empty list of holders. Allocates no memory.
    pub fn new(alloc: Global) -> Holders
        ensures { result.list ≡ [] }
    {
        Holders {
            runs: Vec::new(alloc),
        }
    }

    /// Reserves capacity for `more` locks. Errors: out of memory. An error changes no holder.
    pub fn reserve(&mut self, more: usize) -> Result<(), AllocError>
        ensures list { self.new.list ≡ self.old.list }
        ensures ok { OnOk result (more ≤ self.new.spare) }
        ensures kept { self.old.spare ≤ self.new.spare }
    {
        self.runs.reserve(more)
    }

    /// Adds a lock of a sequence. Requires reserved capacity for it.
    pub fn push(&mut self, seq: SeqId)
        requires { 0 < self.old.spare }
        ensures list { self.new.list ≡ self.old.list ++ seq ∷ [] }
        ensures spare { self.old.spare ≤ self.new.spare + 1 }
    {
        let count = self.runs.len();
        if count > 0 {
            let last = self.runs[count - 1];
            if last.seq == seq && last.times < usize::MAX {
                let times = last.times + 1;
                self.runs[count - 1] = Held { seq, times };
                return;
            }
        }
        let Ok(()) = self.runs.push(Held { seq, times: 1 }) else {
            unreachable!()
        };
    }

    /// Removes the latest lock of a sequence. Returns whether there was one.
    pub fn release(&mut self, seq: SeqId) -> bool
        ensures held { result ≡ is_held seq self.old.list }
        ensures list { self.new.list ≡ released seq self.old.list }
        ensures none { OnFalse result (self.new ≡ self.old) }
        ensures spare { self.old.spare ≤ self.new.spare }
    {
        let Some((place, times)) = last_run(self.runs.as_slice(), seq) else {
            return false;
        };
        if times > 1 {
            let times = times - 1;
            self.runs[place] = Held { seq, times };
        } else {
            self.runs.remove(place);
        }
        true
    }

    /// Removes all locks of a sequence.
    pub fn release_all(&mut self, seq: SeqId)
        ensures list { self.new.list ≡ all_released seq self.old.list }
        ensures spare { self.old.spare ≤ self.new.spare }
    {
        self.runs.retain(|held| held.seq != seq);
    }

    /// Removes the locks of all sequences that have ended.
    pub fn keep_live(&mut self, sequences: &Sequences)
        ensures list { self.new.list ≡ filter (is_live_at sequences.now.steps) self.old.list }
        ensures spare { self.old.spare ≤ self.new.spare }
    {
        self.runs.retain(|held| sequences.is_live(held.seq));
    }

    /// Returns whether there are no holders.
    pub fn is_empty(&self) -> bool
        ensures { result ≡ (length self.now.list == 0) }
    {
        self.runs.is_empty()
    }

    /// Returns whether a sequence holds a lock.
    pub fn holds(&self, seq: SeqId) -> bool
        ensures { result ≡ is_held seq self.now.list }
    {
        last_run(self.runs.as_slice(), seq).is_some()
    }

    /// Returns whether some holder is neither the sequence itself nor one of its ancestors.
    pub fn is_blocked(&self, sequences: &Sequences, seq: SeqId) -> bool
        ensures { result ≡ is_blocked sequences.now.started self.now.list seq }
    {
        self.runs
            .iter()
            .any(|held| !sequences.is_under(seq, held.seq))
    }
}

// Returns the place of the last entry of a sequence and the number of its locks; `None` if the sequence has no entry.
fn last_run(runs: &[Held], seq: SeqId) -> Option<(usize, usize)>
    requires { All Holds runs.now }
    ensures held { is_some result ≡ is_held seq (held_by runs.now) }
    ensures within { IfSome result (λ last. (last.0 < length runs.now) × (0 < last.1)) }
    ensures rest { released seq (held_by runs.now) ≡ less_by seq runs.now result }
{
    let place = runs.iter().rposition(|held| held.seq == seq)?;
    Some((place, runs[place].times))
}
