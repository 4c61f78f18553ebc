//! The requests of sequences to a sequencer.

ghost use Rattle.std.specs.Prelude.{◌≡◌, filter};
ghost use Rattle.uvm_sequencer.specs.Sequencers.{is_live_at};
ghost use Rattle.uvm_sequencer.specs.Queues.{is_item, is_of, lock_in, priority_of, without};

use uvm_sequences::{SeqId, Sequences};

/// What a sequence requests.
#[derive(Clone, Copy, PartialEq, Eq)]
pub enum Want {
    /// Permission to send an item, with this priority, which is at least 1.
    Item(u16),
    /// A lock of the sequencer.
    Lock,
}

/// A request of a sequence, which waits at a sequencer.
#[derive(Clone, Copy, PartialEq, Eq)]
pub struct Request {
    /// The sequence.
    pub seq: SeqId,
    /// What it requests.
    pub want: Want,
}

impl Request {
    // Returns whether the request is for an item.
    pub(crate) fn is_item(&self) -> bool
        ensures { result ≡ is_item self.now }
    {
        match self.want {
            Want::Item(_) => true,
            Want::Lock => false,
        }
    }

    // Returns the priority of an item request; 0 for a lock request.
    pub(crate) fn priority(&self) -> u16
        ensures { result ≡ priority_of self.now }
    {
        match self.want {
            Want::Item(priority) => priority,
            Want::Lock => 0,
        }
    }

    // Returns the sequence of a lock request; `None` for an item request.
    pub(crate) fn lock(&self) -> Option<SeqId>
        ensures { result ≡ lock_in self.now }
    {
        match self.want {
            Want::Item(_) => None,
            Want::Lock => Some(self.seq),
        }
    }

    // Returns whether the request is of this sequence.
    fn is_of(&self, seq: SeqId) -> bool
        ensures { result ≡ is_of seq self.now }
    {
        self.seq == seq
    }
}

// Removes the requests of a sequence.
pub(crate) fn take_all(queue: &mut Vec<Request>, seq: SeqId)
    ensures { queue.new.items ≡ without seq queue.old.items }
{
    queue.retain(|request| !request.is_of(seq));
}

// Removes the requests of sequences that have ended.
pub(crate) fn keep_live(queue: &mut Vec<Request>, sequences: &Sequences)
    ensures { queue.new.items ≡ filter (λ request. is_live_at sequences.now.steps request.seq) queue.old.items }
{
    queue.retain(|request| sequences.is_live(request.seq));
}
