//! The queue of the requests that wait at a sequencer.

ghost use Rattle.std.specs.Prelude.{◌≡◌, ◌≤◌, ◌<◌, ◌+◌, ◌^◌, ◌∷◌, ◌++◌, [], Some, drop, false, filter, length, not, option_map, slice_get, true, IfNone, IfSome, OnErr, OnOk, OnSome};
ghost use Rattle.std.specs.List.{list_all, list_any};
ghost use Rattle.std.specs.Option.{option_and_then, IsSomeAnd};
ghost use Rattle.uvm_sequencer.specs.Queues.{AreSingle, is_item, is_item_of, is_lock_of, item_request, lock_in, lock_request, without, without_item, without_lock};
ghost use Rattle.uvm_sequencer.specs.Marks.{has_priority};
ghost use Rattle.uvm_sequencer.specs.Sequencers.{is_live_at};

use crate::lines::Line;
use crate::requests::{Request, Want};
use std::alloc::{AllocError, Global};
use std::collections::HashSet;
use std::marker::Model;
use uvm_sequences::{SeqId, Sequences};

// The requests in the order of the queue. Two sets show which sequences wait, without a scan of the requests.
#[derive(Drop)]
pub(crate) struct Queue {
    requests: Line,
    // The sequences whose item requests wait.
    items: HashSet<SeqId>,
    // The sequences whose lock requests wait.
    locks: HashSet<SeqId>,
}

impl Model for Queue {
    ghost use Rattle.std.specs.Prelude.{List};
    ghost use Rattle.uvm_sequencer.specs.declared.requests.Request.{Request};
    ghost use Rattle.uvm_sequencer.specs.Marks.{IsQueue};

    ghost Value = { List Request };

    ghost view = { λ q. q.requests };

    ghost invariant = { λ q. IsQueue q };
}

impl Queue {
    // Creates an empty queue. Allocates no memory.
    pub(crate) fn new(alloc: Global) -> Queue
        ensures { result ≡ [] }
    {
        Queue {
            requests: Line::new(alloc),
            items: HashSet::new(alloc),
            locks: HashSet::new(alloc),
        }
    }

    // Returns the requests in order.
    pub(crate) fn requests(&self) -> &[Request]
        ensures { result.now ≡ self.now }
    {
        self.requests.behind(0)
    }

    // Returns the number of requests. Each sequence has at most one item request and one lock request.
    pub(crate) fn len(&self) -> usize
        ensures count { result ≡ length self.now }
        ensures small { length self.now < 2 ^ 63 }
        ensures single { AreSingle self.now }
    {
        self.requests.len()
    }

    // Returns the requests after the first `known`.
    pub(crate) fn behind(&self, known: usize) -> &[Request]
        requires { known ≤ length self.now }
        ensures value { result.now ≡ drop known self.now }
        ensures priorities { list_all has_priority result.now ≡ true }
        ensures small { length self.now < 2 ^ 63 }
    {
        self.requests.behind(known)
    }

    // Returns whether an item request of a sequence waits.
    pub(crate) fn has_item(&self, seq: SeqId) -> bool
        ensures { result ≡ list_any (is_item_of seq) self.now }
    {
        self.items.contains(&seq)
    }

    // Returns whether a lock request of a sequence waits.
    pub(crate) fn has_lock(&self, seq: SeqId) -> bool
        ensures { result ≡ list_any (is_lock_of seq) self.now }
    {
        self.locks.contains(&seq)
    }

    // Returns whether each request is for an item.
    pub(crate) fn are_items(&self) -> bool
        ensures { result ≡ list_all is_item self.now }
    {
        self.locks.is_empty()
    }

    // Returns the sequence of the lock request at a place; `None` if there is no lock request at that place.
    pub(crate) fn lock_at(&self, place: usize) -> Option<SeqId>
        ensures { result ≡ option_and_then lock_in (slice_get self.now place) }
    {
        self.requests.behind(0).get(place)?.lock()
    }

    // Adds an item request at the end. Requires a priority of at least 1, and that no item request of the sequence waits. Errors:
    // out of memory. An error changes nothing.
    pub(crate) fn put_item(&mut self, seq: SeqId, priority: u16) -> Result<(), AllocError>
        requires priority { 0 < priority }
        requires fresh { list_any (is_item_of seq) self.old ≡ false }
        ensures ok { OnOk result (self.new ≡ self.old ++ item_request seq priority ∷ []) }
        ensures err { OnErr result (self.new ≡ self.old) }
    {
        self.items.reserve(1)?;
        self.requests.put_last(seq, Want::Item(priority))?;
        let Ok(_) = self.items.insert(seq) else {
            unreachable!()
        };
        Ok(())
    }

    // Adds a lock request at the end. Requires that no lock request of the sequence waits. Errors: out of memory. An error
    // changes nothing.
    pub(crate) fn put_lock(&mut self, seq: SeqId) -> Result<(), AllocError>
        requires { list_any (is_lock_of seq) self.old ≡ false }
        ensures ok { OnOk result (self.new ≡ self.old ++ lock_request seq ∷ []) }
        ensures err { OnErr result (self.new ≡ self.old) }
    {
        self.locks.reserve(1)?;
        self.requests.put_last(seq, Want::Lock)?;
        let Ok(_) = self.locks.insert(seq) else {
            unreachable!()
        };
        Ok(())
    }

    // Adds a lock request at the front. Requires that no lock request of the sequence waits. Errors: out of memory. An error
    // changes nothing.
    pub(crate) fn put_grab(&mut self, seq: SeqId) -> Result<(), AllocError>
        requires { list_any (is_lock_of seq) self.old ≡ false }
        ensures ok { OnOk result (self.new ≡ lock_request seq ∷ self.old) }
        ensures err { OnErr result (self.new ≡ self.old) }
    {
        self.locks.reserve(1)?;
        self.requests.put_first(seq, Want::Lock)?;
        let Ok(_) = self.locks.insert(seq) else {
            unreachable!()
        };
        Ok(())
    }

    // Removes the item request at a place and returns its sequence. Requires that there is an item request at that place.
    pub(crate) fn take_item(&mut self, place: usize) -> SeqId
        requires { IsSomeAnd (slice_get self.old place) (λ request. is_item request ≡ true) }
        ensures value { option_map (λ request. request.seq) (slice_get self.old place) ≡ Some result }
        ensures after { self.new ≡ without_item result self.old }
        ensures fewer { length self.new + 1 ≡ length self.old }
    {
        let seq = self.requests.remove(place).seq;
        self.items.remove(&seq);
        seq
    }

    // Removes the lock request at a place and returns its sequence. Returns `None` and changes nothing if there is no lock
    // request at that place.
    pub(crate) fn take_lock(&mut self, place: usize) -> Option<SeqId>
        ensures value { result ≡ option_and_then lock_in (slice_get self.old place) }
        ensures after { IfSome result (λ seq. self.new ≡ without_lock seq self.old) }
        ensures none { IfNone result (self.new ≡ self.old) }
        ensures fewer { OnSome result (length self.new + 1 ≡ length self.old) }
    {
        let seq = self.lock_at(place)?;
        self.requests.remove(place);
        self.locks.remove(&seq);
        Some(seq)
    }

    // Removes the requests of a sequence. The requests are not scanned if the sequence has none.
    pub(crate) fn leave(&mut self, seq: SeqId)
        ensures { self.new ≡ without seq self.old }
    {
        let had_item = self.items.remove(&seq);
        let had_lock = self.locks.remove(&seq);
        if had_item || had_lock {
            self.requests.take_all(seq);
        }
    }

    // Removes the requests of sequences that have ended.
    pub(crate) fn keep_live(&mut self, sequences: &Sequences)
        ensures { self.new ≡ filter (λ request. is_live_at sequences.now.steps request.seq) self.old }
    {
        self.requests.keep_live(sequences);
        keep_marks(&mut self.items, sequences);
        keep_marks(&mut self.locks, sequences);
    }
}

// Removes the sequences that have ended from a set of waiting sequences.
fn keep_marks(marks: &mut HashSet<SeqId>, sequences: &Sequences)
    ensures { marks.new.keys ≡ filter (is_live_at sequences.now.steps) marks.old.keys }
{
    marks.retain(|seq| sequences.is_live(*seq));
}
