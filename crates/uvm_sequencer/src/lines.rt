//! A list of requests that is cheap to change at both ends.

ghost use Rattle.std.specs.Prelude.{◌≡◌, ◌<◌, ◌≤◌, ◌+◌, ◌^◌, ◌∷◌, ◌++◌, [], drop, filter, length, remove, IfOk, OnErr, OnOk};
ghost use Rattle.std.specs.List.{slice_index_or};
ghost use Rattle.uvm_sequencer.specs.Queues.{without};
ghost use Rattle.uvm_sequencer.specs.Sequencers.{is_live_at};

use crate::requests::{self, Request, Want};
use std::alloc::{AllocError, Global};
use std::marker::Model;
use uvm_sequences::{SeqId, Sequences};

// Requests in order, in slots of which the first `free` are unused. Adding a request at the front moves the others only if no
// slot is free. Removing one there moves them only if more slots are then free than used.
#[derive(Drop)]
pub(crate) struct Line {
    slots: Vec<Request>,
    free: usize,
}

impl Model for Line {
    ghost use Rattle.std.specs.Prelude.{◌≤◌, List, drop, length};
    ghost use Rattle.uvm_sequencer.specs.declared.requests.Request.{Request};

    ghost Value = { List Request };

    ghost view = { λ l. drop l.free l.slots.items };

    ghost invariant = { λ l. l.free ≤ length l.slots.items };
}

impl Line {
    // Creates an empty line. Allocates no memory.
    pub(crate) fn new(alloc: Global) -> Line
        ensures { result ≡ [] }
    {
        Line {
            slots: Vec::new(alloc),
            free: 0,
        }
    }

    // Returns the number of requests.
    pub(crate) fn len(&self) -> usize
        ensures count { result ≡ length self.now }
        ensures small { length self.now < 2 ^ 63 }
    {
        self.slots.len() - self.free
    }

    // Returns the requests after the first `known`.
    pub(crate) fn behind(&self, known: usize) -> &[Request]
        requires { known ≤ length self.now }
        ensures value { result.now ≡ drop known self.now }
        ensures small { length self.now < 2 ^ 63 }
    {
        &self.slots[self.free + known..]
    }

    // Adds a request of a sequence at the end. Errors: out of memory. An error changes nothing.
    pub(crate) fn put_last(&mut self, seq: SeqId, want: Want) -> Result<(), AllocError>
        ensures ok { OnOk result (self.new ≡ self.old ++ record { seq = seq; want = want } ∷ []) }
        ensures err { OnErr result (self.new ≡ self.old) }
    {
        self.slots.push(Request { seq, want })?;
        Ok(())
    }

    // Adds a request of a sequence at the front. Errors: out of memory. An error changes nothing.
    pub(crate) fn put_first(&mut self, seq: SeqId, want: Want) -> Result<(), AllocError>
        ensures ok { OnOk result (self.new ≡ record { seq = seq; want = want } ∷ self.old) }
        ensures err { OnErr result (self.new ≡ self.old) }
    {
        let free = free_some(&mut self.slots, self.free, seq)?;
        self.free = free - 1;
        self.slots[free - 1] = Request { seq, want };
        Ok(())
    }

    // Removes and returns the request at a place. It moves the requests before that place or those after it, whichever are fewer.
    pub(crate) fn remove(&mut self, place: usize) -> Request
        requires { place < length self.old }
        ensures value { result ≡ slice_index_or self.old place result }
        ensures items { self.new ≡ remove self.old place }
        ensures len { length self.new + 1 ≡ length self.old }
    {
        let at = self.free + place;
        if self.slots.len() - at <= place {
            return self.slots.remove(at);
        }
        let request = self.slots[at];
        self.slots.copy_within(self.free..at, self.free + 1);
        self.free = close(&mut self.slots, self.free + 1);
        request
    }

    // Removes the requests of a sequence.
    pub(crate) fn take_all(&mut self, seq: SeqId)
        ensures { self.new ≡ without seq self.old }
    {
        close_all(&mut self.slots, self.free);
        self.free = 0;
        requests::take_all(&mut self.slots, seq);
    }

    // Removes the requests of sequences that have ended.
    pub(crate) fn keep_live(&mut self, sequences: &Sequences)
        ensures { self.new ≡ filter (λ request. is_live_at sequences.now.steps request.seq) self.old }
    {
        close_all(&mut self.slots, self.free);
        self.free = 0;
        requests::keep_live(&mut self.slots, sequences);
    }
}

// Makes slots free if none is, about half as many as are in use, and returns the number of free slots. Errors: out of memory. An
// error changes nothing.
fn free_some(slots: &mut Vec<Request>, free: usize, seq: SeqId) -> Result<usize, AllocError>
    requires { free ≤ length slots.old.items }
    ensures some { IfOk result (λ more. (0 < more) × (more ≤ length slots.new.items)) }
    ensures ok { IfOk result (λ more. drop more slots.new.items ≡ drop free slots.old.items) }
    ensures err { OnErr result (slots.new.items ≡ slots.old.items) }
{
    if free > 0 {
        return Ok(free);
    }
    let used = slots.len();
    let more = used / 2 + 1;
    let filler = Request {
        seq,
        want: Want::Lock,
    };
    slots.resize(used + more, filler)?;
    slots.rotate_right(more);
    Ok(more)
}

// Moves the used slots to the front if fewer are used than free, and returns the number of slots that are free then.
fn close(slots: &mut Vec<Request>, free: usize) -> usize
    requires { free ≤ length slots.old.items }
    ensures within { result ≤ length slots.new.items }
    ensures items { drop result slots.new.items ≡ drop free slots.old.items }
{
    if free <= slots.len() - free {
        return free;
    }
    close_all(slots, free);
    0
}

// Moves the used slots to the front, and removes the free ones.
fn close_all(slots: &mut Vec<Request>, free: usize)
    requires { free ≤ length slots.old.items }
    ensures { slots.new.items ≡ drop free slots.old.items }
{
    let used = slots.len() - free;
    slots.copy_within(free.., 0);
    slots.truncate(used);
}
