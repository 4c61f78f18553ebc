//! The number of due calls of each owner.

ghost use Rattle.std.specs.Prelude.{◌≡◌, ◌<◌, ◌+◌, ◌^◌, ◌∷◌, List, true, false, not, filter, option_map};
ghost use Rattle.std.specs.HashMap.{spare};
ghost use Rattle.uvm_phase.specs.Owners.{CountsEach, count_at, counted, owners_of, times};

use crate::agendas::Due;
use std::alloc::Global;
use std::collections::{HashMap, VecDeque};
use std::hash::Hash;

/// The time at which a call is due, in ticks of simulated time, and the place and number of its cause. Keys are ordered as the calls come
/// due.
#[derive(Clone, Copy, PartialEq, Eq, PartialOrd, Ord)]
pub(crate) struct Key {
    pub time: u64,
    pub place: u32,
    pub number: u32,
}

/// The number of calls that are due for an owner, at least 1, and the key of the one that was added last. That call may no longer be due:
/// the key is only the first place to search.
#[derive(Clone, Copy)]
pub(crate) struct Owned {
    pub count: usize,
    pub last: Key,
}

/// The number of due calls of each owner; an owner without calls has no entry. The counts are incomplete, and mean nothing, until
/// `count_anew` is called. `forget` makes them incomplete, and so does `add` without capacity for a new owner.
#[derive(Drop)]
pub(crate) struct Owners<O: Eq + Hash> {
    pub counts: HashMap<O, Owned>,
    pub complete: bool,
}

impl<O: Copy + Eq + Hash + Drop> Owners<O> {
    // Creates counts that are incomplete, without capacity.
    pub(crate) fn new(alloc: Global) -> Owners<O>
        ensures { result.complete ≡ false }
    {
        Owners {
            counts: HashMap::new(alloc),
            complete: false,
        }
    }

    // Makes the counts incomplete until `count_anew` is called. Keeps the capacity.
    pub(crate) fn forget(&mut self)
        ensures { self.new ≡ record self.old { complete = false } }
    {
        self.complete = false;
    }

    // Reserves capacity for `additional` more owners. Does nothing if the allocation fails; the counts do not change in either case.
    pub(crate) fn reserve(&mut self, additional: usize)
        ensures counts { (owners : List O) → CountsEach O.eq self.old owners → CountsEach O.eq self.new owners }
        ensures complete { self.new.complete ≡ self.old.complete }
    {
        let _room = self.counts.reserve(additional);
    }

    // Counts one more call of an owner. Allocates no memory: if there is no capacity for a new owner, the counts become incomplete.
    pub(crate) fn add(&mut self, owner: O, last: Key)
        requires { self.old.complete ≡ true → count_at O.eq self.old owner + 1 < 2 ^ 64 }
        ensures counts { (owners : List O) → CountsEach O.eq self.old owners → CountsEach O.eq self.new (owner ∷ owners) }
        ensures complete { 0 < spare self.old.counts → self.new.complete ≡ self.old.complete }
    {
        if !self.complete {
            return;
        }
        if let Some(owned) = self.counts.get_mut(&owner) {
            owned.count += 1;
            owned.last = last;
            return;
        }
        if self.counts.len() == self.counts.capacity() {
            self.complete = false;
            return;
        }
        let first = Owned { count: 1, last };
        if let Err(_) = self.counts.insert(owner, first) {
            self.complete = false;
        }
    }

    // Counts one call less for an owner.
    pub(crate) fn subtract(&mut self, owner: &O)
        ensures counts { (owners : List O) → CountsEach O.eq self.old (owner.now ∷ owners) → CountsEach O.eq self.new owners }
        ensures complete { self.new.complete ≡ self.old.complete }
    {
        if !self.complete {
            return;
        }
        if let Some(owned) = self.counts.get_mut(owner) {
            if owned.count > 1 {
                owned.count -= 1;
                return;
            }
        }
        self.counts.remove(owner);
    }

    // Removes an owner from the counts and returns its count and last key, if it has calls.
    pub(crate) fn take(&mut self, owner: &O) -> Option<Owned>
        ensures count { (owners : List O) → CountsEach O.eq self.old owners → self.old.complete ≡ true → option_map (λ owned. owned.count) result ≡ counted (times O.eq owner.now owners) }
        ensures left { (owners : List O) → CountsEach O.eq self.old owners → CountsEach O.eq self.new (filter (λ other. not (O.eq other owner.now)) owners) }
        ensures complete { self.new.complete ≡ self.old.complete }
    {
        self.counts.remove(owner)
    }

    // Counts the calls of each owner again, from the calls themselves. Allocates no memory.
    pub(crate) fn count_anew<N>(&mut self, dues: &VecDeque<Due<O, N>>)
        ensures { CountsEach O.eq self.new (owners_of dues.now.items) }
    {
        self.counts.clear();
        self.complete = true;
        for due in dues {
            self.add(due.owner, due.key());
        }
    }
}
