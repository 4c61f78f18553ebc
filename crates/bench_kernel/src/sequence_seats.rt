//! The slots of the objects of sequences.

ghost use Rattle.std.specs.Prelude.{◌^◌, ◌≡◌, ◌<◌, ◌≤◌, ◌+◌, ℕ, [], ◌∷◌, ◌++◌, length, Some, None, IsSome, Contains, slice_set, OnOk, IfSome, IfNone};
ghost use Rattle.std.specs.List.{slice_index_or};
ghost use Rattle.std.specs.List.Sorted.{IsPermutation};
ghost use Rattle.std.specs.Map.{keys_of};
ghost use Rattle.uvm_acts.specs.declared.acts.Who.TheVariants.{Sequence};
ghost use Rattle.bench_kernel.specs.Asked.{IsAsked};
ghost use Rattle.bench_kernel.specs.SequenceSeats.{AreRisingWithin, IsWithout};
ghost use Rattle.bench_kernel.specs.Numbered.{AreNumbered, IsLeft, key_of, place_of};

use slab::Slab;
use std::alloc::{AllocError, Global};
use std::marker::Model;
use uvm_object::{Acts, Call, UvmObject, Who};
use uvm_sequences::SeqId;
use uvm_tree::NodeId;

/// The slots of the held objects of sequences (IEEE 1800.2-2020, Clause 14). Contracts see the sequences with their objects in ascending
/// order of number, how many were ever stored, and the reserved capacity in slots. Only `reserve` allocates memory, and an object that is
/// called.
#[derive(Drop)]
pub struct SequenceSeats<O> {
    taken: Slab<SequenceSeat<O>>,
    // By number, from 1: the key of the slot, or `None` after the object was removed.
    keys: Vec<Option<usize>>,
    // No place before this one has a key, so returning all objects visits each place once.
    first: usize,
}

// A slot that is occupied by a sequence.
#[derive(Drop)]
struct SequenceSeat<O> {
    home: NodeId,
    id: SeqId,
    object: O,
}

impl<O> Model for SequenceSeats<O> {
    ghost use Rattle.std.specs.Prelude.{◌-◌, min, length, vec_len, vec_capacity};
    ghost use Rattle.slab.specs.Slab.{slab_len};
    ghost use Rattle.bench_kernel.specs.SequenceSeats.{SequenceSeatsValue};
    ghost use Rattle.bench_kernel.specs.Numbered.{AreSequenceSeats, sitters_in};

    ghost Value = { SequenceSeatsValue O };

    ghost view = { λ s. record { held = sitters_in s.taken s.keys.items; count = length s.keys.items; spare = min (s.taken.capacity - slab_len s.taken) (vec_capacity s.keys - vec_len s.keys) } };

    ghost invariant = { λ s. AreSequenceSeats s.taken s.keys.items s.first };
}

impl<O> SequenceSeats<O> {
    /// Creates the slots; none is occupied.
    pub fn new(alloc: Global) -> SequenceSeats<O>
        ensures held { result.held ≡ [] }
        ensures count { result.count ≡ 0 }
    {
        SequenceSeats {
            taken: Slab::new(alloc),
            keys: Vec::new(alloc),
            first: 0,
        }
    }

    /// Reserves capacity for one more slot. Errors: out of memory. An error changes no slot.
    pub fn reserve(&mut self) -> Result<(), AllocError>
        ensures held { self.new.held ≡ self.old.held }
        ensures count { self.new.count ≡ self.old.count }
        ensures room { OnOk result (0 < self.new.spare) }
    {
        self.taken.reserve(1)?;
        self.keys.reserve(1)
    }

    /// Stores the object of the sequence with the next number. Requires reserved capacity. Allocates no memory.
    pub fn insert(&mut self, id: SeqId, home: NodeId, object: O)
        requires room { 0 < self.old.spare }
        requires next { id ≡ self.old.count + 1 }
        ensures held { self.new.held ≡ self.old.held ++ (Sequence home id, object) ∷ [] }
        ensures count { self.new.count ≡ self.old.count + 1 }
    {
        let key = self
            .taken
            .insert_reserved(SequenceSeat { home, id, object });
        let Ok(()) = self.keys.push(Some(key)) else {
            unreachable!()
        };
    }

    /// Removes a sequence that has a slot, and returns its object. Allocates no memory. Cost: O(1).
    pub fn remove(&mut self, who: &Who) -> O
        requires { Contains (keys_of self.old.held) who.now }
        ensures without { IsWithout (who.now, result) self.old.held self.new.held }
        ensures held { IsPermutation ((who.now, result) ∷ self.new.held) self.old.held }
        ensures count { self.new.count ≡ self.old.count }
    {
        let _ = &self.keys;
        let Some(place) = place_of(who) else {
            unreachable!()
        };
        let Some((_, object)) = leave(&mut self.taken, &mut self.keys, place) else {
            unreachable!()
        };
        object
    }

    /// Removes the sequence with the least number and returns it with its object, or returns `None` if no slot is occupied. Allocates no
    /// memory. Cost: all calls together visit each place once.
    pub fn pop_first(&mut self) -> Option<(Who, O)>
        ensures some { IfSome result (λ back. self.old.held ≡ back ∷ self.new.held) }
        ensures none { IfNone result (self.old.held ≡ []) }
        ensures unchanged { IfNone result (self.new.held ≡ self.old.held) }
        ensures count { self.new.count ≡ self.old.count }
    {
        self.first = first_key(&self.keys, self.first);
        leave(&mut self.taken, &mut self.keys, self.first)
    }

    /// Returns the number of occupied slots. They are of sequences that were stored, in ascending order of number, so no sequence has two
    /// slots.
    pub fn len(&self) -> usize
        ensures len { result ≡ length self.now.held }
        ensures rising { AreRisingWithin 0 self.now.count (keys_of self.now.held) }
        ensures small { result < 2 ^ 63 }
    {
        let _places = self.keys.as_slice();
        self.taken.len()
    }
}

impl<O: UvmObject> SequenceSeats<O> {
    /// Calls the object of a sequence that has a slot, and returns its answer. Errors: out of memory in the object. Cost: O(1), apart from
    /// the object.
    pub fn hear(&mut self, who: &Who, alloc: Global, call: &Call) -> Result<Acts, AllocError>
        requires { Contains (keys_of self.old.held) who.now }
        ensures asked { IsAsked O.view O.name O.says who.now call.now result self.old.held self.new.held }
        ensures keys { keys_of self.new.held ≡ keys_of self.old.held }
        ensures count { self.new.count ≡ self.old.count }
    {
        let Some(key) = key_of(&self.keys, who) else {
            unreachable!()
        };
        match self.taken.get_mut(key) {
            Some(seat) => seat.object.hear(alloc, call),
            None => unreachable!(),
        }
    }
}

// Returns the place of a sequence, or `None` for a component or the number 0.
fn place_of(who: &Who) -> Option<usize>
    ensures { result ≡ place_of who.now }
{
    let Who::Sequence { id, .. } = who else {
        return None;
    };
    match id.number() {
        0 => None,
        number => Some(number as usize - 1),
    }
}

// Returns the key of the slot of a sequence, or `None` if it has none.
fn key_of(keys: &[Option<usize>], who: &Who) -> Option<usize>
    ensures { result ≡ key_of keys.now who.now }
{
    match place_of(who) {
        Some(place) if place < keys.len() => keys[place],
        _ => None,
    }
}

// Returns the first place at or after `from` that has a key, or the number of places if none has.
fn first_key(keys: &[Option<usize>], from: usize) -> usize
    requires within { from ≤ length keys.now }
    requires empty { (place : ℕ) → place < from → slice_index_or keys.now place None ≡ None }
    ensures within { result ≤ length keys.now }
    ensures empty { (place : ℕ) → place < result → slice_index_or keys.now place None ≡ None }
    ensures key { result < length keys.now → IsSome (slice_index_or keys.now result None) }
{
    for place in from..keys.len() {
        if keys[place].is_some() {
            return place;
        }
    }
    keys.len()
}

// Removes the key at a place and returns it, or returns `None` if there is none.
fn take_key(keys: &mut Vec<Option<usize>>, place: usize) -> Option<usize>
    ensures key { result ≡ slice_index_or keys.old.items place None }
    ensures keys { keys.new.items ≡ slice_set keys.old.items place None }
{
    if place >= keys.len() {
        return None;
    }
    let key = keys[place];
    keys[place] = None;
    key
}

// Empties the slot of a place and returns its sequence with the object, or returns `None` if the place has no key.
fn leave<O>(
    taken: &mut Slab<SequenceSeat<O>>,
    keys: &mut Vec<Option<usize>>,
    place: usize,
) -> Option<(Who, O)>
    requires { AreNumbered taken.old 1 keys.old.items }
    ensures some { IfSome result (λ back. IsLeft back taken.old taken.new keys.old.items place) }
    ensures none { IfNone result (slice_index_or keys.old.items place None ≡ None) }
    ensures unchanged { IfNone result (taken.new ≡ taken.old) }
    ensures keys { keys.new.items ≡ slice_set keys.old.items place None }
{
    let key = take_key(keys, place)?;
    let SequenceSeat { home, id, object } = taken.remove(key);
    Some((Who::Sequence { id, home }, object))
}
