//! The slots of the objects of components.

ghost use Rattle.std.specs.Prelude.{◌^◌, ◌≡◌, ◌≢◌, ◌<◌, ◌∷◌, [], All, Contains, length, OnOk, IfSome, IfNone};
ghost use Rattle.std.specs.List.Sorted.{IsPermutation};
ghost use Rattle.std.specs.Map.{keys_of};
ghost use Rattle.uvm_acts.specs.declared.acts.Who.TheVariants.{Node};
ghost use Rattle.bench_kernel.specs.Asked.{IsAsked};
ghost use Rattle.bench_kernel.specs.Seats.{IsTakenOut, held_in, paths_in};

use slab::Slab;
use std::alloc::{AllocError, Global};
use std::cmp::Reverse;
use std::collections::{BinaryHeap, HashMap};
use std::marker::Model;
use uvm_glob::Path;
use uvm_object::{Acts, Call, UvmObject, Who};
use uvm_tree::NodeId;

/// The slots of the held objects of components. Contracts see the occupied slots in no order, each with its path, node and object, and the
/// reserved capacity in slots.
#[derive(Drop)]
pub struct Seats<O> {
    taken: Slab<Seat<O>>,
    // The keys of the slots by their nodes.
    components: HashMap<NodeId, usize>,
    // The keys of the slots by their paths: the first in pre-order is on top.
    down: BinaryHeap<(Reverse<Path>, usize)>,
}

// A slot that is occupied by the component at a node.
#[derive(Drop)]
struct Seat<O> {
    node: NodeId,
    object: O,
}

impl<O> Model for Seats<O> {
    ghost use Rattle.bench_kernel.specs.Seats.{SeatsValue};

    ghost Value = { SeatsValue O };

    ghost use Rattle.std.specs.BinaryHeap.{heap_items};
    ghost use Rattle.bench_kernel.specs.Places.{AreSeats, room_in, taken_in};

    ghost view = { λ s. record { taken = taken_in s.taken (heap_items s.down); spare = room_in s.taken s.components s.down } };

    ghost invariant = { λ s. AreSeats s.taken s.components.entries (heap_items s.down) };
}

impl<O> Seats<O> {
    /// Creates the slots; none is occupied.
    pub fn new(alloc: Global) -> Seats<O>
        ensures { result.taken ≡ [] }
    {
        Seats {
            taken: Slab::new(alloc),
            components: HashMap::new(alloc),
            down: BinaryHeap::new(alloc),
        }
    }

    /// Reserves capacity for one more slot. Errors: out of memory. An error changes no slot.
    pub fn reserve(&mut self) -> Result<(), AllocError>
        ensures taken { self.new.taken ≡ self.old.taken }
        ensures room { OnOk result (0 < self.new.spare) }
    {
        self.taken.reserve(1)?;
        self.components.reserve(1)?;
        self.down.reserve(1)
    }

    /// Stores the object of the component at a node, with its path. Requires reserved capacity, and that the node has no slot. Allocates no
    /// memory.
    pub fn insert(&mut self, node: NodeId, path: Path, object: O)
        requires room { 0 < self.old.spare }
        requires apart { All (λ other. other ≢ Node node) (keys_of (held_in self.old.taken)) }
        ensures { IsPermutation (record { path = path; node = node; object = object } ∷ self.old.taken) self.new.taken }
    {
        let key = self.taken.insert_reserved(Seat { node, object });
        let Ok(_) = self.components.insert(node, key) else {
            unreachable!()
        };
        let Ok(()) = self.down.push((Reverse(path), key)) else {
            unreachable!()
        };
    }

    /// Removes the first component in pre-order and returns it with its object, or returns `None` if no slot is occupied. Allocates no
    /// memory.
    pub fn pop_first(&mut self) -> Option<(Who, O)>
        ensures some { IfSome result (λ back. IsTakenOut back self.old.taken self.new.taken) }
        ensures none { IfNone result (self.old.taken ≡ []) }
        ensures unchanged { IfNone result (self.new.taken ≡ self.old.taken) }
    {
        let (_, key) = self.down.pop()?;
        let Seat { node, object } = self.taken.remove(key);
        self.components.remove(&node);
        Some((Who::Node(node), object))
    }

    /// Returns the number of occupied slots.
    pub fn len(&self) -> usize
        ensures len { result ≡ length self.now.taken }
        ensures small { result < 2 ^ 63 }
    {
        self.down.as_slice().len()
    }
}

impl<O: UvmObject> Seats<O> {
    /// Calls the object of a component that has a slot, and returns its answer. Errors: out of memory in the object.
    pub fn hear(&mut self, who: &Who, alloc: Global, call: &Call) -> Result<Acts, AllocError>
        requires { Contains (keys_of (held_in self.old.taken)) who.now }
        ensures asked { IsAsked O.view O.name O.says who.now call.now result (held_in self.old.taken) (held_in self.new.taken) }
        ensures paths { IsPermutation (paths_in self.old.taken) (paths_in self.new.taken) }
    {
        let Some(key) = self.components.get(&who.node()).copied() else {
            unreachable!()
        };
        match self.taken.get_mut(key) {
            Some(seat) => seat.object.hear(alloc, call),
            None => unreachable!(),
        }
    }
}
