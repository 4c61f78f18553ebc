//! The slots of all objects: of a component by its node and its path, of a sequence by its number.

ghost use Rattle.std.specs.Prelude.{◌≡◌, ◌<◌, Contains, OnOk};
ghost use Rattle.std.specs.List.Sorted.{IsPermutation};
ghost use Rattle.std.specs.Map.{keys_of};
ghost use Rattle.bench_kernel.specs.Asked.{IsAsked};
ghost use Rattle.bench_kernel.specs.Seating.{IsFree, IsSeated, all_held};
ghost use Rattle.bench_kernel.specs.Seats.{paths_in};
ghost use Rattle.bench_kernel.specs.SequenceSeats.{AreRisingWithin};

use crate::{Seats, SequenceSeats};
use std::alloc::{AllocError, Global};
use uvm_glob::Path;
use uvm_object::{Acts, Call, UvmObject, Who};

// Reserves capacity for one more slot of each kind. Errors: out of memory. An error changes no slot.
pub(crate) fn reserve<O>(
    seats: &mut Seats<O>,
    sequences: &mut SequenceSeats<O>,
) -> Result<(), AllocError>
    ensures taken { seats.new.taken ≡ seats.old.taken }
    ensures held { sequences.new.held ≡ sequences.old.held }
    ensures count { sequences.new.count ≡ sequences.old.count }
    ensures seat_room { OnOk result (0 < seats.new.spare) }
    ensures sequence_room { OnOk result (0 < sequences.new.spare) }
{
    seats.reserve()?;
    sequences.reserve()
}

// Stores the object of a component, with its path, or of a sequence. Requires reserved capacity and a free slot. Allocates no memory.
pub(crate) fn seat<O>(
    seats: &mut Seats<O>,
    sequences: &mut SequenceSeats<O>,
    who: Who,
    path: Path,
    object: O,
)
    requires seat_room { 0 < seats.old.spare }
    requires sequence_room { 0 < sequences.old.spare }
    requires free { IsFree who seats.old.taken sequences.old }
    ensures { IsSeated who path object seats.old.taken seats.new.taken sequences.old sequences.new }
{
    match who {
        Who::Node(node) => seats.insert(node, path, object),
        Who::Sequence { id, home } => sequences.insert(id, home, object),
    }
}

// Calls the object of a component or a sequence that has a slot, and returns its answer. Errors: out of memory in the object.
pub(crate) fn hear<O: UvmObject>(
    seats: &mut Seats<O>,
    sequences: &mut SequenceSeats<O>,
    who: &Who,
    alloc: Global,
    call: &Call,
) -> Result<Acts, AllocError>
    requires sits { Contains (keys_of (all_held seats.old.taken sequences.old.held)) who.now }
    requires rising { AreRisingWithin 0 sequences.old.count (keys_of sequences.old.held) }
    ensures asked { IsAsked O.view O.name O.says who.now call.now result (all_held seats.old.taken sequences.old.held) (all_held seats.new.taken sequences.new.held) }
    ensures paths { IsPermutation (paths_in seats.old.taken) (paths_in seats.new.taken) }
    ensures keys { keys_of sequences.new.held ≡ keys_of sequences.old.held }
    ensures count { sequences.new.count ≡ sequences.old.count }
{
    match who {
        Who::Node(_) => seats.hear(who, alloc, call),
        Who::Sequence { .. } => sequences.hear(who, alloc, call),
    }
}
