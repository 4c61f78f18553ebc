//! The calls that are due, each at its time.

ghost use Rattle.std.specs.Prelude.{◌≡◌, ◌==◌, ◌<◌, ◌≤◌, [], not, length, filter, drop, insert, slice_get, List, All, OnOk, OnErr, IsOk, IfSome, option_copied, false};
ghost use Rattle.std.specs.VecDeque.{deque_capacity, deque_len};
ghost use Rattle.uvm_phase.specs.Phases.{same_phase};
ghost use Rattle.uvm_phase.specs.Dues.{is_due_before, insert_due, capacity_of, IsInOrder};
ghost use Rattle.uvm_phase.specs.Owners.{CountsEach, HasAt, owners_of, times};

use crate::owners::{Key, Owned, Owners};
use crate::phases::Phase;
use std::alloc::{AllocError, Global};
use std::collections::VecDeque;
use std::hash::Hash;
use std::marker::Model;

/// The largest wait and the largest drain time, in ticks.
pub const MAX_TICKS: u64 = 1_000_000_000_000_000;

/// The cause of a call: one of the calls that an entry of the log requests.
#[derive(Clone, Copy, PartialEq, Eq)]
pub struct Cause {
    /// The index of the entry in the log, from 0.
    pub place: u32,
    /// The number of the call among those of that entry, from 0.
    pub number: u32,
}

/// A call that is due.
#[derive(Drop)]
pub struct Due<O, N> {
    /// The time at which the call is due, in ticks of simulated time.
    pub time: u64,
    /// The cause of the call. At the same time the calls of earlier causes come first.
    pub cause: Cause,
    /// The phase in which the call was requested; `Agenda::clear` removes the calls of a phase.
    pub phase: Phase,
    /// The receiver of the call; `Agenda::cancel` removes the calls of an owner.
    pub owner: O,
    /// The content of the call.
    pub notice: N,
}

impl<O, N> Due<O, N> {
    // Returns the time and the cause of the call.
    pub(crate) fn key(&self) -> Key {
        Key {
            time: self.time,
            place: self.cause.place,
            number: self.cause.number,
        }
    }

    // Returns whether this call comes due before another.
    #[tactic(auto, unfolding(crate::specs::Dues::is_due_before))]
    fn is_due_before(&self, other: &Due<O, N>) -> bool
        ensures { result ≡ is_due_before self.now other.now }
    {
        let (cause, others) = (self.cause, other.cause);
        self.time < other.time
            || (self.time == other.time
                && (cause.place < others.place
                    || (cause.place == others.place && cause.number < others.number)))
    }
}

/// The calls that are due while phases run (IEEE 1800.2-2020, Clause 9). They are ordered by time, then by the place of the cause, then by
/// its number, then by the order in which they were added. Contracts see the calls in this order, and the number of further calls for
/// which capacity is reserved. Cost for n calls: `due` is O(log n) comparisons and one move of the shorter side; `take_first` is O(1);
/// `clear` is O(n). The first `cancel`, and the first after each `clear`, is O(n). Any other `cancel` is O(1) if the owner has no call. If
/// the owner has one call and it was added last for this owner, `cancel` is O(log n) comparisons and one move. Otherwise it is O(n).
pub struct Agenda<O: Eq + Hash, N> {
    // The calls in the order in which they come due.
    dues: VecDeque<Due<O, N>>,
    // The number of calls of each owner, counted from the first `cancel` on, and again from the first after each `clear`.
    owners: Owners<O>,
}

// (Written by hand, so that the crates that use an agenda need no proof that its fields are dropped.)
impl<O: Eq + Hash + Drop, N: Drop> Drop for Agenda<O, N> {
    fn drop(self) {
        let Agenda { dues: _, owners: _ } = self;
    }
}

impl<O: Eq + Hash, N> Model for Agenda<O, N> {
    ghost use Rattle.std.specs.Prelude.{◌-◌};
    ghost use Rattle.std.specs.VecDeque.{deque_capacity, deque_len};
    ghost use Rattle.uvm_phase.specs.Dues.{AgendaValue, IsInOrder};
    ghost use Rattle.uvm_phase.specs.Owners.{CountsEach, owners_of};

    ghost Value = { AgendaValue O N };

    ghost view = { λ a. record { dues = a.dues.items; spare = deque_capacity a.dues - deque_len a.dues } };

    ghost invariant = { λ a. IsInOrder a.dues.items × CountsEach O.eq a.owners (owners_of a.dues.items) };
}

impl<O: Copy + Eq + Hash + Drop, N: Drop> Agenda<O, N> {
    /// Creates an agenda without calls and without reserved capacity.
    pub fn new(alloc: Global) -> Agenda<O, N>
        ensures { result.dues ≡ [] }
    {
        Agenda {
            dues: VecDeque::new(alloc),
            owners: Owners::new(alloc),
        }
    }

    /// Reserves capacity for a call: the next `due` then allocates no memory. Changes no call. Errors: out of memory, only if no capacity
    /// is reserved. Neither this function nor any other reduces the capacity.
    pub fn reserve(&mut self) -> Result<(), AllocError>
        ensures dues { self.new.dues ≡ self.old.dues }
        ensures spare { OnOk result (0 < self.new.spare) }
        ensures room { 0 < self.old.spare → IsOk result }
        ensures capacity { capacity_of self.old ≤ capacity_of self.new }
    {
        make_room(&mut self.dues, &mut self.owners)?;
        self.owners.reserve(1);
        Ok(())
    }

    /// Adds a call that is due at `time` ticks. Errors: out of memory, only if no capacity was reserved. An error adds nothing.
    pub fn due(
        &mut self,
        time: u64,
        cause: Cause,
        phase: Phase,
        owner: O,
        notice: N,
    ) -> Result<(), AllocError>
        ensures ok { OnOk result (self.new.dues ≡ insert_due (record { time = time; cause = cause; phase = phase; owner = owner; notice = notice }) self.old.dues) }
        ensures err { OnErr result (self.new.dues ≡ self.old.dues) }
        ensures room { 0 < self.old.spare → IsOk result }
        ensures capacity { capacity_of self.old ≤ capacity_of self.new }
    {
        make_room(&mut self.dues, &mut self.owners)?;
        let due = Due {
            time,
            cause,
            phase,
            owner,
            notice,
        };
        let (place, key) = (place_of(&self.dues, &due), due.key());
        self.dues.insert(place, due)?;
        self.owners.add(owner, key);
        Ok(())
    }

    /// Returns the allocator of the agenda.
    pub fn alloc(&self) -> Global {
        *self.dues.allocator()
    }

    /// Returns the call that comes due first, if there is one; the others follow in order. Allocates no memory.
    pub fn first(&self) -> Option<&Due<O, N>>
        ensures value { option_copied result ≡ slice_get self.now.dues 0 }
        ensures least { IfSome result (λ due. All (λ other. is_due_before other due.now ≡ false) self.now.dues) }
        ensures order { IsInOrder self.now.dues }
    {
        self.dues.front()
    }

    /// Removes the call that comes due first and returns it, if there is one. Allocates no memory; the capacity becomes free for another
    /// call.
    pub fn take_first(&mut self) -> Option<Due<O, N>>
        ensures value { result ≡ slice_get self.old.dues 0 }
        ensures rest { self.new.dues ≡ drop 1 self.old.dues }
        ensures capacity { capacity_of self.new ≡ capacity_of self.old }
    {
        let first = self.dues.pop_front()?;
        self.owners.subtract(&first.owner);
        Some(first)
    }

    /// Removes the calls of a phase. Allocates no memory; the capacity becomes free for as many other calls. Cost: O(n) for n calls.
    pub fn clear(&mut self, phase: Phase)
        ensures dues { self.new.dues ≡ filter (λ due. not (same_phase due.phase phase)) self.old.dues }
        ensures capacity { capacity_of self.new ≡ capacity_of self.old }
    {
        take_out_phase(&mut self.dues, phase);
        self.owners.forget();
    }

    /// Returns the number of calls. The contract also states their order: no call comes due before one that precedes it.
    pub fn len(&self) -> usize
        ensures count { result ≡ length self.now.dues }
        ensures order { IsInOrder self.now.dues }
    {
        self.dues.len()
    }

    /// Returns whether there are no calls.
    pub fn is_empty(&self) -> bool
        ensures { result ≡ (length self.now.dues == 0) }
    {
        self.dues.is_empty()
    }

    /// Removes the calls of an owner. Allocates no memory; the capacity becomes free for as many other calls. Cost for n calls: O(n) for
    /// the first `cancel` and for the first after each `clear`. Any other is O(1) if the owner has no call. If the owner's only call is
    /// the one added last for it, the cost is O(log n) comparisons and one move of the shorter side. Otherwise it is O(n): if the owner
    /// has several calls, or its one call is not the one added last. It is also O(n) if calls were added for more owners than could be
    /// counted without an allocation.
    pub fn cancel(&mut self, owner: &O)
        ensures dues { self.new.dues ≡ filter (λ due. not (O.eq due.owner owner.now)) self.old.dues }
        ensures capacity { capacity_of self.new ≡ capacity_of self.old }
    {
        if !self.owners.complete {
            take_out_owner(&mut self.dues, owner);
            self.owners.count_anew(&self.dues);
            return;
        }
        if let Some(owned) = self.owners.take(owner) {
            take_out_owned(&mut self.dues, owner, &owned);
        }
    }
}

// Reserves capacity for a call if there is none, and then for as many owners as for calls. Errors: out of memory for calls.
fn make_room<O: Copy + Eq + Hash + Drop, N: Drop>(
    dues: &mut VecDeque<Due<O, N>>,
    owners: &mut Owners<O>,
) -> Result<(), AllocError>
    ensures items { dues.new.items ≡ dues.old.items }
    ensures counts { (whose : List O) → CountsEach O.eq owners.old whose → CountsEach O.eq owners.new whose }
    ensures ok { OnOk result (deque_len dues.new < deque_capacity dues.new) }
    ensures room { deque_len dues.old < deque_capacity dues.old → IsOk result }
    ensures capacity { deque_capacity dues.old ≤ deque_capacity dues.new }
{
    if dues.len() < dues.capacity() {
        return Ok(());
    }
    dues.reserve(1)?;
    owners.reserve(dues.capacity() - dues.len());
    Ok(())
}

// Returns the index at which a new call is inserted: before the first call that comes due after it.
fn place_of<O, N>(dues: &VecDeque<Due<O, N>>, due: &Due<O, N>) -> usize
    requires { IsInOrder dues.now.items }
    ensures within { result ≤ deque_len dues.now }
    ensures place { insert dues.now.items result due.now ≡ insert_due due.now dues.now.items }
{
    dues.partition_point(|other| !due.is_due_before(other))
}

fn take_out_phase<O: Drop, N: Drop>(dues: &mut VecDeque<Due<O, N>>, phase: Phase)
    ensures left { dues.new.items ≡ filter (λ due. not (same_phase due.phase phase)) dues.old.items }
    ensures capacity { deque_capacity dues.new ≡ deque_capacity dues.old }
{
    dues.retain(|due| due.phase != phase);
}

fn take_out_owner<O: PartialEq + Drop, N: Drop>(dues: &mut VecDeque<Due<O, N>>, owner: &O)
    ensures left { dues.new.items ≡ filter (λ due. not (O.eq due.owner owner.now)) dues.old.items }
    ensures capacity { deque_capacity dues.new ≡ deque_capacity dues.old }
{
    dues.retain(|due| due.owner != *owner);
}

// Removes the calls of an owner, given their number.
fn take_out_owned<O: Eq + Drop, N: Drop>(dues: &mut VecDeque<Due<O, N>>, owner: &O, owned: &Owned)
    requires { owned.now.count ≡ times O.eq owner.now (owners_of dues.old.items) }
    ensures left { dues.new.items ≡ filter (λ due. not (O.eq due.owner owner.now)) dues.old.items }
    ensures capacity { deque_capacity dues.new ≡ deque_capacity dues.old }
{
    if owned.count == 1 {
        if let Some(place) = place_of_last(dues, owner, owned.last) {
            dues.remove(place);
            return;
        }
    }
    take_out_owner(dues, owner);
}

// Returns the index of the last call whose key is at most `last`, if that is a call of the owner. It is the owner's call with the key
// `last` if that call is still due and no call was added later with the same key.
fn place_of_last<O: Eq, N>(dues: &VecDeque<Due<O, N>>, owner: &O, last: Key) -> Option<usize>
    ensures { IfSome result (λ place. HasAt (λ due. O.eq due.owner owner.now) dues.now.items place) }
{
    let place = dues
        .partition_point(|due| due.key() <= last)
        .checked_sub(1)?;
    if dues[place].owner == *owner {
        Some(place)
    } else {
        None
    }
}
