//! FIFOs, and the puts, takes and peeks that wait at them.

ghost use Rattle.std.specs.Prelude.{◌≡◌, ◌==◌, ◌≤◌, ◌++◌, [], true, None, not, filter, length, slice_get, IsTrue, ◌↔◌, OnOk, OnErr, IfOk, if◌then◌else◌};
ghost use Rattle.std.specs.VecDeque.{deque_len};
ghost use Rattle.uvm_tlm.specs.Fifos.{new_fifo, with_item, with_put, with_take, with_peek, without_item, waiting_count, has_room, can_put, can_take, take_move, put_move, next_move, after_move, cleared};

use crate::items::Item;
use std::alloc::{AllocError, Global};
use std::collections::VecDeque;
use std::marker::Model;
use uvm_tree::NodeId;

/// The owner of a put, take or peek, which was requested in a phase.
pub trait InPhase: Copy {
    ghost use Rattle.std.specs.Prelude.{ℕ};

    /// The number of the phase of the request.
    ghost phase_of: { Self → ℕ };

    /// Returns the number of the phase of the request.
    fn phase_number(&self) -> u8
        ensures { result ≡ phase_of self.now };
}

/// The port through which a put, take or peek was requested, and the phase of the request.
#[derive(Clone, Copy, PartialEq, Eq)]
pub struct Owner {
    /// The node of the port.
    pub node: NodeId,
    /// The number of the phase.
    pub phase: u8,
}

impl InPhase for Owner {
    ghost phase_of = { λ owner. owner.phase };

    fn phase_number(&self) -> u8 {
        self.phase
    }
}

/// The kind of a move.
#[derive(Clone, Copy, PartialEq, Eq)]
pub enum MoveKind {
    /// The completion of a put: its item enters the FIFO.
    Put,
    /// The completion of a take: it removes the first item.
    Take,
    /// The completion of a peek: it reads the first item, which stays in the FIFO.
    Peek,
}

/// A move of a FIFO: the completion of one waiting put, take or peek, whose wait then ends.
#[derive(Clone, Copy, PartialEq, Eq)]
pub struct Move<O = Owner> {
    /// The kind of the move.
    pub kind: MoveKind,
    /// The owner of the request that waited.
    pub owner: O,
    /// The item that is put, taken or read.
    pub item: Item,
}

/// A put that waits until the FIFO is not full.
#[derive(Clone, Copy, PartialEq, Eq)]
pub struct WaitingPut<O = Owner> {
    /// The owner of the request.
    pub owner: O,
    /// The item to put.
    pub item: Item,
}

/// A take or a peek that waits for an item.
#[derive(Clone, Copy, PartialEq, Eq)]
pub struct WaitingTake<O = Owner> {
    /// The owner of the request.
    pub owner: O,
    /// Whether this is a peek, which leaves the item in the FIFO.
    pub peeks: bool,
}

/// A FIFO (IEEE 1800.2-2020, 12.2.8): its items, and the puts, takes and peeks that wait, each list in order of arrival. A put,
/// take or peek waits until `settle` makes its move. Each call of `settle` ends at most one wait. Each request has an owner of the
/// type `O`, which its move returns.
///
/// In contracts, the value is the size, the items, the waiting puts, and the waiting takes and peeks. Cost: each call takes
/// constant time, except `clear_waiting`, and except a call that moves the stored elements to a larger allocation.
pub struct Fifo<O = Owner> {
    // The maximum number of items; 0 if there is no limit.
    size: u16,
    items: VecDeque<Item>,
    // The capacity of `items` is large enough for the items of these puts too.
    puts: VecDeque<WaitingPut<O>>,
    takes: VecDeque<WaitingTake<O>>,
}

// (Written by hand, so that crates that use a FIFO need no proof about the drop of its fields.)
impl<O: Drop> Drop for Fifo<O> {
    fn drop(self) {
        let Fifo {
            size: _,
            items: _,
            puts: _,
            takes: _,
        } = self;
    }
}

impl<O> Model for Fifo<O> {
    ghost use Rattle.std.specs.Prelude.{◌+◌, ◌≤◌};
    ghost use Rattle.std.specs.VecDeque.{deque_len, deque_capacity};
    ghost use Rattle.uvm_tlm.specs.Fifos.{FifoValue};

    ghost Value = { FifoValue O };

    ghost view = { λ f. record { size = f.size; items = f.items.items; puts = f.puts.items; takes = f.takes.items } };

    ghost invariant = { λ f. deque_len f.items + deque_len f.puts ≤ deque_capacity f.items };
}

impl<O: InPhase> Fifo<O> {
    /// Creates an empty FIFO that holds up to `size` items, or any number if `size` is 0. Allocates no memory.
    pub fn new(alloc: Global, size: u16) -> Fifo<O>
        ensures { result ≡ new_fifo size }
    {
        Fifo {
            size,
            items: VecDeque::new(alloc),
            puts: VecDeque::new(alloc),
            takes: VecDeque::new(alloc),
        }
    }

    /// Adds a waiting put after the other waiting puts (the standard's `put`). `settle` completes it when the FIFO is not full.
    /// Reserves the capacity that its move needs. Errors: out of memory. An error changes nothing.
    pub fn put(&mut self, owner: O, item: Item) -> Result<(), AllocError>
        ensures ok { OnOk result (self.new ≡ with_put owner item self.old) }
        ensures err { OnErr result (self.new ≡ self.old) }
    {
        self.items.reserve(self.puts.len() + 1)?;
        self.puts.push_back(WaitingPut { owner, item })?;
        Ok(())
    }

    /// Puts an item immediately if the FIFO is not full and no put waits (the standard's `try_put`). Returns whether it put the
    /// item. Errors: out of memory, only if the item could be put. An error changes nothing.
    #[tactic(auto, unfolding(crate::specs::Fifos::can_put))]
    pub fn try_put(&mut self, item: Item) -> Result<bool, AllocError>
        ensures ok { IfOk result (λ stored. stored ≡ can_put self.old) }
        ensures after { IfOk result (λ stored. self.new ≡ (if stored then with_item item self.old else self.old)) }
        ensures err { OnErr result (can_put self.old ≡ true) }
        ensures unchanged { OnErr result (self.new ≡ self.old) }
    {
        if !self.has_room() || !self.puts.is_empty() {
            return Ok(false);
        }
        self.items.push_back(item)?;
        Ok(true)
    }

    /// Adds a waiting take after the other waiting takes and peeks (the standard's `get`). `settle` completes it when there is an
    /// item. Errors: out of memory. An error changes nothing.
    pub fn take(&mut self, owner: O) -> Result<(), AllocError>
        ensures ok { OnOk result (self.new ≡ with_take owner self.old) }
        ensures err { OnErr result (self.new ≡ self.old) }
    {
        self.takes.push_back(WaitingTake {
            owner,
            peeks: false,
        })?;
        Ok(())
    }

    /// Removes and returns the first item if there is one and no take or peek waits; otherwise returns `None` (the standard's
    /// `try_get`). Allocates no memory.
    #[tactic(auto, unfolding(crate::specs::Fifos::can_take))]
    pub fn try_take(&mut self) -> Option<Item>
        ensures item { result ≡ (if can_take self.old then slice_get self.old.items 0 else None) }
        ensures after { self.new ≡ (if can_take self.old then without_item self.old else self.old) }
    {
        if !self.takes.is_empty() {
            return None;
        }
        self.items.pop_front()
    }

    /// Adds a waiting peek after the other waiting takes and peeks (the standard's `peek`). `settle` completes it when there is
    /// an item, which stays in the FIFO. Errors: out of memory. An error changes nothing.
    pub fn peek(&mut self, owner: O) -> Result<(), AllocError>
        ensures ok { OnOk result (self.new ≡ with_peek owner self.old) }
        ensures err { OnErr result (self.new ≡ self.old) }
    {
        self.takes.push_back(WaitingTake { owner, peeks: true })?;
        Ok(())
    }

    /// Makes the next move and returns it, or returns `None` if there is none. The first waiting take or peek gets the first
    /// item, if there is an item. Otherwise the first waiting put stores its item, if the FIFO is not full. Allocates no memory.
    #[tactic(auto, unfolding(crate::specs::Fifos::next_move))]
    pub fn settle(&mut self) -> Option<Move<O>>
        ensures value { result ≡ next_move self.old }
        ensures after { self.new ≡ after_move result self.old }
    {
        match self.settle_take() {
            Some(taken) => Some(taken),
            None => self.settle_put(),
        }
    }

    /// Returns the next move, which `settle` makes; `None` if there is none. Allocates no memory.
    #[tactic(auto, unfolding(crate::specs::Fifos::next_move))]
    pub fn next_move(&self) -> Option<Move<O>>
        ensures { result ≡ next_move self.now }
    {
        match self.next_take() {
            Some(taken) => Some(taken),
            None => self.next_put(),
        }
    }

    /// Removes the waiting puts, takes and peeks that were requested in the phase of this number. The items stay. Allocates no
    /// memory. Cost: O(n) in the number of waiting puts, takes and peeks.
    pub fn clear_waiting(&mut self, phase: u8)
        ensures { self.new ≡ cleared O.phase_of phase self.old }
    {
        end_puts(&mut self.puts, phase);
        end_takes(&mut self.takes, phase);
    }

    /// Returns the number of items.
    pub fn len(&self) -> usize
        ensures { result ≡ length self.now.items }
    {
        self.items.len()
    }

    /// Returns whether there are no items.
    pub fn is_empty(&self) -> bool
        ensures { IsTrue result ↔ (self.now.items ≡ []) }
    {
        self.items.is_empty()
    }

    /// Returns the items, the first to go out first: those of the first slice, then those of the second.
    pub fn items(&self) -> (&[Item], &[Item])
        ensures { result.0.now ++ result.1.now ≡ self.now.items }
    {
        self.items.as_slices()
    }

    /// Returns the item at a place, counted from 0 at the first to go out; `None` if there are not so many items.
    pub fn item(&self, place: usize) -> Option<Item>
        ensures { result ≡ slice_get self.now.items place }
    {
        self.items.get(place).copied()
    }

    /// Returns the puts that wait, the earliest first: those of the first slice, then those of the second.
    pub fn puts(&self) -> (&[WaitingPut<O>], &[WaitingPut<O>])
        ensures { result.0.now ++ result.1.now ≡ self.now.puts }
    {
        self.puts.as_slices()
    }

    /// Returns the takes and peeks that wait, the earliest first: those of the first slice, then those of the second.
    pub fn takes(&self) -> (&[WaitingTake<O>], &[WaitingTake<O>])
        ensures { result.0.now ++ result.1.now ≡ self.now.takes }
    {
        self.takes.as_slices()
    }

    /// Returns the number of puts, takes and peeks that wait.
    pub fn waiting(&self) -> usize
        ensures { result ≡ waiting_count self.now }
    {
        self.puts.len() + self.takes.len()
    }

    // Returns whether one more item fits.
    fn has_room(&self) -> bool
        ensures { result ≡ has_room self.now }
    {
        self.size == 0 || self.items.len() < usize::from(self.size)
    }

    // Returns the move of the first waiting take or peek; `None` if none waits or there is no item.
    fn next_take(&self) -> Option<Move<O>>
        ensures { result ≡ take_move self.now }
    {
        let item = *self.items.front()?;
        let WaitingTake { owner, peeks } = *self.takes.front()?;
        let kind = if peeks {
            MoveKind::Peek
        } else {
            MoveKind::Take
        };
        Some(Move { kind, owner, item })
    }

    // Returns the move of the first waiting put; `None` if none waits or the FIFO is full.
    fn next_put(&self) -> Option<Move<O>>
        ensures { result ≡ put_move self.now }
    {
        if !self.has_room() {
            return None;
        }
        let WaitingPut { owner, item } = *self.puts.front()?;
        let kind = MoveKind::Put;
        Some(Move { kind, owner, item })
    }

    // Makes the move of the first waiting take or peek and returns it; returns `None` if none waits or there is no item.
    fn settle_take(&mut self) -> Option<Move<O>>
        ensures value { result ≡ take_move self.old }
        ensures after { self.new ≡ after_move result self.old }
    {
        let taken = self.next_take()?;
        let _ = self.takes.pop_front();
        if taken.kind == MoveKind::Take {
            let _ = self.items.pop_front();
        }
        Some(taken)
    }

    // Makes the move of the first waiting put and returns it; returns `None` if none waits or the FIFO is full.
    fn settle_put(&mut self) -> Option<Move<O>>
        ensures value { result ≡ put_move self.old }
        ensures after { self.new ≡ after_move result self.old }
    {
        let put = self.next_put()?;
        let _ = self.puts.pop_front();
        let Ok(()) = self.items.push_back(put.item) else {
            unreachable!()
        };
        Some(put)
    }
}

// Removes the puts that were requested in a phase.
fn end_puts<O: InPhase>(puts: &mut VecDeque<WaitingPut<O>>, phase: u8)
    ensures items { puts.new.items ≡ filter (λ put. not (O.phase_of put.owner == phase)) puts.old.items }
    ensures fewer { deque_len puts.new ≤ deque_len puts.old }
{
    puts.retain(|put| put.owner.phase_number() != phase);
}

// Removes the takes and peeks that were requested in a phase.
fn end_takes<O: InPhase>(takes: &mut VecDeque<WaitingTake<O>>, phase: u8)
    ensures { takes.new.items ≡ filter (λ take. not (O.phase_of take.owner == phase)) takes.old.items }
{
    takes.retain(|take| take.owner.phase_number() != phase);
}
