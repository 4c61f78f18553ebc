//! FIFOs and the requests that wait at them (IEEE 1800.2-2020, Clause 12).

ghost use Rattle.std.specs.Prelude.{◌≡◌, nat_eq, OnOk, IfOk, map, option_copied, option_map, option_and_then};
ghost use Rattle.std.specs.HashMap.{get};
ghost use Rattle.uvm_tlm.specs.Fifos.{waiting_count, with_put};
ghost use Rattle.uvm_glob.specs.Lists.{first_given};
ghost use Rattle.bench_history.specs.Ports.{size_of};
ghost use Rattle.bench_history.specs.Wires.{end_of};
ghost use Rattle.bench_history.specs.Passing.{passage_by, passage_in, puts_now, takes_now};
ghost use Rattle.world_wiring.specs.FifoStates.{AddsFifoState, ChangesAt, ChangesEach, passing_in, after_passage, with_taker, with_stored_if, without_first_if, without_waits};

use bench_history::Requester;
use std::alloc::{AllocError, Global};
use std::collections::HashMap;
use uvm_object::{Passage, What};
use uvm_phase::Phase;
use uvm_tlm::{Fifo, Item, Move};
use uvm_tree::NodeId;

/// The FIFOs of a testbench, by their nodes. Each waiting put, take or peek has its requester as the owner.
pub type FifoStates = HashMap<NodeId, Fifo<Requester>>;

/// Adds an empty FIFO at a node if the addition is a FIFO; otherwise does nothing. Errors: out of memory.
pub fn add_fifo_state(
    fifo_states: &mut FifoStates,
    alloc: Global,
    node: NodeId,
    what: What,
) -> Result<(), AllocError>
    ensures { OnOk result (AddsFifoState (size_of (end_of what)) node fifo_states.old fifo_states.new) }
{
    let What::Fifo { size } = what else {
        return Ok(());
    };
    match fifo_states.insert(node, Fifo::new(alloc, size)) {
        Ok(_) => Ok(()),
        Err(_) => Err(AllocError),
    }
}

/// Returns the first transfer that can be completed at some nodes, with its node; `None` if there is none.
pub fn first_passing(fifo_states: &FifoStates, fifos: &[NodeId]) -> Option<(NodeId, Passage)>
    ensures { result ≡ first_given (map (passing_in fifo_states.now) fifos.now) }
{
    for fifo in fifos {
        if let Some(passage) = passage_at(fifo_states, *fifo) {
            return Some((*fifo, passage));
        }
    }
    None
}

/// Adds a put that waits at a FIFO, after those that wait there; does nothing if there is no such FIFO. Errors: out of memory.
pub fn ask_put(
    fifo_states: &mut FifoStates,
    fifo: NodeId,
    requester: Requester,
    item: Item,
) -> Result<(), AllocError>
    ensures { OnOk result (ChangesAt fifo (with_put requester item) fifo_states.old fifo_states.new) }
{
    match fifo_states.get_mut(&fifo) {
        Some(fifo_state) => fifo_state.put(requester, item),
        None => Ok(()),
    }
}

/// Adds a take or a peek that waits at a FIFO, after those that wait there; does nothing if there is no such FIFO. Errors: out of memory.
pub fn ask_take(
    fifo_states: &mut FifoStates,
    fifo: NodeId,
    requester: Requester,
    peeks: bool,
) -> Result<(), AllocError>
    ensures { OnOk result (ChangesAt fifo (with_taker requester peeks) fifo_states.old fifo_states.new) }
{
    match fifo_states.get_mut(&fifo) {
        Some(fifo_state) if peeks => fifo_state.peek(requester),
        Some(fifo_state) => fifo_state.take(requester),
        None => Ok(()),
    }
}

/// Puts an item into a FIFO if it has space and no put waits, and returns whether it did. Errors: out of memory.
pub fn put_at_once(
    fifo_states: &mut FifoStates,
    fifo: NodeId,
    item: Item,
) -> Result<bool, AllocError>
    ensures value { IfOk result (λ stored. stored ≡ puts_now (get nat_eq fifo_states.old fifo)) }
    ensures after { IfOk result (λ stored. ChangesAt fifo (with_stored_if stored item) fifo_states.old fifo_states.new) }
{
    match fifo_states.get_mut(&fifo) {
        Some(fifo_state) => fifo_state.try_put(item),
        None => Ok(false),
    }
}

/// Removes and returns the first item of a FIFO, if there is one and no take or peek waits for it. Allocates nothing.
pub fn take_at_once(fifo_states: &mut FifoStates, fifo: NodeId) -> Option<Item>
    ensures value { result ≡ takes_now (get nat_eq fifo_states.old fifo) }
    ensures after { ChangesAt fifo (without_first_if result) fifo_states.old fifo_states.new }
{
    match fifo_states.get_mut(&fifo) {
        Some(fifo_state) => fifo_state.try_take(),
        None => None,
    }
}

// Returns the next transfer at a node, if there is one.
fn passage_at(fifo_states: &FifoStates, fifo: NodeId) -> Option<Passage>
    ensures { result ≡ option_and_then passage_in (get nat_eq fifo_states.now fifo) }
{
    Some(passage_by(fifo_states.get(&fifo)?.next_move()?))
}

// Returns a move as a transfer, with the data of the request that it answers.
fn passage_by(next_move: Move<Requester>) -> Passage
    ensures { result ≡ passage_by next_move }
{
    let Move { kind, owner, item } = next_move;
    Passage {
        kind,
        who: owner.who,
        port: owner.port,
        item,
        request: owner.place,
        phase: owner.phase,
    }
}

/// Completes the next transfer at a FIFO, if there is one. Allocates nothing.
pub fn pass(fifo_states: &mut FifoStates, fifo: NodeId)
    ensures { ChangesAt fifo after_passage fifo_states.old fifo_states.new }
{
    if let Some(fifo_state) = fifo_states.get_mut(&fifo) {
        let _ = fifo_state.settle();
    }
}

/// Returns the FIFO at a node, if there is one.
pub fn fifo_at(fifo_states: &FifoStates, node: NodeId) -> Option<&Fifo<Requester>>
    ensures { option_copied result ≡ get nat_eq fifo_states.now node }
{
    fifo_states.get(&node)
}

/// Returns how many requests wait at a node, or `None` if the node is not a FIFO.
pub fn waiting_at(fifo_states: &FifoStates, node: NodeId) -> Option<usize>
    ensures { result ≡ option_map waiting_count (get nat_eq fifo_states.now node) }
{
    Some(fifo_states.get(&node)?.waiting())
}

/// Ends the waits that were requested in a phase, at each FIFO. Allocates nothing. Cost: O(n) in the number of waits.
pub fn end_waits(fifo_states: &mut FifoStates, phase: Phase)
    ensures { ChangesEach (without_waits phase) fifo_states.old fifo_states.new }
{
    fifo_states.retain(|_, fifo_state| {
        fifo_state.clear_waiting(phase.number());
        true
    });
}
