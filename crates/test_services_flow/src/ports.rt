//! Tests of the calls of FIFOs and wirings if memory is available. The lemmas on FIFOs and wirings, in proofs/, state the result
//! in each case.

ghost use Rattle.std.specs.Prelude.{◌≡◌, None, OnErr, OnOk, map};
ghost use Rattle.uvm_tlm.specs.Wirings.{end_at, with_end};

use crate::nodes::add_node;
use std::alloc::{AllocError, Global};
use std::process::Abort;
use std::test::Fail;
use uvm_tlm::{End, Fifo, InPhase, Item, Move, MoveKind, Owner, PortKind, WireFault, Wiring};
use uvm_tree::{NodeId, Tree};

// The owner of each request: the port at the root, in the run phase.
const OWNER: Owner = Owner {
    node: NodeId::TOP,
    phase: 4,
};

fn item(number: i64) -> Item {
    Item([number, 0, 0, 0])
}

fn moved(kind: MoveKind, number: i64) -> Option<Move> {
    Some(Move {
        kind,
        owner: OWNER,
        item: item(number),
    })
}

#[test]
fn items_go_through_a_fifo(rt: HostRuntime) -> Result<(), Fail> {
    let mut fifo = Fifo::new(rt.alloc(), 1);
    assert!(rt; items_go_through(&mut fifo)?);
    Ok(())
}

fn items_go_through(fifo: &mut Fifo) -> Result<bool, AllocError> {
    Ok(is_put(fifo)? && is_shown_and_taken(fifo)? && goes_at_once(fifo)? && waits_end(fifo)?)
}

// Returns whether a put completes in the empty FIFO, and a second item is then not stored.
fn is_put(fifo: &mut Fifo) -> Result<bool, AllocError> {
    fifo.put(OWNER, item(7))?;
    let next = fifo.next_move();
    let made = fifo.settle();
    let stored = fifo.try_put(item(8))?;
    Ok(next == made && made == moved(MoveKind::Put, 7) && !stored)
}

// Returns whether a peek leaves the item, and the take after it gets this item.
fn is_shown_and_taken(fifo: &mut Fifo) -> Result<bool, AllocError> {
    fifo.peek(OWNER)?;
    fifo.take(OWNER)?;
    let waiting = fifo.waiting();
    let (shown, taken) = (fifo.settle(), fifo.settle());
    Ok(waiting == 2 && shown == moved(MoveKind::Peek, 7) && taken == moved(MoveKind::Take, 7))
}

// Returns whether an item is put and taken without waiting.
fn goes_at_once(fifo: &mut Fifo) -> Result<bool, AllocError> {
    let stored = fifo.try_put(item(9))?;
    let first = fifo.item(0);
    let (front, back) = fifo.items();
    let is_lent = front == [item(9)].as_slice() && back.is_empty();
    let taken = fifo.try_take();
    Ok(stored && first == Some(item(9)) && is_lent && taken == first && fifo.try_take() == None)
}

fn waits_end(fifo: &mut Fifo) -> Result<bool, AllocError> {
    fifo.take(OWNER)?;
    fifo.clear_waiting(OWNER.phase);
    Ok(fifo.waiting() == 0)
}

#[test]
fn a_fifo_of_size_zero_has_no_limit(rt: HostRuntime) -> Result<(), Fail> {
    let mut fifo = Fifo::new(rt.alloc(), 0);
    assert!(rt; holds_many(&mut fifo)?);
    Ok(())
}

fn holds_many(fifo: &mut Fifo) -> Result<bool, AllocError> {
    for number in 0..70_000 {
        if !fifo.try_put(item(number))? {
            return Ok(false);
        }
    }
    Ok(fifo.len() == 70_000 && !fifo.is_empty() && fifo.try_take() == Some(item(0)))
}

// An owner of whom only the number of the phase is known.
#[derive(Clone, Copy, PartialEq, Eq)]
struct PhaseOnly(u8);

impl InPhase for PhaseOnly {
    ghost phase_of = { λ owner. owner.0 };

    fn phase_number(&self) -> u8 {
        self.0
    }
}

#[test]
fn a_move_returns_the_owner(rt: HostRuntime) -> Result<(), Fail> {
    let mut fifo = Fifo::new(rt.alloc(), 1);
    assert!(rt; owners_are_returned(&mut fifo)?);
    Ok(())
}

// Returns whether the moves of a put and a peek have the owners of these requests, and the take of another phase is ended.
fn owners_are_returned(fifo: &mut Fifo<PhaseOnly>) -> Result<bool, AllocError> {
    fifo.put(PhaseOnly(4), item(7))?;
    fifo.take(PhaseOnly(5))?;
    fifo.peek(PhaseOnly(6))?;
    fifo.clear_waiting(5);
    let put = Move {
        kind: MoveKind::Put,
        owner: PhaseOnly(4),
        item: item(7),
    };
    let peeked = Move {
        kind: MoveKind::Peek,
        owner: PhaseOnly(6),
        item: item(7),
    };
    Ok(fifo.settle() == Some(put) && fifo.settle() == Some(peeked) && fifo.waiting() == 0)
}

// Adds an end at a node. An error changes nothing.
fn add_end(wiring: &mut Wiring, node: NodeId, end: End) -> Result<(), WireFault>
    requires { end_at wiring.old.ends node ≡ None }
    ensures ok { OnOk result (wiring.new ≡ with_end node end wiring.old) }
    ensures err { OnErr result (wiring.new ≡ wiring.old) }
{
    match end {
        End::Port(kind) => wiring.port(node, kind),
        End::Export(kind) => wiring.export(node, kind),
        End::Imp => wiring.imp(node),
        End::Fifo(size) => wiring.fifo(node, size),
        End::Sequencer => wiring.sequencer(node),
    }
}

// A wiring, and its nodes in path order. Nodes are added from the last in path order to the first.
#[derive(Drop)]
struct Bench {
    wiring: Wiring,
    order: Vec<NodeId>,
    ghost ordered: { order.items ≡ map (λ e. e.0) wiring.ends },
}

impl Bench {
    fn new(alloc: Global) -> Bench {
        Bench {
            wiring: Wiring::new(alloc),
            order: Vec::new(alloc),
        }
    }

    fn add(&mut self, rt: &impl Abort, node: NodeId, end: End) -> Result<(), WireFault> {
        assert!(rt; self.wiring.end(node).is_none());
        add_end(&mut self.wiring, node, end)?;
        let inserted = self.order.insert(0, node);
        assert!(rt; inserted.is_ok());
        Ok(())
    }

    fn connect(&mut self, from: NodeId, to: NodeId) -> Result<(), WireFault> {
        self.wiring.connect(from, to)
    }

    fn close(&mut self) -> Result<(), WireFault> {
        // The clause of `resolve` states that no node was added twice.
        let _ = self.wiring.resolve(NodeId::TOP);
        self.wiring.close(self.order.as_slice())
    }
}

// The nodes of the imps `a.i` and `b.i`, an export, a FIFO, a port and a sequencer, in path order.
#[derive(Clone, Copy)]
struct Nodes {
    first: NodeId,
    second: NodeId,
    export: NodeId,
    fifo: NodeId,
    port: NodeId,
    sequencer: NodeId,
}

fn six_nodes(tree: &mut Tree) -> Result<Nodes, Fail> {
    let b = add_node(tree, NodeId::TOP, b"b")?;
    let a = add_node(tree, NodeId::TOP, b"a")?;
    Ok(Nodes {
        first: add_node(tree, a, b"i")?,
        second: add_node(tree, b, b"i")?,
        export: add_node(tree, NodeId::TOP, b"e")?,
        fifo: add_node(tree, NodeId::TOP, b"f")?,
        port: add_node(tree, NodeId::TOP, b"p")?,
        sequencer: add_node(tree, NodeId::TOP, b"s")?,
    })
}

// The port is connected to two imps, and through an export to an unbounded FIFO.
#[test]
fn a_port_reaches_its_targets(rt: HostRuntime) -> Result<(), Fail> {
    let nodes = six_nodes(&mut Tree::new(rt.alloc()))?;
    let mut bench = Bench::new(rt.alloc());
    assert!(rt; is_wired(&rt, &mut bench, nodes)?);
    Ok(())
}

fn is_wired<R: Abort>(rt: &R, bench: &mut Bench, nodes: Nodes) -> Result<bool, WireFault> {
    add_nodes(rt, bench, nodes)?;
    connect_nodes(bench, nodes)?;
    let is_open = bench.wiring.resolve(nodes.port).is_empty() && !bench.wiring.is_closed();
    bench.close()?;
    Ok(is_open && is_resolved(&bench.wiring, nodes) && bench.close() == Err(WireFault::Late))
}

fn add_nodes<R: Abort>(rt: &R, bench: &mut Bench, nodes: Nodes) -> Result<(), WireFault> {
    bench.add(rt, nodes.sequencer, End::Sequencer)?;
    bench.add(rt, nodes.port, End::Port(PortKind::Analysis))?;
    bench.add(rt, nodes.fifo, End::Fifo(0))?;
    bench.add(rt, nodes.export, End::Export(PortKind::Analysis))?;
    bench.add(rt, nodes.second, End::Imp)?;
    bench.add(rt, nodes.first, End::Imp)
}

fn connect_nodes(bench: &mut Bench, nodes: Nodes) -> Result<(), WireFault> {
    bench.connect(nodes.port, nodes.second)?;
    bench.connect(nodes.port, nodes.first)?;
    bench.connect(nodes.port, nodes.export)?;
    bench.connect(nodes.export, nodes.fifo)
}

fn is_resolved(wiring: &Wiring, nodes: Nodes) -> bool {
    wiring.is_closed()
        && wiring.order().first() == Some(&nodes.first)
        && wiring.order_behind(nodes.first).first() == wiring.order().get(1)
        && wiring.resolve(nodes.port) == [nodes.first, nodes.second, nodes.fifo].as_slice()
        && wiring.fault_of(nodes.port) == None
        && wiring.port_kind(nodes.port) == Some(PortKind::Analysis)
        && wiring.end(nodes.fifo) == Some(End::Fifo(0))
}
