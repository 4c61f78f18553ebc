//! What is known of a run that has ended.

use crate::calls::LastCalls;
use crate::makes::Makes;
use crate::records::Records;
use crate::worlds::State;
use bench_core::Core;
use script_objects::Answers;
use std::alloc::{AllocError, Global};
use std::cell::OnceCell;
use uvm_sequences::Sequences;
use uvm_tlm::Wiring;
use uvm_tree::{NodeId, Tree};

/// What is known of a run.
#[derive(Drop)]
pub struct Facts<'a> {
    /// The allocator.
    pub alloc: Global,
    /// The core, with the log.
    pub core: &'a Core,
    /// The answers of the types.
    pub answers: &'a Answers,
    /// The state at the end.
    pub world: State<'a>,
    /// The tree.
    pub tree: &'a Tree,
    /// The ports and their connections.
    pub wiring: &'a Wiring,
    /// The sequences.
    pub sequences: &'a Sequences,
    /// All nodes but the root, in path order.
    pub nodes: Vec<NodeId>,
    /// The sequences and phases.
    pub records: Records,
    // The types of the objects, once a line has told one.
    pub(crate) makes: OnceCell<Makes>,
    // The last call of each object, once a line has told one.
    pub(crate) calls: OnceCell<LastCalls>,
}

impl<'a> Facts<'a> {
    /// Gathers what is known of a run: its core, its answers, and the state of the core. Errors: out of memory.
    pub fn of_run(
        alloc: Global,
        core: &'a Core,
        answers: &'a Answers,
        world: State<'a>,
    ) -> Result<Facts<'a>, AllocError> {
        let (tree, wiring, sequences) = (world.tree(), world.wiring(), world.sequences());
        let records = Records::of_log(alloc, core.log(), sequences)?;
        let nodes = nodes_of(alloc, tree, wiring)?;
        Ok(Facts {
            alloc,
            core,
            answers,
            world,
            tree,
            wiring,
            sequences,
            nodes,
            records,
            makes: OnceCell::new(),
            calls: OnceCell::new(),
        })
    }
}

// Returns all nodes of a tree but the root, in path order, which the wiring has once connect has ended. Errors: out of memory.
fn nodes_of(alloc: Global, tree: &Tree, wiring: &Wiring) -> Result<Vec<NodeId>, AllocError> {
    let mut nodes = Vec::new(alloc);
    if wiring.is_closed() {
        for node in wiring.order() {
            if *node != NodeId::TOP {
                nodes.push(*node)?;
            }
        }
        return Ok(nodes);
    }
    let mut last = None;
    for _place in 0..Tree::MAX_NODES {
        last = tree.next_down(last);
        match last {
            Some(node) => nodes.push(node)?,
            None => break,
        }
    }
    Ok(nodes)
}
