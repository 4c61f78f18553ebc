//! The variables of a dump, and where those of each node are.

ghost use Rattle.std.specs.Prelude.{◌≡◌, true};

use crate::signals::{OF_RUN, Signal, signals_of};
use std::alloc::{AllocError, Global};
use std::collections::HashMap;
use uvm_tree::{NodeId, Tree};

// The variables of a dump.
#[derive(Drop)]
pub(crate) struct Scope<'a> {
    pub tree: &'a Tree,
    pub signals: Vec<Signal>,
    // The place of the first variable of each node.
    firsts: HashMap<NodeId, usize>,
}

impl<'a> Scope<'a> {
    // Returns the variables for a run with this tree. Errors: out of memory.
    pub(crate) fn of_tree(alloc: Global, tree: &'a Tree) -> Result<Scope<'a>, AllocError> {
        let signals = signals_of(alloc, tree)?;
        let mut firsts = HashMap::new(alloc);
        for (place, signal) in signals.iter().enumerate() {
            if let Some(node) = signal.node() {
                if !firsts.contains_key(&node) {
                    firsts.insert(node, place)?;
                }
            }
        }
        Ok(Scope {
            tree,
            signals,
            firsts,
        })
    }

    // Appends the places of all variables. Errors: out of memory.
    pub(crate) fn push_all(&self, places: &mut Vec<usize>) -> Result<(), AllocError> {
        for place in 0..self.signals.len() {
            places.push(place)?;
        }
        Ok(())
    }

    // Appends the places of the variables of the run. Errors: out of memory.
    pub(crate) fn push_run(&self, places: &mut Vec<usize>) -> Result<(), AllocError> {
        for place in 0..OF_RUN.len() {
            places.push(place)?;
        }
        Ok(())
    }

    // Appends the places of the variables of a node. Errors: out of memory.
    pub(crate) fn push_node(
        &self,
        node: NodeId,
        places: &mut Vec<usize>,
    ) -> Result<(), AllocError> {
        let Some(first) = self.firsts.get(&node).copied() else {
            return Ok(());
        };
        for place in first..self.signals.len() {
            match self.signals.get(place) {
                Some(signal) if signal.node() == Some(node) => places.push(place)?,
                _ => return Ok(()),
            }
        }
        Ok(())
    }
}
