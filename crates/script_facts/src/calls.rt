//! The last call of each object, gathered in one pass over the log when a line first tells one.

use crate::facts::Facts;
use crate::records::{kept, place_of};
use std::alloc::{AllocError, Global};
use std::collections::HashMap;
use uvm_object::{Call, Entry, Log, Who};
use uvm_tree::NodeId;

// The last call of an object. Calls of phases that were answered by no actions count only if there is no other.
#[derive(Clone, Copy, Drop)]
struct LastCall {
    // Its place in the log.
    place: usize,
    // Whether it is the call of a phase that was answered by no actions.
    is_quiet: bool,
}

impl LastCall {
    // Returns the last call after a further one.
    fn with(self, next: LastCall) -> LastCall {
        if next.is_quiet && !self.is_quiet {
            self
        } else {
            next
        }
    }
}

/// The last call of each object.
#[derive(Drop)]
pub(crate) struct LastCalls {
    components: HashMap<NodeId, LastCall>,
    // By the places of the sequences in the order of their numbers.
    sequences: Vec<Option<LastCall>>,
}

impl LastCalls {
    // Gathers the last call of each object, of which so many are sequences. Errors: out of memory.
    fn of_log(alloc: Global, log: &Log, count: usize) -> Result<LastCalls, AllocError> {
        let mut calls = LastCalls {
            components: HashMap::new(alloc),
            sequences: vec![in alloc; None; count]?,
        };
        for (place, entry) in log.iter().enumerate() {
            if let Entry::Heard {
                who,
                call,
                acts,
                ..
            } = entry
            {
                let is_quiet = acts.is_empty() && matches!(call.get(), Call::Phase(_));
                calls.add(who, LastCall { place, is_quiet })?;
            }
        }
        Ok(calls)
    }

    // Adds a call. Errors: out of memory.
    fn add(&mut self, who: &Who, next: LastCall) -> Result<(), AllocError> {
        match who {
            Who::Sequence { id, .. } => {
                if let Some(slot) = self.sequences.get_mut(place_of(*id)) {
                    *slot = Some(slot.map_or(next, |last| last.with(next)));
                }
                Ok(())
            }
            Who::Node(node) => {
                if let Some(last) = self.components.get_mut(node) {
                    *last = last.with(next);
                    return Ok(());
                }
                kept(self.components.insert(*node, next))
            }
        }
    }

    // Returns the place of the last call of an object, if it has received one.
    fn place(&self, who: &Who) -> Option<usize> {
        match who {
            Who::Node(node) => Some(self.components.get(node)?.place),
            Who::Sequence { id, .. } => match self.sequences.get(place_of(*id)) {
                Some(Some(last)) => Some(last.place),
                _ => None,
            },
        }
    }
}

impl Facts<'_> {
    // Returns the place of the last call of an object, if it has received one. Errors: out of memory.
    pub(crate) fn heard(&self, who: &Who) -> Result<Option<usize>, AllocError> {
        let calls = self.calls.get_or_try_init(|| {
            LastCalls::of_log(self.alloc, self.core.log(), self.records.sequences.len())
        })?;
        Ok(calls.place(who))
    }
}
