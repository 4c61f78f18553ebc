//! The propagation of a change to the nodes above it.

ghost use Rattle.std.specs.Prelude.{◌≡◌, ◌∷◌, IsTrue, nat_eq, vec_capacity, vec_len};
ghost use Rattle.std.specs.HashMap.{get};
ghost use Rattle.std.specs.Option.{option_and_then};
ghost use Rattle.uvm_objection.specs.Laws.{IsTree};
ghost use Rattle.uvm_objection.specs.Places.{ArePlaced};
ghost use Rattle.uvm_objection.specs.Representation.{shape};
ghost use Rattle.uvm_objection.specs.Walks.{is_at, entry_after, walk_after, CanStep, CanWalk, walked};

use crate::nodes::{Change, Entry};
use crate::objections::Due;
use std::collections::HashMap;
use uvm_tree::NodeId;

// A walk from a node to its parent, and so on up to the root. It has the node that it visits next, if any; the count that a child
// contributed to that node before the change, and the count that it contributes now; and the drains that began and ended.
#[derive(Clone, Copy)]
pub(crate) struct Walk {
    pub at: Option<NodeId>,
    pub before: u64,
    pub after: u64,
    pub began: Option<Due>,
    pub ended: Option<NodeId>,
}

impl Walk {
    // Makes a change at one of the nodes and propagates its effect upward. The walk goes from the index of each node to the index of its
    // parent, which is smaller, and visits no other node.
    pub(crate) fn over(
        top: &mut Entry,
        entries: &mut Vec<Entry>,
        places: &HashMap<NodeId, usize>,
        change: &Change,
    ) -> Walk
        requires walk { CanWalk change.now (top.old ∷ entries.old.items) }
        requires tree { IsTree (shape (top.old ∷ entries.old.items)) }
        requires placed { ArePlaced places.now (shape entries.old.items) }
        ensures entries { top.new ∷ entries.new.items ≡ (walked change.now (top.old ∷ entries.old.items)).entries }
        ensures walk { result ≡ (walked change.now (top.old ∷ entries.old.items)).walk }
        ensures capacity { vec_capacity entries.new ≡ vec_capacity entries.old }
        ensures length { vec_len entries.new ≡ vec_len entries.old }
    {
        let mut walk = Walk::start(change.node);
        let mut next = walk.place(places);
        while let Some(place) = next {
            walk.step(change, &mut entries[place]);
            next = walk.place(places);
        }
        walk.step(change, top);
        walk
    }

    // Creates the walk of a change at `node`, before it visits a node.
    fn start(node: NodeId) -> Walk
        ensures { result ≡ record { at = Some node; before = 0; after = 0; began = None; ended = None } }
    {
        Walk {
            at: Some(node),
            before: 0,
            after: 0,
            began: None,
            ended: None,
        }
    }

    // Returns the index of the node that the walk visits next, if that is a node other than the root.
    fn place(&self, places: &HashMap<NodeId, usize>) -> Option<usize>
        ensures { result ≡ option_and_then (get nat_eq places.now) self.now.at }
    {
        places.get(&self.at?).copied()
    }

    // Visits a node. If it is the next one, its total changes, then its delayed count, and so the count that it contributes to its parent.
    fn step(&mut self, change: &Change, entry: &mut Entry)
        requires { IsTrue (is_at self.old entry.old) → CanStep change.now self.old entry.old }
        ensures entry { entry.new ≡ entry_after change.now self.old entry.old }
        ensures walk { self.new ≡ walk_after change.now self.old entry.old }
    {
        if !self.is_at(entry) {
            return;
        }
        let (total, held) = (entry.total, entry.held);
        let passed = total - entry.source - self.before;
        entry.change(change);
        entry.settle(passed + entry.source + self.after, change.time);
        if held == 0 && entry.held > 0 {
            self.began = Some(Due {
                node: entry.node,
                at: entry.due,
            });
        }
        if held > 0 && entry.held == 0 {
            self.ended = Some(entry.node);
        }
        self.at = entry.parent;
        self.before = total + held;
        self.after = entry.total + entry.held;
    }

    // Returns whether this is the node that the walk visits next.
    fn is_at(&self, entry: &Entry) -> bool
        ensures { result ≡ is_at self.now entry.now }
    {
        match self.at {
            Some(node) => node == entry.node,
            None => false,
        }
    }
}
