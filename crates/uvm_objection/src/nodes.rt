//! The stored data of a node, and its changes.

ghost use Rattle.std.specs.Prelude.{◌≡◌, ◌+◌, ◌<◌, ◌^◌};
ghost use Rattle.uvm_objection.specs.Changes.{entry_changed};
ghost use Rattle.uvm_objection.specs.Walks.{entry_settled};

use uvm_tree::NodeId;

// The changes that a caller can make at a node.
#[derive(Clone, Copy)]
pub(crate) enum ChangeKind {
    Raise(u16),
    Drop(u16),
    Release,
    SetDrain(u64),
}

// A change of a node, and its time in ticks.
#[derive(Clone, Copy)]
pub(crate) struct Change {
    pub node: NodeId,
    pub kind: ChangeKind,
    pub time: u64,
}

// The data of a node: its parent (absent for the root), the count raised at it, its drain time, its delayed count, its due time, and its
// total. The delayed count is the old total, while the drain time delays its fall. The due time is the time at which the drain ends, 0 if
// no count is delayed. Times are in ticks.
#[derive(Clone, Copy)]
pub(crate) struct Entry {
    pub node: NodeId,
    pub parent: Option<NodeId>,
    pub source: u64,
    pub drain: u64,
    pub held: u64,
    pub due: u64,
    pub total: u64,
}

impl Entry {
    // Creates a node at which nothing has been raised.
    pub(crate) fn new(node: NodeId, parent: Option<NodeId>) -> Entry
        ensures { result ≡ record { node = node; parent = parent; source = 0; drain = 0; held = 0; due = 0; total = 0 } }
    {
        Entry {
            node,
            parent,
            source: 0,
            drain: 0,
            held: 0,
            due: 0,
            total: 0,
        }
    }

    // Sets the total, and with it the delayed count and the time at which the drain is due.
    pub(crate) fn settle(&mut self, total: u64, time: u64)
        requires { time + self.old.drain < 2 ^ 64 }
        ensures { self.new ≡ entry_settled time total self.old }
    {
        let before = self.total;
        self.total = total;
        if total > 0 {
            self.held = 0;
            self.due = 0;
        } else if before > 0 && self.drain > 0 {
            self.held = before;
            self.due = time + self.drain;
        }
    }

    // Makes the change if it is of this node.
    pub(crate) fn change(&mut self, change: &Change)
        requires { self.old.source < 2 ^ 63 }
        ensures { self.new ≡ entry_changed change.now self.old }
    {
        if change.node != self.node {
            return;
        }
        match change.kind {
            ChangeKind::Raise(count) => self.source += u64::from(count),
            ChangeKind::Drop(count) => self.source = self.source.saturating_sub(u64::from(count)),
            ChangeKind::Release => {
                self.held = 0;
                self.due = 0;
            }
            ChangeKind::SetDrain(drain) => self.drain = drain,
        }
    }
}
