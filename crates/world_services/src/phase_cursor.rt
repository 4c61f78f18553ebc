//! Which component receives its callback next in one active phase (IEEE 1800.2-2020, Clause 9).

ghost use Rattle.std.specs.Prelude.{◌≡◌, ◌<◌, [], vec_len, vec_capacity, Some, None, option_map, true};
ghost use Rattle.uvm_glob.specs.Orders.{order_of};
ghost use Rattle.uvm_tree.specs.Cursors.{IsLeast, is_after, is_before, nodes_after};
ghost use Rattle.uvm_tree.specs.Nodes.{AreNodes, node_at};
ghost use Rattle.uvm_tree.specs.declared.nodes.NodeKind.TheVariants.{Component};
ghost use Rattle.bench_history.specs.History.{phase_order};
ghost use Rattle.world_services.specs.PhaseCursor.{IsFirstWaiting, IsHeardIn, IsMadeIn, IsStart, waits};

use std::alloc::Global;
use uvm_glob::Direction;
use uvm_phase::Phase;
use uvm_tree::{NodeId, NodeKind, Tree, laws};

/// The components that wait for their callback in the active phase.
#[derive(Drop)]
pub struct PhaseCursor {
    /// The direction of the phase.
    pub direction: Direction,
    /// The component that received its callback last, late ones excepted; none before the first. All that come after it wait.
    pub last: Option<NodeId>,
    /// The further components that wait: they were created after the phase had passed their place.
    pub late: Vec<NodeId>,
}

impl PhaseCursor {
    /// Creates a cursor, before any phase. Allocates no memory.
    pub fn new(alloc: Global) -> PhaseCursor
        ensures last { result.last ≡ None }
        ensures late { result.late.items ≡ [] }
    {
        PhaseCursor {
            direction: Direction::Down,
            last: None,
            late: Vec::new(alloc),
        }
    }

    /// Records that a phase of this direction begins: each component waits.
    pub fn begin(&mut self, direction: Direction)
        ensures direction { self.new.direction ≡ direction }
        ensures last { self.new.last ≡ None }
        ensures late { self.new.late.items ≡ [] }
    {
        self.direction = direction;
        self.last = None;
        self.late.clear();
    }

    /// Records that the next component received its callback: a late one, as long as there are any.
    pub fn hear(&mut self, node: NodeId)
        ensures { IsHeardIn node self.old self.new }
    {
        if self.late.is_empty() {
            self.last = Some(node);
        } else {
            self.late.retain(|late| *late != node);
        }
    }

    /// Records that a component was created: it waits. Uses reserved capacity.
    pub fn make(&mut self, tree: &Tree, node: NodeId)
        requires { vec_len self.old.late < vec_capacity self.old.late }
        ensures { IsMadeIn tree.now.nodes node self.old self.new }
    {
        if !self.comes_after_last(tree, node) {
            let Ok(()) = self.late.push(node) else {
                unreachable!()
            };
        }
    }

    /// Returns the first component in a direction that waits; `None` if none waits. Allocates no memory.
    pub fn first(&self, tree: &Tree, direction: Direction) -> Option<NodeId>
        ensures first { IsFirstWaiting (is_before (order_of direction) tree.now.nodes) tree.now.nodes self.now result }
        ensures nodes { AreNodes tree.now.nodes }
    {
        laws::nodes_are_ordered();
        let mut next = next_in(tree, direction, self.start(direction));
        while let Some(node) = next {
            if is_component(tree, node) && self.waits(tree, node) {
                return Some(node);
            }
            next = next_in(tree, direction, Some(node));
        }
        None
    }

    // Returns the node after which all waiting components come; `None` if no such node is known.
    fn start(&self, direction: Direction) -> Option<NodeId>
        ensures { IsStart direction self.now result }
    {
        if direction == self.direction && self.late.is_empty() {
            self.last
        } else {
            None
        }
    }

    // Returns whether a component waits.
    fn waits(&self, tree: &Tree, node: NodeId) -> bool
        ensures { result ≡ waits tree.now.nodes self.now node }
    {
        self.comes_after_last(tree, node) || self.late.contains(&node)
    }

    // Returns whether a node comes after the component that received its callback last.
    fn comes_after_last(&self, tree: &Tree, node: NodeId) -> bool
        ensures { result ≡ is_after (order_of self.now.direction) tree.now.nodes self.now.last node }
    {
        match self.last {
            None => true,
            Some(last) => tree.kind(last).is_some() && tree.is_before(self.direction, last, node),
        }
    }
}

/// Returns the direction of a phase.
pub fn direction_of(phase: Phase) -> Direction
    ensures { order_of result ≡ phase_order phase }
{
    if phase.is_top_down() {
        Direction::Down
    } else {
        Direction::Up
    }
}

// Returns the next node in a direction.
fn next_in(tree: &Tree, direction: Direction, after: Option<NodeId>) -> Option<NodeId>
    ensures next { IsLeast (is_before (order_of direction) tree.now.nodes) (nodes_after (order_of direction) tree.now.nodes after) result }
    ensures nodes { AreNodes tree.now.nodes }
{
    match direction {
        Direction::Down => tree.next_down(after),
        Direction::Up => tree.next_up(after),
    }
}

// Returns whether the node is a component.
fn is_component(tree: &Tree, node: NodeId) -> bool
    ensures is { result ≡ true → option_map (λ node. node.kind) (node_at tree.now.nodes node) ≡ Some Component }
    ensures only { option_map (λ node. node.kind) (node_at tree.now.nodes node) ≡ Some Component → result ≡ true }
{
    matches!(tree.kind(node), Some(NodeKind::Component))
}
