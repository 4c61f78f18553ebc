//! The tree.

ghost use Rattle.std.specs.Prelude.{◌≡◌, ◌≢◌, ◌∷◌, ◌++◌, ◌+◌, ◌-◌, ◌<◌, ◌≤◌, ◌↔◌, [], true, false, length, vec_capacity, None, Some, Ok, Err, OnOk, OnErr, IfOk, IfErr, IsSome, OnSome, IsOk, IsTrue, option_map, option_and_then};
ghost use Rattle.std.specs.List.{insert, list_any};
ghost use Rattle.std.specs.List.Sorted.{IsPartitionPoint};
ghost use Rattle.std.specs.Option.{option_copied, ForSome};
ghost use Rattle.uvm_glob.specs.Paths.{between_dots, path_fault};
ghost use Rattle.uvm_tree.specs.Children.{name_at};
ghost use Rattle.uvm_tree.specs.Families.{AreFamilies, IsNextChild, is_in_front};
ghost use Rattle.uvm_tree.specs.Nodes.{Node, AreNodes, AreSound, most_nodes, top, child, path_at, node_at, is_child, number_at, parent_of, under_at, refusal, add_fault};

use crate::families::Families;
use crate::faults::TreeFault;
use crate::nodes::{KeptNode, NodeId, NodeKind};
use std::alloc::{AllocError, Global};
use std::marker::Model;
use uvm_glob::{ChildRoom, Name, Path};

/// A tree of nodes under a root. Contracts see the nodes in the order of their numbers, the root first, and the parent for whose next
/// child capacity is reserved. The contracts of `parent`, `next_down` and `next_up` state `AreNodes`: parents precede their children, a
/// path is the parent's path with the name, and no two nodes have the same path.
pub struct Tree {
    top: KeptNode,
    // The nodes except the root, in the order in which they were added.
    nodes: Vec<KeptNode>,
    // The numbers of the same nodes, sorted by the number of the parent, then by the bytes of the name.
    families: Vec<NodeId>,
    room: Option<Room>,
}

// (Written by hand, so that the crates that use a tree need no proof that its fields are dropped.)
impl Drop for Tree {
    fn drop(self) {
        let Tree {
            top: _,
            nodes: _,
            families: _,
            room: _,
        } = self;
    }
}

// The capacity that is reserved for one child of `parent`: its path, and one entry in each of the two lists of nodes.
#[derive(Drop)]
struct Room {
    parent: NodeId,
    path: ChildRoom,
}

impl Model for Tree {
    ghost use Rattle.std.specs.Prelude.{◌∷◌, option_map};
    ghost use Rattle.uvm_tree.specs.Nodes.{TreeValue};
    ghost use Rattle.uvm_tree.specs.Rooms.{IsTree};

    ghost Value = { TreeValue };

    ghost view = { λ t. record { nodes = t.top ∷ t.nodes.items; spare = option_map (λ room. room.parent) t.room } };

    ghost invariant = { λ t. IsTree t };
}

impl Tree {
    /// The largest number of nodes, not counting the root.
    pub const MAX_NODES: usize = 4096;

    /// Creates a tree that has only the root.
    pub fn new(alloc: Global) -> Tree
        ensures { result ≡ record { nodes = top ∷ []; spare = None } }
    {
        Tree {
            top: KeptNode {
                under: None,
                path: Path::top(alloc),
                kind: NodeKind::Component,
            },
            nodes: Vec::new(alloc),
            families: Vec::new(alloc),
            room: None,
        }
    }

    /// Reserves capacity for the next child of `parent`, in place of a reservation for another parent. The next `add` under `parent` then
    /// allocates no memory. Does nothing if that capacity is already reserved, or if there is no such node. Errors: out of memory. An
    /// error changes no node and keeps the earlier reservation.
    pub fn reserve(&mut self, parent: NodeId) -> Result<(), AllocError>
        ensures nodes { self.new.nodes ≡ self.old.nodes }
        ensures spare { OnOk result (IsSome (node_at self.old.nodes parent) → self.new.spare ≡ Some parent) }
        ensures room { self.old.spare ≡ Some parent → IsOk result }
        ensures no_parent { node_at self.old.nodes parent ≡ None → IsOk result × (self.new.spare ≡ self.old.spare) }
        ensures err { OnErr result (self.new.spare ≡ self.old.spare) }
    {
        if self.has_room_for(parent) {
            return Ok(());
        }
        let Some(above) = self.node(parent) else {
            return Ok(());
        };
        let path = ChildRoom::new(&above.path)?;
        self.nodes.reserve(1)?;
        self.families.reserve(1)?;
        self.room = Some(Room { parent, path });
        Ok(())
    }

    /// Adds a node under `parent` and returns its number. Errors, in this order: `NoParent`, `NameTaken`, `TooDeep`, `Full`; out of memory
    /// (`Memory`), only if no capacity was reserved for a child of `parent`. An error adds nothing and keeps the reservation. Success uses
    /// up the reservation, also one for another parent.
    #[tactic(auto, unfolding(crate::specs::Nodes::add_fault))]
    pub fn add(&mut self, parent: NodeId, name: Name, kind: NodeKind) -> Result<NodeId, TreeFault>
        ensures ok { IfOk result (λ id. (add_fault self.old.nodes parent name ≡ None) × (id ≡ length self.old.nodes)) }
        ensures added { OnOk result (self.new.nodes ≡ self.old.nodes ++ child self.old.nodes parent name kind ∷ []) }
        ensures err { IfErr result (λ fault. add_fault self.old.nodes parent name ≡ refusal fault) }
        ensures unchanged { OnErr result (self.new.nodes ≡ self.old.nodes) }
        ensures room { self.old.spare ≡ Some parent → result ≢ Err TreeFault.Memory }
        ensures spare { OnErr result (self.new.spare ≡ self.old.spare) }
    {
        if let Some(fault) = self.fault(parent, &name) {
            return Err(fault);
        }
        self.reserve(parent)?;
        let Some(room) = self.room.take() else {
            unreachable!()
        };
        let place = place_of(
            &self.top,
            self.nodes.as_slice(),
            self.families.as_slice(),
            parent,
            &name,
        );
        let path = room.child(&name);
        let node = push(
            &mut self.nodes,
            KeptNode {
                under: Some((parent, name)),
                path,
                kind,
            },
        );
        insert(&mut self.families, place, node);
        Ok(node)
    }

    /// Returns the error with which `add` would reject this parent and name, apart from `Memory`, or `None`. Allocates no memory.
    #[tactic(auto, unfolding(crate::specs::Nodes::add_fault))]
    pub fn fault(&self, parent: NodeId, name: &Name) -> Option<TreeFault>
        ensures { result ≡ add_fault self.now.nodes parent name.now }
    {
        let Some(above) = self.node(parent) else {
            return Some(TreeFault::NoParent);
        };
        if self.has_child(parent, name) {
            Some(TreeFault::NameTaken)
        } else if above.path.child_fault(name).is_some() {
            Some(TreeFault::TooDeep)
        } else if self.nodes.len() >= Tree::MAX_NODES {
            Some(TreeFault::Full)
        } else {
            None
        }
    }

    /// Returns the node with this path, or `None` if there is none. The empty path is the root's. Cost: O(log n) comparisons of names for
    /// each name of the path, for n nodes; no allocation.
    pub fn find(&self, path: &Path) -> Option<NodeId>
        ensures { result ≡ number_at self.now.nodes path.now }
    {
        self.find_below(NodeId::TOP, path)
    }

    /// Returns the node whose path is that of `node` followed by `path`, or `None` if there is none. A number without a node counts as the
    /// root's. If a node is found, its whole path is valid (`path_fault` is `None`). The cost is that of `find`.
    pub fn find_below(&self, node: NodeId, path: &Path) -> Option<NodeId>
        ensures node { result ≡ number_at self.now.nodes (path_at self.now.nodes node ++ path.now) }
        ensures sound { OnSome result (path_fault (path_at self.now.nodes node ++ path.now) ≡ None) }
        ensures nodes { AreNodes self.now.nodes }
    {
        let node = self.node_or_top(node);
        let text = path.as_bytes();
        if text.is_empty() {
            return Some(node);
        }
        self.descend(node, text)
    }

    /// Returns the child of `node` with this name, or `None` if there is none. A number without a node counts as the root's. If a child is
    /// found, its whole path is valid (`path_fault` is `None`). Allocates no memory.
    pub fn child(&self, node: NodeId, name: &Name) -> Option<NodeId>
        ensures child { result ≡ number_at self.now.nodes (path_at self.now.nodes node ++ name.now ∷ []) }
        ensures sound { OnSome result (path_fault (path_at self.now.nodes node ++ name.now ∷ []) ≡ None) }
    {
        self.child_of(self.node_or_top(node), name.as_bytes())
    }

    /// Returns the path of a node, or `None` if there is no such node.
    pub fn path(&self, id: NodeId) -> Option<&Path>
        ensures { option_copied result ≡ option_map (λ node. node.path) (node_at self.now.nodes id) }
    {
        match self.node(id) {
            Some(node) => Some(&node.path),
            None => None,
        }
    }

    /// Returns the kind of a node, or `None` if there is no such node.
    pub fn kind(&self, id: NodeId) -> Option<NodeKind>
        ensures { result ≡ option_map (λ node. node.kind) (node_at self.now.nodes id) }
    {
        match self.node(id) {
            Some(node) => Some(node.kind),
            None => None,
        }
    }

    /// Returns the parent of a node, or `None` for the root and if there is no such node.
    pub fn parent(&self, id: NodeId) -> Option<NodeId>
        ensures parent { result ≡ option_and_then parent_of (node_at self.now.nodes id) }
        ensures nodes { AreNodes self.now.nodes }
    {
        match self.node(id) {
            Some(node) => match node.under {
                Some((parent, _)) => Some(parent),
                None => None,
            },
            None => None,
        }
    }

    /// Returns the parent of a node and the node's name under it, or `None` for the root and if there is no such node. Allocates no
    /// memory.
    pub fn under(&self, id: NodeId) -> Option<(NodeId, Name)>
        ensures { result ≡ under_at self.now.nodes id }
    {
        self.node(id)?.under
    }

    // Returns whether capacity for the next child of `parent` is reserved.
    fn has_room_for(&self, parent: NodeId) -> bool
        ensures { IsTrue result ↔ (self.now.spare ≡ Some parent) }
    {
        match &self.room {
            Some(room) => room.parent == parent,
            None => false,
        }
    }

    // Returns the path of a node, or the root's path if there is no such node.
    pub(crate) fn path_or_top(&self, id: NodeId) -> &Path
        ensures { result.now ≡ path_at self.now.nodes id }
    {
        match self.node(id) {
            Some(node) => &node.path,
            None => &self.top.path,
        }
    }

    // Returns the number of nodes, not counting the root.
    pub(crate) fn number_of_nodes(&self) -> usize
        ensures number { result ≡ length self.now.nodes - 1 }
        ensures limit { result ≤ most_nodes }
        ensures nodes { AreNodes self.now.nodes }
    {
        self.nodes.len()
    }

    // Returns the node with this number, if there is one.
    pub(crate) fn node(&self, id: NodeId) -> Option<&KeptNode>
        ensures node { option_copied result ≡ node_at self.now.nodes id }
        ensures nodes { AreNodes self.now.nodes }
        ensures sound { AreSound self.now.nodes }
    {
        match id.number() {
            0 => Some(&self.top),
            number => self.nodes.get(number - 1),
        }
    }

    // Returns the name of a node under its parent, or `None` for the root and if there is no such node.
    pub(crate) fn name(&self, id: NodeId) -> Option<&Name>
        ensures { option_copied result ≡ name_at self.now.nodes id }
    {
        match &self.node(id)?.under {
            Some((_, name)) => Some(name),
            None => None,
        }
    }

    // Returns this node, or the root if there is no such node.
    fn node_or_top(&self, node: NodeId) -> NodeId
        ensures inside { result < length self.now.nodes }
        ensures path { path_at self.now.nodes result ≡ path_at self.now.nodes node }
        ensures nodes { AreNodes self.now.nodes }
        ensures sound { AreSound self.now.nodes }
    {
        if self.node(node).is_some() {
            node
        } else {
            NodeId::TOP
        }
    }

    // Returns the child of `parent` with this name, if there is one.
    fn child_of(&self, parent: NodeId, name: &[u8]) -> Option<NodeId>
        requires { parent < length self.now.nodes }
        ensures child { result ≡ number_at self.now.nodes (path_at self.now.nodes parent ++ name.now ∷ []) }
        ensures nodes { AreNodes self.now.nodes }
    {
        self.families().child(parent, name)
    }

    // Returns the node that is reached from `node` through the names in `text`, which are separated by dots.
    fn descend(&self, node: NodeId, text: &[u8]) -> Option<NodeId>
        requires { node < length self.now.nodes }
        ensures node { result ≡ number_at self.now.nodes (path_at self.now.nodes node ++ between_dots text.now) }
        ensures nodes { AreNodes self.now.nodes }
    {
        let _ = &self.top;
        let mut node = node;
        for name in text.split(|byte| *byte == b'.') {
            node = self.child_of(node, name)?;
        }
        Some(node)
    }

    // Returns whether `parent` has a child with this name.
    fn has_child(&self, parent: NodeId, name: &Name) -> bool
        ensures { result ≡ list_any (is_child parent name.now) self.now.nodes }
    {
        self.families().child(parent, name.as_bytes()).is_some()
    }

    // Returns the child of `parent` whose name is the next after `after`, or the first child if `after` is `None`.
    pub(crate) fn next_child(&self, parent: NodeId, after: Option<&Name>) -> Option<NodeId>
        ensures next { IsNextChild self.now.nodes parent (option_copied after.entry) result }
        ensures nodes { AreNodes self.now.nodes }
    {
        self.families().next_child(parent, after)
    }

    // Returns the nodes together with their order by parent and name.
    fn families(&self) -> Families<'_>
        ensures nodes { result.top.now ∷ result.nodes.now ≡ self.now.nodes }
        ensures order { AreFamilies (result.top.now ∷ result.nodes.now) result.order.now }
        ensures tree { AreNodes (result.top.now ∷ result.nodes.now) }
    {
        Families {
            top: &self.top,
            nodes: self.nodes.as_slice(),
            order: self.families.as_slice(),
        }
    }
}

// Returns the index in `order` at which a child of `parent` with this name is to be inserted.
fn place_of(
    top: &KeptNode,
    nodes: &[KeptNode],
    order: &[NodeId],
    parent: NodeId,
    name: &Name,
) -> usize
    requires { AreFamilies (top.now ∷ nodes.now) order.now }
    ensures within { result ≤ length order.now }
    ensures parts { IsPartitionPoint (λ n. is_in_front (top.now ∷ nodes.now) (parent, name.now) n ≡ true) (λ n. is_in_front (top.now ∷ nodes.now) (parent, name.now) n ≡ false) order.now result }
{
    let families = Families { top, nodes, order };
    families.count_in_front(parent, name.as_bytes())
}

// Appends a node, for which capacity is reserved, and returns its number.
fn push(nodes: &mut Vec<KeptNode>, node: KeptNode) -> NodeId
    requires few { length nodes.old.items < most_nodes }
    requires room { length nodes.old.items < vec_capacity nodes.old }
    ensures number { result ≡ length nodes.old.items + 1 }
    ensures added { nodes.new.items ≡ nodes.old.items ++ node ∷ [] }
{
    let number = nodes.len() + 1;
    let Ok(()) = nodes.push(node) else {
        unreachable!()
    };
    NodeId::new(number as u16)
}

// Inserts a node at an index of the list of families, for which capacity is reserved.
fn insert(families: &mut Vec<NodeId>, place: usize, node: NodeId)
    requires within { place ≤ length families.old.items }
    requires room { length families.old.items < vec_capacity families.old }
    ensures { families.new.items ≡ insert families.old.items place node }
{
    let Ok(()) = families.insert(place, node) else {
        unreachable!()
    };
}

impl Room {
    // Returns the path of the child with this name, using up the reserved capacity.
    fn child(self, name: &Name) -> Path
        requires { path_fault (self.path ++ name.now ∷ []) ≡ None }
        ensures { result ≡ self.path ++ name.now ∷ [] }
    {
        let Room { parent: _, path } = self;
        let Ok(path) = path.child(name) else {
            unreachable!()
        };
        path
    }
}
