//! Examples of the results of a tree, and checks that each call succeeds if memory is available. For the definitions, proofs/ has
//! further examples of nodes, walks, and nodes that cannot be added.

use std::alloc::{AllocError, Global};
use std::process::Abort;
use std::test::Fail;
use uvm_glob::{Direction, Name, Path, PathFault};
use uvm_tree::{NodeId, NodeKind, Tree, TreeFault};

// The nodes t, t.b, t.a and t.a.x.
#[derive(Clone, Copy)]
struct Small {
    t: NodeId,
    b: NodeId,
    a: NodeId,
    x: NodeId,
}

// Adds the nodes of `Small`, in the order t, t.b, t.a, t.a.x.
fn add_small(tree: &mut Tree) -> Result<Small, Fail> {
    let t = add(tree, NodeId::TOP, b"t", NodeKind::Component)?;
    let b = add(tree, t, b"b", NodeKind::Sequencer)?;
    let a = add(tree, t, b"a", NodeKind::Component)?;
    let x = add(tree, a, b"x", NodeKind::Port)?;
    Ok(Small { t, b, a, x })
}

fn add(tree: &mut Tree, parent: NodeId, name: &[u8], kind: NodeKind) -> Result<NodeId, Fail> {
    let name = Name::new(name)?;
    Ok(tree.add(parent, name, kind)?)
}

#[test]
fn nodes_are_walked_and_listed_in_order(rt: HostRuntime) -> Result<(), Fail> {
    let mut tree = Tree::new(rt.alloc());
    let small = add_small(&mut tree)?;
    walk(&rt, &tree, &small);
    list(&rt, rt.alloc(), &tree, &small);
    Ok(())
}

// Checks the node after each node of the walk down, and of the walk up.
fn walk<R: Abort>(rt: &R, tree: &Tree, small: &Small) {
    let (t, b, a, x) = (small.t, small.b, small.a, small.x);
    let down = [None, Some(t), Some(a), Some(x), Some(b), None];
    let up = [None, Some(x), Some(a), Some(b), Some(t), None];
    for place in 0..5 {
        assert!(rt; tree.next_down(down[place]) == down[place + 1]);
        assert!(rt; tree.next_up(up[place]) == up[place + 1]);
    }
}

fn list<R: Abort>(rt: &R, alloc: Global, tree: &Tree, small: &Small) {
    let (t, b, a, x) = (small.t, small.b, small.a, small.x);
    assert!(rt; is_path_order(alloc, tree, [t, a, x, b]) == Ok(true));
    assert!(rt; tree.is_before(Direction::Down, a, x) && tree.is_before(Direction::Up, x, a));
    assert!(rt; children(tree, t) == [Some(a), Some(b), None]);
}

fn is_path_order(alloc: Global, tree: &Tree, want: [NodeId; 4]) -> Result<bool, AllocError> {
    Ok(tree.path_order(alloc)?.as_slice() == want.as_slice())
}

// Returns the first three children of a node.
fn children(tree: &Tree, parent: NodeId) -> [Option<NodeId>; 3] {
    let mut children = tree.children(parent);
    [children.next(), children.next(), children.next()]
}

#[test]
fn nodes_show_what_they_are(rt: HostRuntime) -> Result<(), Fail> {
    let mut tree = Tree::new(rt.alloc());
    let Small { a, x, .. } = add_small(&mut tree)?;
    show(&rt, rt.alloc(), &tree, a, x);
    Ok(())
}

fn show<R: Abort>(rt: &R, alloc: Global, tree: &Tree, a: NodeId, x: NodeId) {
    assert!(rt; tree.kind(x) == Some(NodeKind::Port));
    assert!(rt; tree.parent(x) == Some(a));
    assert!(rt; tree.under(NodeId::TOP) == None);
    assert!(rt; has_path(tree, x, b"t.a.x"));
    assert!(rt; node_at(alloc, tree, b"t.a.x") == Ok(Some(x)));
    assert!(rt; node_below(alloc, tree, a, b"x") == Ok(Some(x)));
    assert!(rt; tree.child(a, &Name::literal("x")) == Some(x));
}

fn has_path(tree: &Tree, id: NodeId, text: &[u8]) -> bool {
    match tree.path(id) {
        Some(path) => path.as_bytes() == text,
        None => false,
    }
}

fn node_at(alloc: Global, tree: &Tree, text: &[u8]) -> Result<Option<NodeId>, PathFault> {
    let path = Path::parse(alloc, text)?;
    Ok(tree.find(&path))
}

fn node_below(
    alloc: Global,
    tree: &Tree,
    node: NodeId,
    text: &[u8],
) -> Result<Option<NodeId>, PathFault> {
    let path = Path::parse(alloc, text)?;
    Ok(tree.find_below(node, &path))
}

#[test]
fn a_node_is_added_where_there_is_room_and_once_alone(rt: HostRuntime) -> Result<(), Fail> {
    let name = Name::new(b"c")?;
    let mut tree = Tree::new(rt.alloc());
    let Small { t, .. } = add_small(&mut tree)?;
    assert!(rt; tree.reserve(t).is_ok());
    assert!(rt; tree.fault(t, &name) == None);
    assert!(rt; tree.add(t, name, NodeKind::Fifo).is_ok());
    assert!(rt; tree.fault(t, &name) == Some(TreeFault::NameTaken));
    Ok(())
}

#[test]
fn a_tree_has_no_node_of_another_tree(rt: HostRuntime) -> Result<(), Fail> {
    let mut tree = Tree::new(rt.alloc());
    let Small { x, .. } = add_small(&mut tree)?;
    assert!(rt; has_nothing_at(rt.alloc(), x));
    Ok(())
}

// Returns whether a tree with only the root has no such node, and `reserve` under it succeeds.
fn has_nothing_at(alloc: Global, missing: NodeId) -> bool {
    let mut tree = Tree::new(alloc);
    tree.reserve(missing).is_ok()
        && tree.kind(missing) == None
        && tree.parent(missing) == None
        && tree.under(missing) == None
        && tree.path(missing).is_none()
}

#[test]
fn a_path_of_33_names_is_too_deep(rt: HostRuntime) -> Result<(), Fail> {
    let mut tree = Tree::new(rt.alloc());
    add_below(&rt, &mut tree)
}

// Adds a child to each added child, down to the depth `Path::MAX_NAMES`. The next child then fails with `TooDeep`.
fn add_below<R: Abort>(rt: &R, tree: &mut Tree) -> Result<(), Fail> {
    let name = Name::new(b"n")?;
    let mut parent = NodeId::TOP;
    for _ in 0..Path::MAX_NAMES {
        parent = tree.add(parent, name, NodeKind::Component)?;
    }
    assert!(rt; tree.add(parent, name, NodeKind::Component) == Err(TreeFault::TooDeep));
    Ok(())
}

#[test]
fn the_node_4097_is_one_too_many(rt: HostRuntime) -> Result<(), Fail> {
    let mut tree = Tree::new(rt.alloc());
    fill(&rt, rt.alloc(), &mut tree)
}

// Adds `Tree::MAX_NODES` nodes, n0 and so on. Then a new name fails with `Full`, and a taken name with `NameTaken`.
fn fill<R: Abort>(rt: &R, alloc: Global, tree: &mut Tree) -> Result<(), Fail> {
    for number in 0..Tree::MAX_NODES {
        tree.add(NodeId::TOP, numbered(alloc, number)?, NodeKind::Export)?;
    }
    let (new, taken) = (numbered(alloc, Tree::MAX_NODES)?, numbered(alloc, 7)?);
    assert!(rt; tree.add(NodeId::TOP, new, NodeKind::Imp) == Err(TreeFault::Full));
    assert!(rt; tree.add(NodeId::TOP, taken, NodeKind::Imp) == Err(TreeFault::NameTaken));
    Ok(())
}

fn numbered(alloc: Global, number: usize) -> Result<Name, Fail> {
    let text = format!(in alloc; "n{number}")?;
    Ok(Name::new(text.as_bytes())?)
}

#[test]
fn faults_are_printed(rt: HostRuntime) -> Result<(), Fail> {
    assert!(rt; TreeFault::NoParent.to_string(rt.alloc())?.as_str() == "no such parent");
    Ok(())
}
