//! What actions use of the tree: the depth of a node, globs under its path, and new children.

ghost use Rattle.std.specs.Prelude.{◌≡◌, ℕ, ◌∷◌, ◌++◌, ◌≤◌, ◌<◌, OnOk, IfOk, length, [], None, Some, IsOk};
ghost use Rattle.uvm_glob.specs.Limits.{most_names};
ghost use Rattle.uvm_tree.specs.Nodes.{path_at, child};
ghost use Rattle.uvm_glob.specs.Paths.{path_text, dotted};
ghost use Rattle.bench_history.specs.Refusals.{child_refusal};
ghost use Rattle.world_state.specs.ObjectionsMatch.{AreNumbered};
ghost use Rattle.world_state.specs.Phased.{HasNode, nodes_in, spare_in};

use std::alloc::{AllocError, Global};
use uvm_glob::{Glob, Name, Path};
use uvm_phase::Phase;
use uvm_tree::{NodeId, NodeKind, Tree};
use world_state::objections::Objections;

/// Returns the depth of a node below the root: how many names its path has.
pub fn depth_of(tree: &Tree, node: NodeId) -> u8
    ensures depth { result ≡ length (path_at tree.now.nodes node) }
    ensures most { result ≤ most_names }
{
    match tree.path(node) {
        Some(path) => path.depth() as u8,
        None => 0,
    }
}

/// Returns the glob under the path of a node. Errors: out of memory.
pub fn scope_under(
    alloc: Global,
    tree: &Tree,
    node: NodeId,
    glob: &Glob,
) -> Result<Glob, AllocError>
    ensures { IfOk result (λ scope. scope ≡ dotted (path_text (path_at tree.now.nodes node)) glob.now) }
{
    match tree.path(node) {
        Some(path) => Glob::under(alloc, path, glob),
        None => glob.copy(),
    }
}

/// Adds a child with a free name and returns its node. No objection is raised at it, and its drain times are those that the script gives
/// for its path (IEEE 1800.2-2020, 10.5). Errors: out of memory, only if no capacity was reserved for a child of `parent`.
pub fn add_node(
    tree: &mut Tree,
    objections: &mut Objections,
    parent: NodeId,
    name: Name,
    kind: NodeKind,
) -> Result<NodeId, AllocError>
    requires free { child_refusal tree.old.nodes parent name ≡ None }
    requires parent { parent < length tree.old.nodes }
    requires numbered { (phase : Phase) → AreNumbered (nodes_in objections.old phase) (length tree.old.nodes) }
    ensures id { IfOk result (λ id. id ≡ length tree.old.nodes) }
    ensures nodes { OnOk result (tree.new.nodes ≡ tree.old.nodes ++ child tree.old.nodes parent name kind ∷ []) }
    ensures objections { OnOk result (HasNode (length tree.old.nodes) parent (path_at tree.old.nodes parent ++ name ∷ []) objections.old objections.new) }
    ensures given { objections.new.given ≡ objections.old.given }
    ensures memory { tree.old.spare ≡ Some parent → ((phase : Phase) → 0 < spare_in objections.old phase) → IsOk result }
{
    let node = add_child(tree, parent, name, kind)?;
    let path = path_of(tree, node);
    objections.add(node, parent, path)?;
    Ok(node)
}

// Returns the path of an existing node.
fn path_of(tree: &Tree, node: NodeId) -> &Path
    requires { node < length tree.now.nodes }
    ensures { result.now ≡ path_at tree.now.nodes node }
{
    match tree.path(node) {
        Some(path) => path,
        None => unreachable!(),
    }
}

// Adds a child with a free name and returns its node. Errors: out of memory, only if no capacity was reserved for a child of `parent`.
#[tactic(auto, unfolding(uvm_tree::specs::Nodes::add_fault))]
fn add_child(
    tree: &mut Tree,
    parent: NodeId,
    name: Name,
    kind: NodeKind,
) -> Result<NodeId, AllocError>
    requires { child_refusal tree.old.nodes parent name ≡ None }
    ensures id { IfOk result (λ id. id ≡ length tree.old.nodes) }
    ensures nodes { OnOk result (tree.new.nodes ≡ tree.old.nodes ++ child tree.old.nodes parent name kind ∷ []) }
    ensures memory { tree.old.spare ≡ Some parent → IsOk result }
{
    match tree.add(parent, name, kind) {
        Ok(id) => Ok(id),
        Err(_) => Err(AllocError),
    }
}
