//! The iterator over the children of a node.

ghost use Rattle.std.specs.Prelude.{◌≡◌, Some, option_and_then};
ghost use Rattle.std.specs.Option.{option_copied};
ghost use Rattle.uvm_tree.specs.ChildCursors.{children_left};
ghost use Rattle.uvm_tree.specs.Children.{all_children, is_named_before, name_at};
ghost use Rattle.uvm_tree.specs.Cursors.{IsLeast};
ghost use Rattle.uvm_tree.specs.Nodes.{AreNodes};

use crate::nodes::NodeId;
use crate::trees::Tree;
use std::marker::Model;
use uvm_glob::Name;

/// An iterator over the children of a node, in byte order of their names. Contracts see the nodes of the tree and the children not yet
/// returned. Cost of a step: O(log n) comparisons of names for n nodes; no allocation.
#[derive(Drop)]
pub struct Children<'a> {
    cursor: Cursor<'a>,
}

impl<'a> Model for Children<'a> {
    ghost use Rattle.uvm_tree.specs.ChildCursors.{seen};
    ghost use Rattle.uvm_tree.specs.Children.{ChildrenValue};

    ghost Value = { ChildrenValue };

    ghost view = { λ c. seen c.cursor };
}

// The position of the iterator: the child that it returned last, if any.
#[derive(Drop)]
struct Cursor<'a> {
    tree: &'a Tree,
    parent: NodeId,
    last: Option<NodeId>,
}

impl<'a> Model for Cursor<'a> {
    ghost use Rattle.uvm_tree.specs.ChildCursors.{CursorValue};

    ghost Value = { CursorValue };

    ghost view = { λ c. record { nodes = c.tree.now.nodes; parent = c.parent; last = c.last } };
}

impl Tree {
    /// Returns an iterator over the children of `parent`, in byte order of their names, each once. It is empty if there is no such node.
    #[tactic(auto, using(crate::proofs::Left::seen_all))]
    pub fn children(&self, parent: NodeId) -> Children<'_>
        ensures { result ≡ all_children self.now.nodes parent }
    {
        Children {
            cursor: Cursor {
                tree: self,
                parent,
                last: None,
            },
        }
    }
}

impl Iterator for Children<'_> {
    ghost use Rattle.std.specs.Prelude.{length};
    ghost use Rattle.std.specs.Iterator.{at_most};
    ghost use Rattle.uvm_tree.specs.Children.{GivesNextChild};

    type Item = NodeId;

    ghost next_gives = { GivesNextChild };

    ghost remaining = { λ s. at_most (length s.left) };

    fn next(&mut self) -> Option<NodeId> {
        let child = self.cursor.next_child()?;
        self.cursor.pass(child);
        Some(child)
    }
}

impl Cursor<'_> {
    // Moves the cursor past `child`.
    fn pass(&mut self, child: NodeId)
        ensures { self.new ≡ record self.old { last = Some child } }
    {
        self.last = Some(child);
    }

    // Returns the next child, if there is one.
    fn next_child(&self) -> Option<NodeId>
        ensures next { IsLeast (is_named_before self.now.nodes) (children_left self.now) result }
        ensures nodes { AreNodes self.now.nodes }
    {
        self.tree.next_child(self.parent, self.last_name())
    }

    // Returns the name of the child that was returned last, if any.
    fn last_name(&self) -> Option<&Name>
        ensures { option_copied result ≡ option_and_then (name_at self.now.nodes) self.now.last }
    {
        self.tree.name(self.last?)
    }
}
