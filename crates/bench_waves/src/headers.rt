//! The head of a dump: the variables, each in the scope of its node.

use crate::signals::Signal;
use std::alloc::{AllocError, Global};
use uvm_tree::Tree;

// The scope of the variables of the run.
const RUN: &str = "uvm";

// Returns the head of a dump, with a variable for each signal; its code is its place. Errors: out of memory.
pub(crate) fn head_of(
    alloc: Global,
    tree: &Tree,
    signals: &[Signal],
    steps: u64,
) -> Result<Vec<u8>, AllocError> {
    let mut head = Vec::new(alloc);
    head.extend_from_slice(b"$version Geqiwlla $end\n$timescale 1 ns $end\n")?;
    let comment = format!(in alloc; "$comment steps in a tick: {steps} $end\n")?;
    head.extend_from_slice(comment.as_bytes())?;
    let mut depth = 0;
    let mut scope: &[u8] = b"";
    for (place, signal) in signals.iter().enumerate() {
        let path = scope_of(tree, signal);
        if path != scope {
            let shared = shared_names(scope, path);
            close_scopes(depth - shared.min(depth), &mut head)?;
            depth = open_scopes(path, shared, &mut head)?;
            scope = path;
        }
        let kind = if signal.is_text() {
            "string 1"
        } else {
            "integer 64"
        };
        let name = signal.name();
        let variable = format!(in alloc; "$var {kind} {place} {name} $end\n")?;
        head.extend_from_slice(variable.as_bytes())?;
    }
    close_scopes(depth, &mut head)?;
    head.extend_from_slice(b"$enddefinitions $end\n")?;
    Ok(head)
}

// Returns the scope of a variable: the names of its node, or that of the run, with dots between them.
pub(crate) fn scope_of<'a>(tree: &'a Tree, signal: &Signal) -> &'a [u8] {
    let path = match signal.node() {
        Some(node) => tree.path(node),
        None => None,
    };
    match path {
        Some(path) => path.as_bytes(),
        None => RUN.as_bytes(),
    }
}

// Returns how many names two scopes share at their beginning.
fn shared_names(one: &[u8], other: &[u8]) -> usize {
    let mut count = 0usize;
    let mut names = other.split(|byte| *byte == b'.');
    for name in one.split(|byte| *byte == b'.') {
        if names.next() != Some(name) {
            return count;
        }
        count = count.saturating_add(1);
    }
    count
}

// Opens the scopes of a path, except the first ones, which are open. Returns how many names the path has. Errors: out of memory.
fn open_scopes(path: &[u8], open: usize, head: &mut Vec<u8>) -> Result<usize, AllocError> {
    let mut depth = 0usize;
    for name in path.split(|byte| *byte == b'.') {
        if depth >= open {
            open_scope(name, head)?;
        }
        depth = depth.saturating_add(1);
    }
    Ok(depth)
}

// Opens a scope. Errors: out of memory.
fn open_scope(name: &[u8], head: &mut Vec<u8>) -> Result<(), AllocError> {
    head.extend_from_slice(b"$scope module ")?;
    head.extend_from_slice(name)?;
    head.extend_from_slice(b" $end\n")
}

// Closes some scopes. Errors: out of memory.
fn close_scopes(depth: usize, head: &mut Vec<u8>) -> Result<(), AllocError> {
    for _part in 0..depth {
        head.extend_from_slice(b"$upscope $end\n")?;
    }
    Ok(())
}
