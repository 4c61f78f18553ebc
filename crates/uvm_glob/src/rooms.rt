//! The path of a child for which memory is allocated before the name of the child is known.

ghost use Rattle.std.specs.Prelude.{◌≡◌, ◌++◌, ◌∷◌, [], ◌+◌, ◌≤◌, ◌<◌, length, None, Some, IfOk, IfErr, vec_capacity, vec_len};
ghost use Rattle.uvm_glob.specs.Limits.{most_name_bytes, most_text_bytes};
ghost use Rattle.uvm_glob.specs.Paths.{path_fault, names_of, dotted};

use crate::faults::PathFault;
use crate::names::Name;
use crate::paths::{Path, size_fault};
use std::alloc::{AllocError, Global};
use std::marker::Model;

/// The path of a parent, with reserved capacity for the name of a child. Contracts see the list of the parent's names.
#[derive(Drop)]
pub struct ChildRoom {
    text: Vec<u8>,
}

impl Model for ChildRoom {
    ghost use Rattle.std.specs.Prelude.{◌≡◌, ◌+◌, ◌≤◌, List, ℕ, None, length, vec_capacity};
    ghost use Rattle.uvm_glob.specs.Limits.{most_name_bytes};
    ghost use Rattle.uvm_glob.specs.Paths.{names_of, path_fault};

    ghost Value = { List (List ℕ) };

    ghost view = { λ r. names_of r.text.items };

    ghost invariant = { λ r. (path_fault (names_of r.text.items) ≡ None) × (length r.text.items + 1 + most_name_bytes ≤ vec_capacity r.text) };
}

impl ChildRoom {
    /// Creates a copy of the parent's path with capacity for a dot and a name of `Name::MAX_LEN` bytes. Errors: out of memory.
    pub fn new(parent: &Path) -> Result<ChildRoom, AllocError>
        ensures { IfOk result (λ room. room ≡ parent.now) }
    {
        let text = parent.text.as_slice();
        Ok(ChildRoom {
            text: with_room(*parent.text.allocator(), text)?,
        })
    }

    /// Returns the path of the child with this name. Does not allocate. Errors: `TooLong` if its text would have more than
    /// `Path::MAX_LEN` bytes; `TooDeep` if it would have more than `Path::MAX_NAMES` names.
    pub fn child(self, name: &Name) -> Result<Path, PathFault>
        ensures ok { IfOk result (λ path. (path_fault (self ++ name.now ∷ []) ≡ None) × (path ≡ self ++ name.now ∷ [])) }
        ensures err { IfErr result (λ fault. path_fault (self ++ name.now ∷ []) ≡ Some fault) }
    {
        let ChildRoom { text } = self;
        let back = name.as_bytes();
        match size_fault(text.as_slice(), back) {
            Some(fault) => Err(fault),
            None => Ok(Path {
                text: extended(text, back),
            }),
        }
    }
}

// Returns the text in a vector with capacity for a dot and a name of `Name::MAX_LEN` bytes. Errors: out of memory.
fn with_room(alloc: Global, text: &[u8]) -> Result<Vec<u8>, AllocError>
    requires { length text.now ≤ most_text_bytes }
    ensures items { IfOk result (λ held. held.items ≡ text.now) }
    ensures room { IfOk result (λ held. length held.items + 1 + most_name_bytes ≤ vec_capacity held) }
{
    let mut held = Vec::with_capacity(alloc, text.len() + 1 + Name::MAX_LEN)?;
    held.extend_from_slice(text)?;
    Ok(held)
}

// Returns the text with a dot and the name appended; omits the dot if the text or the name is empty.
fn extended(text: Vec<u8>, name: &[u8]) -> Vec<u8>
    requires room { length text.items + 1 + most_name_bytes ≤ vec_capacity text }
    requires name { length name.now ≤ most_name_bytes }
    ensures { result.items ≡ dotted text.items name.now }
{
    let mut text = text;
    if !text.is_empty() && !name.is_empty() {
        push_dot(&mut text);
    }
    let Ok(()) = text.extend_from_slice(name) else {
        unreachable!()
    };
    text
}

fn push_dot(text: &mut Vec<u8>)
    requires { vec_len text.old < vec_capacity text.old }
    ensures items { text.new.items ≡ text.old.items ++ 46 ∷ [] }
    ensures room { vec_capacity text.old ≤ vec_capacity text.new }
{
    let Ok(()) = text.push(b'.') else {
        unreachable!()
    };
}
