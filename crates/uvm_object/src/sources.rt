//! The texts of nodes and sequences: a node by its path, a sequence by its sequencer's path and the names from its root sequence down.

ghost use Rattle.std.specs.Prelude.{◌≡◌, ◌∷◌, ◌++◌, IfOk, OnOk};
ghost use Rattle.uvm_glob.specs.Paths.{path_text};
ghost use Rattle.uvm_glob.specs.Printed.{IsPrinted};
ghost use Rattle.uvm_tree.specs.Nodes.{path_at};
ghost use Rattle.uvm_object.specs.Sources.{sequence_text, shown_path, source_text};

use std::alloc::{AllocError, Global};
use uvm_acts::Who;
use uvm_glob::Name;
use uvm_sequences::{SeqId, Sequences};
use uvm_tree::{NodeId, Tree};

/// Returns the text of a node: its path; `uvm_top` for the root, and for a node that the tree does not have. Allocates no memory.
pub fn shown_path(node: NodeId, tree: &Tree) -> &[u8]
    ensures text { result.now ≡ shown_path (path_at tree.now.nodes node) }
    ensures printed { IsPrinted result.now }
{
    match tree.path(node) {
        Some(path) if !path.as_bytes().is_empty() => path.as_bytes(),
        _ => b"uvm_top",
    }
}

/// Returns the text of the source of a report (IEEE 1800.2-2020, Clause 6). For a component it is its path. For a sequence it is the path of its
/// sequencer and the names from its root sequence down to itself, as `uvm_test_top.sqr@@a.b`. Errors: out of memory.
pub fn source_of(
    alloc: Global,
    who: &Who,
    tree: &Tree,
    sequences: &Sequences,
) -> Result<Vec<u8>, AllocError>
    ensures text { IfOk result (λ source. source.items ≡ source_text tree.now.nodes sequences.now.started who.now) }
    ensures printed { OnOk result (IsPrinted (source_text tree.now.nodes sequences.now.started who.now)) }
{
    let mut source = Vec::new(alloc);
    match who {
        Who::Node(node) => push_node(b"", *node, tree, &mut source)?,
        Who::Sequence { id, home } => push_sequence(*id, *home, tree, sequences, &mut source)?,
    }
    Ok(source)
}

/// Appends `word` and the text of a node as `shown_path` returns it. Errors: out of memory. After an error an unspecified part is appended.
pub fn push_node(
    word: &[u8],
    node: NodeId,
    tree: &Tree,
    line: &mut Vec<u8>,
) -> Result<(), AllocError>
    ensures text { OnOk result (line.new.items ≡ line.old.items ++ (word.now ++ shown_path (path_at tree.now.nodes node))) }
    ensures printed { OnOk result (IsPrinted (shown_path (path_at tree.now.nodes node))) }
{
    line.extend_from_slice(word)?;
    line.extend_from_slice(shown_path(node, tree))
}

/// Appends the text of a sequence as `source_of` returns it. Errors: out of memory. After an error an unspecified part is appended.
#[tactic(auto, using(crate::proofs::Joined::sequence_printed))]
pub fn push_sequence(
    id: SeqId,
    home: NodeId,
    tree: &Tree,
    sequences: &Sequences,
    line: &mut Vec<u8>,
) -> Result<(), AllocError>
    ensures text { OnOk result (line.new.items ≡ line.old.items ++ sequence_text tree.now.nodes sequences.now.started id home) }
    ensures printed { OnOk result (IsPrinted (sequence_text tree.now.nodes sequences.now.started id home)) }
{
    push_node(b"", home, tree, line)?;
    line.extend_from_slice(b"@@")?;
    let names = sequences.names(*line.allocator(), id)?;
    push_joined(names.as_slice(), line)
}

// Appends names with dots between them.
fn push_joined(names: &[Name], line: &mut Vec<u8>) -> Result<(), AllocError>
    ensures text { OnOk result (line.new.items ≡ line.old.items ++ path_text names.now) }
    ensures printed { OnOk result (IsPrinted (path_text names.now)) }
{
    let Some((first, others)) = names.split_first() else {
        return Ok(());
    };
    line.extend_from_slice(first.as_bytes())?;
    for name in others {
        push_dotted(name, line)?;
    }
    Ok(())
}

// Appends a dot and a name.
fn push_dotted(name: &Name, line: &mut Vec<u8>) -> Result<(), AllocError>
    ensures text { OnOk result (line.new.items ≡ line.old.items ++ 46 ∷ name.now) }
    ensures printed { OnOk result (IsPrinted name.now) }
{
    line.push(b'.')?;
    line.extend_from_slice(name.as_bytes())
}
