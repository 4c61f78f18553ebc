//! The texts of sequences, of their actions and calls, and of those of drivers.

ghost use Rattle.std.specs.Prelude.{◌≡◌, ◌++◌, ◌∷◌, true, IfOk, OnOk};
ghost use Rattle.uvm_glob.specs.Printed.{IsPrinted};
ghost use Rattle.uvm_acts.specs.declared.acts.Act.TheVariants as act;
ghost use Rattle.uvm_acts.specs.declared.acts.Call.TheVariants as call;
ghost use Rattle.uvm_object.specs.declared.entries.Entry.TheVariants.{Granted, Locked};
ghost use Rattle.uvm_acts.specs.Acts.{is_sequencing};
ghost use Rattle.uvm_lines.specs.Lines.{act_text, call_text, drawn_text, entry_text, how_text, mode_text, priority_text, who_text};

use crate::item_lines::{push_item, push_named, push_some_item};
use crate::lines::{push_ticks, push_two};
use std::alloc::{AllocError, Global};
use uvm_glob::{Name, Path};
use uvm_object::{Act, Grant, Who, push_node, push_sequence};
use uvm_sequencer::{How, Mode};
use uvm_sequences::{SeqId, Sequences};
use uvm_tlm::Item;
use uvm_tree::{NodeId, Tree};

/// Returns the text of a component or a sequence, as the lines of entries show it: its path, followed for a sequence by `#` and its number.
/// Errors: out of memory.
#[tactic(auto, using(crate::proofs::Printed::printed))]
pub fn who_text(
    alloc: Global,
    who: &Who,
    tree: &Tree,
    sequences: &Sequences,
) -> Result<Vec<u8>, AllocError>
    ensures text { IfOk result (λ text. text.items ≡ who_text tree.now.nodes sequences.now.started who.now) }
    ensures printed { OnOk result (IsPrinted (who_text tree.now.nodes sequences.now.started who.now)) }
{
    let mut text = Vec::new(alloc);
    push_who(who, tree, sequences, &mut text)?;
    Ok(text)
}

// Appends the text of a component, or of a sequence with its number.
#[tactic(auto, using(crate::proofs::Printed::printed))]
pub(crate) fn push_who(
    who: &Who,
    tree: &Tree,
    sequences: &Sequences,
    line: &mut Vec<u8>,
) -> Result<(), AllocError>
    ensures text { OnOk result (line.new.items ≡ line.old.items ++ who_text tree.now.nodes sequences.now.started who.now) }
    ensures printed { OnOk result (IsPrinted (who_text tree.now.nodes sequences.now.started who.now)) }
{
    match who {
        Who::Node(node) => push_node(b"", *node, tree, line),
        Who::Sequence { id, home } => {
            push_sequence(*id, *home, tree, sequences, line)?;
            push_ticks(b"#", id.number(), line)
        }
    }
}

#[tactic(auto, using(crate::proofs::Printed::printed))]
pub(crate) fn push_locked(
    sequencer: NodeId,
    id: SeqId,
    tree: &Tree,
    sequences: &Sequences,
    line: &mut Vec<u8>,
) -> Result<(), AllocError>
    ensures text { OnOk result (line.new.items ≡ line.old.items ++ entry_text tree.now.nodes sequences.now.started (Locked sequencer id)) }
    ensures printed { OnOk result (IsPrinted (entry_text tree.now.nodes sequences.now.started (Locked sequencer id))) }
{
    let who = Who::Sequence {
        id,
        home: sequencer,
    };
    push_node(b"locked ", sequencer, tree, line)?;
    line.push(b' ')?;
    push_who(&who, tree, sequences, line)
}

#[tactic(auto, using(crate::proofs::Printed::printed))]
pub(crate) fn push_granted(
    sequencer: NodeId,
    grant: &Grant,
    tree: &Tree,
    sequences: &Sequences,
    line: &mut Vec<u8>,
) -> Result<(), AllocError>
    ensures text { OnOk result (line.new.items ≡ line.old.items ++ entry_text tree.now.nodes sequences.now.started (Granted sequencer grant.now)) }
    ensures printed { OnOk result (IsPrinted (entry_text tree.now.nodes sequences.now.started (Granted sequencer grant.now))) }
{
    let who = Who::Sequence {
        id: grant.id,
        home: sequencer,
    };
    push_node(b"granted ", sequencer, tree, line)?;
    line.push(b' ')?;
    push_who(&who, tree, sequences, line)?;
    push_drawn(grant.word, line)
}

// Appends ` word ` and the random number that was consumed, if there is one.
#[tactic(auto, using(crate::proofs::Printed::printed))]
fn push_drawn(word: Option<u64>, line: &mut Vec<u8>) -> Result<(), AllocError>
    ensures text { OnOk result (line.new.items ≡ line.old.items ++ drawn_text word) }
    ensures printed { OnOk result (IsPrinted (drawn_text word)) }
{
    match word {
        Some(word) => push_ticks(b" word ", word, line),
        None => Ok(()),
    }
}

#[tactic(auto, using(crate::proofs::Printed::printed))]
pub(crate) fn push_next_item(
    port: &Name,
    item: &Option<Item>,
    line: &mut Vec<u8>,
) -> Result<(), AllocError>
    ensures text { OnOk result (line.new.items ≡ line.old.items ++ call_text (call.NextItem port.now item.now)) }
    ensures printed { OnOk result (IsPrinted (call_text (call.NextItem port.now item.now))) }
{
    push_named(b"next_item ", port, line)?;
    line.push(b' ')?;
    push_some_item(item, line)
}

#[tactic(auto, using(crate::proofs::Printed::printed))]
pub(crate) fn push_finished(name: &Name, id: SeqId, line: &mut Vec<u8>) -> Result<(), AllocError>
    ensures text { OnOk result (line.new.items ≡ line.old.items ++ call_text (call.Finished name.now id)) }
    ensures printed { OnOk result (IsPrinted (call_text (call.Finished name.now id))) }
{
    push_named(b"finished ", name, line)?;
    push_ticks(b" ", id.number(), line)
}

#[tactic(auto, using(crate::proofs::Printed::printed))]
pub(crate) fn push_sequencing(act: &Act, line: &mut Vec<u8>) -> Result<(), AllocError>
    requires { is_sequencing act.now ≡ true }
    ensures text { OnOk result (line.new.items ≡ line.old.items ++ act_text act.now) }
    ensures printed { OnOk result (IsPrinted (act_text act.now)) }
{
    match act {
        Act::Ask { port, how } => push_ask(port, *how, line),
        Act::ItemDone { port, response } => push_done(port, response, line),
        Act::Start {
            type_name,
            name,
            on,
            priority,
        } => push_start(type_name, name, on, *priority, line),
        Act::Request { priority } => push_priority(b"request ", *priority, line),
        Act::Lock => line.extend_from_slice(b"lock"),
        Act::Grab => line.extend_from_slice(b"grab"),
        Act::Unlock => line.extend_from_slice(b"unlock"),
        Act::Send { item } => {
            line.extend_from_slice(b"send ")?;
            push_item(item, line)
        }
        Act::EndStep => line.extend_from_slice(b"end_step"),
        _ => unreachable!(),
    }
}

#[tactic(auto, using(crate::proofs::Printed::printed))]
fn push_ask(port: &Name, how: How, line: &mut Vec<u8>) -> Result<(), AllocError>
    ensures text { OnOk result (line.new.items ≡ line.old.items ++ act_text (act.Ask port.now how)) }
    ensures printed { OnOk result (IsPrinted (act_text (act.Ask port.now how))) }
{
    push_named(b"ask ", port, line)?;
    push_two(b" ", how_text(how), line)
}

#[tactic(auto, using(crate::proofs::Printed::printed))]
fn push_done(port: &Name, response: &Option<Item>, line: &mut Vec<u8>) -> Result<(), AllocError>
    ensures text { OnOk result (line.new.items ≡ line.old.items ++ act_text (act.ItemDone port.now response.now)) }
    ensures printed { OnOk result (IsPrinted (act_text (act.ItemDone port.now response.now))) }
{
    push_named(b"item_done ", port, line)?;
    line.push(b' ')?;
    push_some_item(response, line)
}

#[tactic(auto, using(crate::proofs::Printed::printed))]
fn push_start(
    type_name: &Name,
    name: &Name,
    on: &Path,
    priority: Option<u16>,
    line: &mut Vec<u8>,
) -> Result<(), AllocError>
    ensures text { OnOk result (line.new.items ≡ line.old.items ++ act_text (act.Start type_name.now name.now on.now priority)) }
    ensures printed { OnOk result (IsPrinted (act_text (act.Start type_name.now name.now on.now priority))) }
{
    push_named(b"start ", type_name, line)?;
    push_named(b" ", name, line)?;
    line.extend_from_slice(b" (")?;
    line.extend_from_slice(on.as_bytes())?;
    push_priority(b") ", priority, line)
}

// Appends a text and a priority, or `none` if there is none.
#[tactic(auto, using(crate::proofs::Printed::printed))]
fn push_priority(word: &[u8], priority: Option<u16>, line: &mut Vec<u8>) -> Result<(), AllocError>
    ensures text { OnOk result (line.new.items ≡ line.old.items ++ (word.now ++ priority_text priority)) }
    ensures printed { OnOk result (IsPrinted (priority_text priority)) }
{
    match priority {
        Some(priority) => push_ticks(word, u64::from(priority), line),
        None => push_two(word, "none", line),
    }
}

pub(crate) fn mode_text(mode: Mode) -> &'static str
    ensures { result.now ≡ mode_text mode }
{
    match mode {
        Mode::Fifo => "FIFO",
        Mode::Weighted => "WEIGHTED",
        Mode::Random => "RANDOM",
        Mode::StrictFifo => "STRICT_FIFO",
        Mode::StrictRandom => "STRICT_RANDOM",
    }
}

fn how_text(how: How) -> &'static str
    ensures { result.now ≡ how_text how }
{
    match how {
        How::Next => "next",
        How::Try => "try",
        How::Get => "get",
    }
}
