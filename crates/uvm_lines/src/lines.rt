//! The lines of the entries of a log.

ghost use Rattle.std.specs.Prelude.{◌≡◌, ◌++◌, ◌∷◌, [], IfOk, OnOk, OnErr};
ghost use Rattle.std.specs.Fmt.{decimal, signed_decimal};
ghost use Rattle.uvm_glob.specs.Printed.{IsPrinted};
ghost use Rattle.uvm_report.specs.Plain.{IsPlainLine};
ghost use Rattle.uvm_object.specs.declared.entries.Entry.TheVariants.{Passed};
ghost use Rattle.uvm_acts.specs.declared.acts.Call.TheVariants as call;
ghost use Rattle.uvm_lines.specs.Lines.{entry_line, entry_text, who_text, call_text, value_text, outcome_text, reason_text};

use crate::act_lines::push_act;
use crate::item_lines::{answer_text, move_text, push_named, push_named_item, push_some_item};
use crate::sequence_lines::{push_finished, push_granted, push_locked, push_next_item, push_who};
use itoa::Buffer;
use std::alloc::{AllocError, Global};
use uvm_glob::Name;
use uvm_glob::laws::numbers_are_printed;
use uvm_object::{Call, Entry, Outcome, Passage, Reason, Who, push_node};
use uvm_sequences::Sequences;
use uvm_tlm::Item;
use uvm_tree::{NodeId, Tree};

/// Appends the line of an entry to `out`, with its newline. `tree` gives the paths of the nodes, and `sequences` the names of the
/// sequences. The root, and a node that the tree does not have, is `uvm_top`. Errors: out of memory. An error appends nothing.
///
/// If `out` is empty, the line is built in it; otherwise it is built in another vector and then copied.
pub fn line_of(
    entry: &Entry,
    tree: &Tree,
    sequences: &Sequences,
    out: &mut Vec<u8>,
) -> Result<(), AllocError>
    ensures ok { OnOk result (out.new.items ≡ out.old.items ++ entry_line tree.now.nodes sequences.now.started entry.now) }
    ensures err { OnErr result (out.new.items ≡ out.old.items) }
    ensures plain { OnOk result (IsPlainLine (entry_line tree.now.nodes sequences.now.started entry.now)) }
{
    if !out.is_empty() {
        let mut line = Vec::new(*out.allocator());
        push_line(entry, tree, sequences, &mut line)?;
        return out.extend_from_slice(line.as_slice());
    }
    let pushed = push_line(entry, tree, sequences, out);
    if pushed.is_err() {
        out.clear();
    }
    pushed
}

#[tactic(auto, using(crate::proofs::Printed::entry_plain))]
fn push_line(
    entry: &Entry,
    tree: &Tree,
    sequences: &Sequences,
    line: &mut Vec<u8>,
) -> Result<(), AllocError>
    ensures text { OnOk result (line.new.items ≡ line.old.items ++ entry_line tree.now.nodes sequences.now.started entry.now) }
    ensures plain { OnOk result (IsPlainLine (entry_line tree.now.nodes sequences.now.started entry.now)) }
{
    push_entry(entry, tree, sequences, line)?;
    line.push(b'\n')?;
    Ok(())
}

#[tactic(auto, using(crate::proofs::Printed::printed))]
fn push_entry(
    entry: &Entry,
    tree: &Tree,
    sequences: &Sequences,
    line: &mut Vec<u8>,
) -> Result<(), AllocError>
    ensures text { OnOk result (line.new.items ≡ line.old.items ++ entry_text tree.now.nodes sequences.now.started entry.now) }
    ensures printed { OnOk result (IsPrinted (entry_text tree.now.nodes sequences.now.started entry.now)) }
{
    match entry {
        Entry::Begin(phase) => push_two(b"begin ", phase.name(), line),
        Entry::End(phase) => push_two(b"end ", phase.name(), line),
        Entry::Time(time) => push_ticks(b"time ", *time, line),
        Entry::Heard {
            who,
            call,
            acts,
            ..
        } => {
            push_doer(b"heard ", who, tree, sequences, line)?;
            push_call(&call.get(), line)?;
            push_ticks(b": ", acts.len() as u64, line)
        }
        Entry::Did { who, outcome, act } => {
            push_doer(b"did ", who, tree, sequences, line)?;
            push_act(act.act().get(), line)?;
            line.extend_from_slice(b": ")?;
            push_outcome(&outcome.get(), line)
        }
        Entry::Locked { sequencer, id } => push_locked(*sequencer, *id, tree, sequences, line),
        Entry::Granted { sequencer, grant } => {
            push_granted(*sequencer, grant, tree, sequences, line)
        }
        Entry::Passed { fifo, passage } => {
            push_passage(*fifo, &passage.get(), tree, sequences, line)
        }
        Entry::Drained { node, .. } => push_node(b"drained ", *node, tree, line),
        Entry::Note { fatal, node } => {
            push_two(b"note ", fatal.id(), line)?;
            push_node(b" ", *node, tree, line)
        }
        Entry::Over(reason) => push_two(b"over ", reason_text(*reason), line),
    }
}

// Appends a text, a component or sequence, and a blank.
#[tactic(auto, using(crate::proofs::Printed::printed))]
fn push_doer(
    word: &[u8],
    who: &Who,
    tree: &Tree,
    sequences: &Sequences,
    line: &mut Vec<u8>,
) -> Result<(), AllocError>
    ensures text { OnOk result (line.new.items ≡ line.old.items ++ (word.now ++ who_text tree.now.nodes sequences.now.started who.now ++ 32 ∷ [])) }
    ensures printed { OnOk result (IsPrinted (who_text tree.now.nodes sequences.now.started who.now)) }
{
    line.extend_from_slice(word)?;
    push_who(who, tree, sequences, line)?;
    line.push(b' ')?;
    Ok(())
}

#[tactic(auto, using(crate::proofs::Printed::printed))]
fn push_passage(
    fifo: NodeId,
    passage: &Passage,
    tree: &Tree,
    sequences: &Sequences,
    line: &mut Vec<u8>,
) -> Result<(), AllocError>
    ensures text { OnOk result (line.new.items ≡ line.old.items ++ entry_text tree.now.nodes sequences.now.started (Passed fifo passage.now)) }
    ensures printed { OnOk result (IsPrinted (entry_text tree.now.nodes sequences.now.started (Passed fifo passage.now))) }
{
    push_node(b"passed ", fifo, tree, line)?;
    push_two(b" ", move_text(passage.kind), line)?;
    line.push(b' ')?;
    push_who(&passage.who, tree, sequences, line)
}

pub(crate) fn push_two(front: &[u8], back: &str, line: &mut Vec<u8>) -> Result<(), AllocError>
    ensures { OnOk result (line.new.items ≡ line.old.items ++ (front.now ++ back.now)) }
{
    line.extend_from_slice(front)?;
    line.extend_from_slice(back.as_bytes())
}

/// Returns the text of a call, as the line of its entry shows it, without the number of actions in the answer. Errors: out of memory.
#[tactic(auto, using(crate::proofs::Printed::printed))]
pub fn call_text(alloc: Global, call: &Call) -> Result<Vec<u8>, AllocError>
    ensures text { IfOk result (λ text. text.items ≡ call_text call.now) }
    ensures printed { OnOk result (IsPrinted (call_text call.now)) }
{
    let mut text = Vec::new(alloc);
    push_call(call, &mut text)?;
    Ok(text)
}

#[tactic(auto, using(crate::proofs::Printed::printed))]
fn push_call(call: &Call, line: &mut Vec<u8>) -> Result<(), AllocError>
    ensures text { OnOk result (line.new.items ≡ line.old.items ++ call_text call.now) }
    ensures printed { OnOk result (IsPrinted (call_text call.now)) }
{
    match call {
        Call::Phase(phase) => line.extend_from_slice(phase.name().as_bytes()),
        Call::Wake { tag } => {
            line.extend_from_slice(b"wake ")?;
            push_number(u64::from(*tag), line)
        }
        Call::Config { field, value } => {
            line.extend_from_slice(b"config ")?;
            line.extend_from_slice(field.as_bytes())?;
            line.push(b' ')?;
            push_value(*value, line)
        }
        Call::Stored { port } => push_named(b"stored ", port, line),
        Call::TryStored { port, stored } => push_stored(port, *stored, line),
        Call::Taken { port, item } => push_named_item(b"taken ", port, item, line),
        Call::TryTaken { port, item } => push_taken(port, item, line),
        Call::Peeked { port, item } => push_named_item(b"peeked ", port, item, line),
        Call::Written { imp, item } => push_named_item(b"written ", imp, item, line),
        Call::NextItem { port, item } => push_next_item(port, item, line),
        Call::PreStart => line.extend_from_slice(b"pre_start"),
        Call::Body => line.extend_from_slice(b"body"),
        Call::PostStart => line.extend_from_slice(b"post_start"),
        Call::Grant => line.extend_from_slice(b"grant"),
        Call::ItemDone { response } => {
            line.extend_from_slice(b"item_done ")?;
            push_some_item(response, line)
        }
        Call::Held => line.extend_from_slice(b"held"),
        Call::Finished { name, id } => push_finished(name, *id, line),
    }
}

#[tactic(auto, using(crate::proofs::Printed::printed))]
fn push_stored(port: &Name, stored: bool, line: &mut Vec<u8>) -> Result<(), AllocError>
    ensures text { OnOk result (line.new.items ≡ line.old.items ++ call_text (call.TryStored port.now stored)) }
    ensures printed { OnOk result (IsPrinted (call_text (call.TryStored port.now stored))) }
{
    push_named(b"try_stored ", port, line)?;
    push_two(b" ", answer_text(stored), line)
}

#[tactic(auto, using(crate::proofs::Printed::printed))]
fn push_taken(port: &Name, item: &Option<Item>, line: &mut Vec<u8>) -> Result<(), AllocError>
    ensures text { OnOk result (line.new.items ≡ line.old.items ++ call_text (call.TryTaken port.now item.now)) }
    ensures printed { OnOk result (IsPrinted (call_text (call.TryTaken port.now item.now))) }
{
    push_named(b"try_taken ", port, line)?;
    line.push(b' ')?;
    push_some_item(item, line)
}

#[tactic(auto, using(crate::proofs::Printed::printed))]
fn push_value(value: Option<i64>, line: &mut Vec<u8>) -> Result<(), AllocError>
    ensures text { OnOk result (line.new.items ≡ line.old.items ++ value_text value) }
    ensures printed { OnOk result (IsPrinted (value_text value)) }
{
    match value {
        Some(value) => push_integer(value, line),
        None => line.extend_from_slice(b"none"),
    }
}

#[tactic(auto, using(crate::proofs::Printed::printed))]
fn push_outcome(outcome: &Outcome, line: &mut Vec<u8>) -> Result<(), AllocError>
    ensures text { OnOk result (line.new.items ≡ line.old.items ++ outcome_text outcome.now) }
    ensures printed { OnOk result (IsPrinted (outcome_text outcome.now)) }
{
    match outcome {
        Outcome::Done => line.extend_from_slice(b"done"),
        Outcome::Made(type_name) => {
            line.extend_from_slice(b"made ")?;
            line.extend_from_slice(type_name.as_bytes())
        }
        Outcome::Started(id) => push_ticks(b"started ", id.number(), line),
        Outcome::Value(value) => {
            line.extend_from_slice(b"value ")?;
            push_value(*value, line)
        }
        Outcome::Stored(stored) => line.extend_from_slice(answer_text(*stored).as_bytes()),
        Outcome::Taken(item) => line.extend_from_slice(answer_text(item.is_some()).as_bytes()),
        Outcome::Waits(waits) => line.extend_from_slice(answer_text(*waits).as_bytes()),
        Outcome::Finished => line.extend_from_slice(b"finished"),
        Outcome::Refused(fatal) => push_two(b"refused ", fatal.id(), line),
    }
}

fn reason_text(reason: Reason) -> &'static str
    ensures { result.now ≡ reason_text reason }
{
    match reason {
        Reason::Finished => "finished",
        Reason::Exit => "exit",
        Reason::NoTest => "no_test",
        Reason::Stall => "stall",
        Reason::Timeout => "timeout",
    }
}

// Appends a text and a number in decimal.
pub(crate) fn push_ticks(word: &[u8], ticks: u64, line: &mut Vec<u8>) -> Result<(), AllocError>
    ensures text { OnOk result (line.new.items ≡ line.old.items ++ (word.now ++ decimal ticks)) }
    ensures printed { OnOk result (IsPrinted (decimal ticks)) }
{
    line.extend_from_slice(word)?;
    push_number(ticks, line)
}

pub(crate) fn push_number(n: u64, line: &mut Vec<u8>) -> Result<(), AllocError>
    ensures text { OnOk result (line.new.items ≡ line.old.items ++ decimal n) }
    ensures printed { IsPrinted (decimal n) }
{
    numbers_are_printed();
    let mut digits = Buffer::new();
    line.extend_from_slice(digits.format(n).as_bytes())
}

pub(crate) fn push_integer(n: i64, line: &mut Vec<u8>) -> Result<(), AllocError>
    ensures text { OnOk result (line.new.items ≡ line.old.items ++ signed_decimal n) }
    ensures printed { IsPrinted (signed_decimal n) }
{
    numbers_are_printed();
    let mut digits = Buffer::new();
    line.extend_from_slice(digits.format(n).as_bytes())
}
