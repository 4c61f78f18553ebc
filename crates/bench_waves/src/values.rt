//! The values of variables, as the dump shows them.

ghost use Rattle.std.specs.Prelude.{◌≡◌, ◌++◌, [], IfOk, IsTrue, OnOk, length, map, option_and_then, true};
ghost use Rattle.std.specs.Option.{option_map_or};
ghost use Rattle.bench_history.specs.Arbitration.{sequencer_at};
ghost use Rattle.bench_history.specs.History.{running, stage_of};
ghost use Rattle.bench_history.specs.Passing.{fifo_state_at};
ghost use Rattle.bench_history.specs.Reports.{report_commands};
ghost use Rattle.bench_history.specs.Sequences.{sequences_of};
ghost use Rattle.uvm_report.specs.Commands.{report_counts};
ghost use Rattle.uvm_report.specs.Counts.{number_of};
ghost use Rattle.bench_waves.specs.Dumps.{IsLastLocked};
ghost use Rattle.bench_waves.specs.Signals.{IsSent, holder_at, objections_in, raised_in, served_by, value_of};
ghost use Rattle.bench_waves.specs.Values.{number_value, phase_value, sequence_name, sequence_value, shown_byte, text_value};

use crate::signals::Signal;
use bench_core::{World, services, status};
use itoa::Buffer;
use std::alloc::{AllocError, Global};
use uvm_lines::{act_text, call_text};
use uvm_object::{Act, Entry, Outcome, Who};
use uvm_phase::Phase;
use uvm_report::Severity;
use uvm_sequencer::Driver;
use uvm_sequences::{SeqId, Sequences};
use uvm_tree::NodeId;

// The first word of an action that sends an item, and a blank.
const SEND: &str = "send ";

// Appends the value of a variable, and returns true. Returns false for a last call or item that the newest entry has not changed. `locked`
// is the sequence that locked or grabbed a sequencer last, if the variable shows that. Errors: out of memory.
pub(crate) fn push_value(
    alloc: Global,
    world: &World,
    signal: &Signal,
    locked: Option<SeqId>,
    value: &mut Vec<u8>,
) -> Result<bool, AllocError>
    requires sound { world.now.sound ≡ true }
    requires locked { IsLastLocked world.now.history signal.now locked }
    requires empty { value.old.items ≡ [] }
    ensures { IfOk result (λ shown. shown ≡ true → value.new.items ≡ value_of world.now.script world.now.history signal.now) }
{
    match signal {
        Signal::Call(node) => return push_call(alloc, world, *node, value),
        Signal::Item(home) => return push_item(alloc, world, *home, value),
        Signal::Phase => push_phase(status::phase(world), value)?,
        Signal::Granted(home) => push_sequence(world, granted(world, *home), value)?,
        Signal::Holder(home) => push_sequence(world, holder(world, *home, locked), value)?,
        Signal::Objections => push_number(alloc, objections(world), value)?,
        Signal::Reports(severity) => push_number(alloc, reports(world, *severity), value)?,
        Signal::Raised(node) => push_number(alloc, raised(world, *node), value)?,
        Signal::Level(node) => push_number(alloc, level(world, *node), value)?,
        Signal::Waiting(node) => push_number(alloc, status::waiting(world, *node) as u64, value)?,
    }
    Ok(true)
}

// Appends the call of the newest entry, if a component received it, or `-` before the first entry. Returns whether it did. Errors: out of memory.
fn push_call(
    alloc: Global,
    world: &World,
    node: NodeId,
    value: &mut Vec<u8>,
) -> Result<bool, AllocError>
    requires { value.old.items ≡ [] }
    ensures { IfOk result (λ shown. shown ≡ true → value.new.items ≡ value_of world.now.script world.now.history (Signal.Call node)) }
{
    match world.log().last() {
        Some(
            Entry::Heard {
                who: Who::Node(receiver),
                call,
                ..
            },
        ) if *receiver == node => {
            let text = call_text(alloc, &call.get())?;
            push_text(text.as_slice(), value)?;
            Ok(true)
        }
        None => {
            push_text(b"", value)?;
            Ok(true)
        }
        _ => Ok(false),
    }
}

// Appends the item of the newest entry, if a sequence sent it at a sequencer, or `-` before the first entry. Returns whether it did. Errors: out of memory.
fn push_item(
    alloc: Global,
    world: &World,
    home: NodeId,
    value: &mut Vec<u8>,
) -> Result<bool, AllocError>
    requires { value.old.items ≡ [] }
    ensures { IfOk result (λ shown. shown ≡ true → value.new.items ≡ value_of world.now.script world.now.history (Signal.Item home)) }
{
    match world.log().last() {
        Some(
            Entry::Did {
                who: Who::Sequence { home: at, .. },
                outcome,
                act,
            },
        ) if *at == home && is_done(&outcome.get()) => push_sent(alloc, act.act().get(), value),
        None => {
            push_text(b"", value)?;
            Ok(true)
        }
        _ => Ok(false),
    }
}

// Returns whether an action was performed.
fn is_done(outcome: &Outcome) -> bool
    ensures { IsTrue result → outcome.now ≡ Outcome.Done }
{
    matches!(outcome, Outcome::Done)
}

// Appends the item that an action sends, and returns whether it does. Errors: out of memory.
fn push_sent(alloc: Global, act: &Act, value: &mut Vec<u8>) -> Result<bool, AllocError>
    requires { value.old.items ≡ [] }
    ensures { IfOk result (λ shown. shown ≡ true → IsSent act.now value.new.items) }
{
    let Act::Send { .. } = act else {
        return Ok(false);
    };
    let text = act_text(alloc, act)?;
    push_text(&text.as_slice()[SEND.len()..], value)?;
    Ok(true)
}

// Appends a number: `b`, and its binary digits. Errors: out of memory.
fn push_number(alloc: Global, number: u64, value: &mut Vec<u8>) -> Result<(), AllocError>
    ensures { OnOk result (value.new.items ≡ value.old.items ++ number_value number) }
{
    let digits = format!(in alloc; "b{number:b}")?;
    value.extend_from_slice(digits.as_bytes())
}

// Appends a text: `s`, and its bytes, with `_` for each blank; `-` for an empty one. Errors: out of memory.
fn push_text(text: &[u8], value: &mut Vec<u8>) -> Result<(), AllocError>
    ensures { OnOk result (value.new.items ≡ value.old.items ++ text_value text.now) }
{
    if text.is_empty() {
        return value.extend_from_slice(b"s-");
    }
    value.push(b's')?;
    push_shown(text, value)
}

// Appends the bytes of a text, with `_` for each blank. Errors: out of memory.
fn push_shown(text: &[u8], value: &mut Vec<u8>) -> Result<(), AllocError>
    ensures { OnOk result (value.new.items ≡ value.old.items ++ map shown_byte text.now) }
{
    for byte in text {
        value.push(shown(*byte))?;
    }
    Ok(())
}

// Returns a byte of a text: `_` for a blank.
fn shown(byte: u8) -> u8
    ensures { result ≡ shown_byte byte }
{
    if byte == b' ' { b'_' } else { byte }
}

// Appends the name of a phase; `-` for none. Errors: out of memory.
fn push_phase(phase: Option<Phase>, value: &mut Vec<u8>) -> Result<(), AllocError>
    ensures { OnOk result (value.new.items ≡ value.old.items ++ phase_value phase) }
{
    match phase {
        Some(phase) => push_text(phase.name().as_bytes(), value),
        None => push_text(b"", value),
    }
}

// Appends the name and the number of a sequence; `-` for none. Errors: out of memory.
fn push_sequence(
    world: &World,
    sequence: Option<SeqId>,
    value: &mut Vec<u8>,
) -> Result<(), AllocError>
    requires { world.now.sound ≡ true }
    ensures { OnOk result (value.new.items ≡ value.old.items ++ sequence_value (sequences_of world.now.history) sequence) }
{
    let Some(id) = sequence else {
        return push_text(b"", value);
    };
    let mut name = Vec::new(*value.allocator());
    push_name(services::sequences(world), id, &mut name)?;
    push_text(name.as_slice(), value)
}

// Appends the name and the number of a sequence. Errors: out of memory.
fn push_name(sequences: &Sequences, id: SeqId, name: &mut Vec<u8>) -> Result<(), AllocError>
    ensures { OnOk result (name.new.items ≡ name.old.items ++ sequence_name sequences.now.started id) }
{
    if let Some(own) = sequences.name(id) {
        name.extend_from_slice(own.as_bytes())?;
    }
    name.push(b'#')?;
    name.extend_from_slice(Buffer::new().format(id.number()).as_bytes())
}

// Returns the sequence to which a sequencer has granted the next item, or whose item its driver has.
fn granted(world: &World, home: NodeId) -> Option<SeqId>
    requires { world.now.sound ≡ true }
    ensures { result ≡ option_and_then (λ s. served_by s.driver) (sequencer_at world.now.history home) }
{
    match services::sequencer(world, home)?.state() {
        Driver::Granted(id, _) | Driver::InHand(id) => Some(*id),
        _ => None,
    }
}

// Returns the sequence that locked or grabbed a sequencer last, if it holds the sequencer.
fn holder(world: &World, home: NodeId, locked: Option<SeqId>) -> Option<SeqId>
    requires { world.now.sound ≡ true }
    ensures { result ≡ holder_at world.now.history home locked }
{
    let id = locked?;
    if services::sequencer(world, home)?.holds(id) {
        Some(id)
    } else {
        None
    }
}

// Returns the number of items in a FIFO.
fn level(world: &World, node: NodeId) -> u64
    requires { world.now.sound ≡ true }
    ensures { result ≡ option_map_or (λ fifo. length fifo.items) (fifo_state_at world.now.history node) 0 }
{
    match services::fifo(world, node) {
        Some(fifo) => fifo.len() as u64,
        None => 0,
    }
}

// Returns the number of reports that were issued with a severity.
fn reports(world: &World, severity: Severity) -> u64
    requires { world.now.sound ≡ true }
    ensures { result ≡ number_of (report_counts (report_commands world.now.script world.now.history)) severity }
{
    services::reports(world).count_of(severity)
}

// Returns the objections to the end of the active phase that began last, which are raised at a node itself.
fn raised(world: &World, node: NodeId) -> u64
    requires { world.now.sound ≡ true }
    ensures { result ≡ raised_in world.now.script world.now.history node (running (stage_of world.now.history)) }
{
    match status::phase(world) {
        Some(phase) => status::source_in(world, phase, node),
        None => 0,
    }
}

// Returns the objections to the end of the active phase that began last.
fn objections(world: &World) -> u64
    requires { world.now.sound ≡ true }
    ensures { result ≡ objections_in world.now.script world.now.history (running (stage_of world.now.history)) }
{
    match status::phase(world) {
        Some(phase) => status::total_in(world, phase, NodeId::TOP),
        None => 0,
    }
}
