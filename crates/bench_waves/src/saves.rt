//! A save file for GTKWave, which says what it shows at first.

use crate::headers::scope_of;
use crate::signals::{Signal, signals_of};
use bench_core::{Core, services};
use std::alloc::{AllocError, Global};
use std::io::{self, Write};
use uvm_tree::Tree;

/// Writes a save file for the waves of a run, for GTKWave: the variables of the run, those of the sequencers and FIFOs, and the last calls of
/// the components, with the names of their scopes. Of a run that ran out of memory nothing is written. Errors: the writer's; out of memory.
pub fn write_save<W: Write>(alloc: Global, core: &Core, out: &mut W) -> io::Result<()> {
    let Some(world) = core.world() else {
        return Ok(());
    };
    let text = save_of(alloc, services::tree(world))?;
    out.write_all(text.as_slice())
}

// Returns the text of a save file. Errors: out of memory.
fn save_of(alloc: Global, tree: &Tree) -> Result<Vec<u8>, AllocError> {
    let signals = signals_of(alloc, tree)?;
    let mut text = Vec::new(alloc);
    text.extend_from_slice(b"[timestart] 0\n[sst_width] 200\n[signals_width] 300\n")?;
    push_traces(tree, signals.as_slice(), false, &mut text)?;
    push_traces(tree, signals.as_slice(), true, &mut text)?;
    Ok(text)
}

// Appends the last calls, or the other variables but the raised objections of components, with the names of their scopes. Errors: out of
// memory.
fn push_traces(
    tree: &Tree,
    signals: &[Signal],
    calls: bool,
    text: &mut Vec<u8>,
) -> Result<(), AllocError> {
    let mut scope = None;
    for (place, signal) in signals.iter().enumerate() {
        let is_call = matches!(signal, Signal::Call(_));
        if is_call != calls || matches!(signal, Signal::Raised(_)) {
            continue;
        }
        if place == 0 || signal.node() != scope {
            scope = signal.node();
            text.extend_from_slice(b"@200\n-")?;
            text.extend_from_slice(scope_of(tree, signal))?;
            text.push(b'\n')?;
        }
        push_trace(tree, signal, text)?;
    }
    Ok(())
}

// Appends that a variable is shown: a text as it is, and a number in decimal. Errors: out of memory.
fn push_trace(tree: &Tree, signal: &Signal, text: &mut Vec<u8>) -> Result<(), AllocError> {
    let format: &[u8] = if signal.is_text() { b"@28\n" } else { b"@24\n" };
    text.extend_from_slice(format)?;
    text.extend_from_slice(scope_of(tree, signal))?;
    text.push(b'.')?;
    text.extend_from_slice(signal.name().as_bytes())?;
    text.push(b'\n')?;
    Ok(())
}
