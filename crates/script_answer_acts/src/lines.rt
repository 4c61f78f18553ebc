//! The lines of actions.

ghost use Rattle.std.specs.Prelude.{◌≡◌, ◌++◌, IfOk, OnOk};
ghost use Rattle.script_answer_acts.specs.Lines.{act_line, said_by, said_text};

use std::alloc::{AllocError, Global};
use uvm_lines::act_text;
use uvm_object::Act;

/// Returns the line of an action in an answer document: its text in the transcript, and for a report also its verbosity and text. Errors:
/// out of memory.
pub fn act_line(alloc: Global, act: &Act) -> Result<Vec<u8>, AllocError>
    ensures { IfOk result (λ line. line.items ≡ act_line act.now) }
{
    let mut line = act_text(alloc, act)?;
    push_said_by(act, &mut line)?;
    Ok(line)
}

// Appends the text that follows an action in its line: the verbosity and text of a report, and nothing for any other action. Errors: out of
// memory.
fn push_said_by(act: &Act, line: &mut Vec<u8>) -> Result<(), AllocError>
    ensures { OnOk result (line.new.items ≡ line.old.items ++ said_by act.now) }
{
    match act {
        Act::Report { report } => push_said(report.verbosity, report.text.as_bytes(), line),
        _ => Ok(()),
    }
}

// Appends the verbosity and the text of a report, each after a blank. Appends nothing if the verbosity is 0 and the text is empty, and
// omits only an empty text otherwise. Errors: out of memory.
fn push_said(verbosity: u16, text: &[u8], line: &mut Vec<u8>) -> Result<(), AllocError>
    ensures { OnOk result (line.new.items ≡ line.old.items ++ said_text verbosity text.now) }
{
    if verbosity == 0 && text.is_empty() {
        return Ok(());
    }
    let digits = verbosity.to_string(*line.allocator())?;
    line.push(b' ')?;
    line.extend_from_slice(digits.as_bytes())?;
    if text.is_empty() {
        return Ok(());
    }
    line.push(b' ')?;
    line.extend_from_slice(text)
}
