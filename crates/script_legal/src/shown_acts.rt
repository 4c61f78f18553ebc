//! The answers that the lines of a transcript show.

use crate::lines::split_line;
use crate::words::{last_part, number_in};
use script_answers::{AnswerAct, LineFault};
use std::alloc::{AllocError, Global};
use std::str::from_utf8;
use uvm_object::{Act, Acts};

/// The greatest number of actions of an answer that is repeated.
pub const MOST_ACTS: u64 = 1_000_000;

/// Returns the number of actions in the line of a call; `None` if the line is none of a call.
pub fn count_in(line: &[u8]) -> Option<u64> {
    if !line.starts_with(b"heard ") {
        return None;
    }
    number_in(last_part(line))
}

/// Returns the answer to a call that a transcript shows: the line of the call, and the text behind it. It has as many actions as that line
/// says, and at most `MOST_ACTS`. Those that no line shows were not performed: `end_step` stands for each. An INFO that is not displayed has the
/// verbosity 0 if `issues` is true, so that it is issued, and otherwise the greatest, so that it is dropped. Errors: out of memory.
pub fn answer_in(
    alloc: Global,
    issues: bool,
    line: &[u8],
    rest: &[u8],
) -> Result<Acts, AllocError> {
    let mut acts = Acts::new(alloc);
    let count = count_in(line).unwrap_or(0).min(MOST_ACTS);
    push_shown((alloc, issues), rest, count, &mut acts)?;
    let shown = acts.len() as u64;
    for _ in shown..count {
        acts.push(Act::EndStep)?;
    }
    Ok(acts)
}

// Appends the actions that lines show, up to the next call, the end of the run or a line that shows no action. Errors: out of memory.
fn push_shown(
    (alloc, issues): (Global, bool),
    text: &[u8],
    count: u64,
    acts: &mut Acts,
) -> Result<(), AllocError> {
    let mut left = text;
    while !left.is_empty() && (acts.len() as u64) < count {
        let (line, rest) = split_line(left);
        left = rest;
        if line.starts_with(b"heard ") || line.starts_with(b"over ") {
            return Ok(());
        }
        if line.starts_with(b"did ") {
            let Some(act) = act_in((alloc, issues), line, rest)? else {
                return Ok(());
            };
            acts.push(act)?;
        }
    }
    Ok(())
}

// Returns the action that the line of an action shows. The text behind it may begin with the line of its report. Returns `None` if the line
// shows no action. Errors: out of memory.
fn act_in(
    (alloc, issues): (Global, bool),
    line: &[u8],
    rest: &[u8],
) -> Result<Option<Act>, AllocError> {
    let Some(text) = act_text_in(line) else {
        return Ok(None);
    };
    if !text.starts_with("report ") {
        return read_act(alloc, text);
    }
    let whole = match report_in(split_line(rest).0) {
        Some("") => return read_act(alloc, text),
        Some(said) => format!(in alloc; "{text} 0 {said}")?,
        None if !issues && text.starts_with("report INFO ") => format!(in alloc; "{text} 65535")?,
        None => return read_act(alloc, text),
    };
    read_act(alloc, whole.as_str())
}

// Returns the text of the action in its line `did WHO ACTION: OUTCOME`.
fn act_text_in(line: &[u8]) -> Option<&str> {
    let (_, shown) = from_utf8(line).ok()?.strip_prefix("did ")?.split_once(' ')?;
    let (act, _) = shown.rsplit_once(": ")?;
    Some(act)
}

// Returns the text of a report in its line `UVM_SEVERITY @ TIME: SOURCE [ID] TEXT`.
fn report_in(line: &[u8]) -> Option<&str> {
    let text = from_utf8(line).ok()?.strip_prefix("UVM_")?;
    let (_, said) = text.split_once("] ")?;
    Some(said)
}

// Returns the action with this text; `None` if it is that of none. Errors: out of memory.
fn read_act(alloc: Global, text: &str) -> Result<Option<Act>, AllocError> {
    match AnswerAct::read(alloc, text) {
        Ok(AnswerAct::Says(act)) => Ok(Some(act)),
        Err(LineFault::Memory) => Err(AllocError),
        Ok(AnswerAct::Passes(_)) | Err(_) => Ok(None),
    }
}
