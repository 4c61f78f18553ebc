//! Reads the actions of lines.

ghost use Rattle.std.specs.Prelude.{◌≡◌, IfOk, Ok, codes};
ghost use Rattle.uvm_acts.specs.declared.acts.What.{What};
ghost use Rattle.script_answer_acts.specs.Words.{what_words};
ghost use Rattle.script_answers.specs.Reading.{FitsWhat, ReadsAct, ReadsAfter, ReadsOneOf, port_words, time_words};
ghost use Rattle.script_answers.specs.AnswerActs.{IsPlain};
ghost use Rattle.script_answers.specs.Words.{words_left, words_of};

use crate::faults::LineFault;
use crate::items::{item, port_kind};
use crate::report_acts::report_act;
use crate::sequence_acts::{mode, sequence_act};
use crate::words::Words;
use std::alloc::Global;
use uvm_object::{Act, What};

// Returns the action of a line, by its first word. Ignores the words after the action. Errors: `NoAct` if the words are not an action; out
// of memory.
pub(crate) fn act_of(alloc: Global, line: &str) -> Result<Act, LineFault>
    ensures plain { IfOk result IsPlain }
    ensures reads { ReadsAct (words_of line.now) result }
{
    let mut words = Words::of(line);
    match words.word()? {
        "create" => Ok(Act::Create {
            type_name: words.name()?,
            name: words.name()?,
        }),
        "add" => Ok(Act::Add {
            name: words.name()?,
            what: what(&mut words)?,
        }),
        "set" => set_act(alloc, &mut words),
        "get" => Ok(Act::Get {
            field: words.name()?,
        }),
        "override" => override_act(alloc, &mut words),
        "connect" => connect_act(alloc, &mut words),
        "raise" | "drop" | "set_drain" | "wait" => time_act(line),
        "put" | "try_put" | "write" | "take" | "try_take" | "peek" => port_act(line),
        "report" | "verbosity" | "actions" | "severity" => report_act(alloc, line),
        _ => sequence_act(alloc, line),
    }
}

// Returns an action on objections or on time. Errors: `NoAct` if the words are not such an action.
fn time_act(line: &str) -> Result<Act, LineFault>
    ensures plain { IfOk result IsPlain }
    ensures reads { ReadsOneOf time_words (words_of line.now) result }
{
    let mut words = Words::of(line);
    match words.word()? {
        "raise" => Ok(Act::RaiseObjection {
            count: words.small()?,
        }),
        "drop" => Ok(Act::DropObjection {
            count: words.small()?,
        }),
        "set_drain" => Ok(Act::SetDrain {
            ticks: words.number()?,
        }),
        "wait" => Ok(Act::Wait {
            ticks: words.number()?,
            tag: words.tag()?,
        }),
        _ => Err(LineFault::NoAct),
    }
}

// Returns an action on a port. Errors: `NoAct` if the words are not such an action.
fn port_act(line: &str) -> Result<Act, LineFault>
    ensures plain { IfOk result IsPlain }
    ensures reads { ReadsOneOf port_words (words_of line.now) result }
{
    let mut words = Words::of(line);
    match words.word()? {
        "put" => Ok(Act::Put {
            port: words.name()?,
            item: item(&mut words)?,
        }),
        "try_put" => Ok(Act::TryPut {
            port: words.name()?,
            item: item(&mut words)?,
        }),
        "write" => Ok(Act::Write {
            port: words.name()?,
            item: item(&mut words)?,
        }),
        "take" => Ok(Act::Take {
            port: words.name()?,
        }),
        "try_take" => Ok(Act::TryTake {
            port: words.name()?,
        }),
        "peek" => Ok(Act::Peek {
            port: words.name()?,
        }),
        _ => Err(LineFault::NoAct),
    }
}

fn what(words: &mut Words<'_>) -> Result<What, LineFault>
    ensures { (what : What) → FitsWhat what → words_left words.old ≡ what_words what → result ≡ Ok what }
{
    match words.word()? {
        "sequencer" => Ok(What::Sequencer { mode: mode(words)? }),
        "fifo" => Ok(What::Fifo {
            size: words.small()?,
        }),
        "port" => Ok(What::Port {
            kind: port_kind(words)?,
        }),
        "export" => Ok(What::Export {
            kind: port_kind(words)?,
        }),
        "imp" => Ok(What::Imp),
        _ => Err(LineFault::NoAct),
    }
}

fn set_act(alloc: Global, words: &mut Words<'_>) -> Result<Act, LineFault>
    ensures plain { IfOk result IsPlain }
    ensures reads { ReadsAfter (codes "set") (words_left words.old) result }
{
    Ok(Act::Set {
        glob: words.glob(alloc)?,
        field: words.name()?,
        value: words.integer()?,
    })
}

fn connect_act(alloc: Global, words: &mut Words<'_>) -> Result<Act, LineFault>
    ensures plain { IfOk result IsPlain }
    ensures reads { ReadsAfter (codes "connect") (words_left words.old) result }
{
    Ok(Act::Connect {
        from: words.path(alloc)?,
        to: words.path(alloc)?,
    })
}

fn override_act(alloc: Global, words: &mut Words<'_>) -> Result<Act, LineFault>
    ensures plain { IfOk result IsPlain }
    ensures reads { ReadsAfter (codes "override") (words_left words.old) result }
{
    let original = words.name()?;
    let new = words.name()?;
    if words.is_done() {
        return Ok(Act::OverrideType {
            original,
            new,
            replace: false,
        });
    }
    match words.word()? {
        "replace" => Ok(Act::OverrideType {
            original,
            new,
            replace: true,
        }),
        "at" => Ok(Act::OverrideInst {
            original,
            new,
            glob: words.glob(alloc)?,
        }),
        _ => Err(LineFault::NoAct),
    }
}
