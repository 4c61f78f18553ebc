//! The texts of actions.

ghost use Rattle.std.specs.Prelude.{◌≡◌, ◌++◌, ◌∷◌, IfOk, OnOk};
ghost use Rattle.std.specs.Fmt.{decimal};
ghost use Rattle.uvm_glob.specs.Printed.{IsPrinted};
ghost use Rattle.uvm_acts.specs.declared.acts.Act.TheVariants as act;
ghost use Rattle.uvm_lines.specs.Lines.{act_text, actions_text, id_text, what_text, which_text};

use crate::item_lines::{kind_text, push_named, push_named_item};
use crate::lines::{push_integer, push_number, push_ticks, push_two};
use crate::sequence_lines::{mode_text, push_sequencing};
use std::alloc::{AllocError, Global};
use uvm_glob::{Glob, Name, Path};
use uvm_object::{Act, What};
use uvm_report::{Actions, Report, Severity, Which};

/// Returns the text of an action, as the line of its entry shows it, without its outcome. Errors: out of memory.
#[tactic(auto, using(crate::proofs::Printed::printed))]
pub fn act_text(alloc: Global, act: &Act) -> Result<Vec<u8>, AllocError>
    ensures text { IfOk result (λ text. text.items ≡ act_text act.now) }
    ensures printed { OnOk result (IsPrinted (act_text act.now)) }
{
    let mut text = Vec::new(alloc);
    push_act(act, &mut text)?;
    Ok(text)
}

#[tactic(auto, using(crate::proofs::Printed::printed))]
pub(crate) fn push_act(act: &Act, line: &mut Vec<u8>) -> Result<(), AllocError>
    ensures text { OnOk result (line.new.items ≡ line.old.items ++ act_text act.now) }
    ensures printed { OnOk result (IsPrinted (act_text act.now)) }
{
    match act {
        Act::Create { type_name, name } => push_names(b"create ", type_name, name, line),
        Act::Add { name, what } => push_addition(name, *what, line),
        Act::Set { glob, field, value } => push_setting(glob, field, *value, line),
        Act::Get { field } => push_bytes(b"get ", field.as_bytes(), line),
        Act::OverrideType {
            original,
            new,
            replace,
        } => push_override(original, new, *replace, line),
        Act::OverrideInst {
            original,
            new,
            glob,
        } => push_override_at(original, new, glob, line),
        Act::Connect { from, to } => push_connection(from, to, line),
        Act::Put { port, item } => push_named_item(b"put ", port, item, line),
        Act::TryPut { port, item } => push_named_item(b"try_put ", port, item, line),
        Act::Take { port } => push_named(b"take ", port, line),
        Act::TryTake { port } => push_named(b"try_take ", port, line),
        Act::Peek { port } => push_named(b"peek ", port, line),
        Act::Write { port, item } => push_named_item(b"write ", port, item, line),
        Act::Ask { .. }
        | Act::ItemDone { .. }
        | Act::Start { .. }
        | Act::Request { .. }
        | Act::Lock
        | Act::Grab
        | Act::Unlock
        | Act::Send { .. }
        | Act::EndStep => push_sequencing(act, line),
        Act::Report { report } => push_report(report, line),
        Act::Verbosity { which, level } => push_level(which, *level, line),
        Act::Actions { which, actions } => push_actions(which, *actions, line),
        Act::Severity { from, id, to } => push_change(*from, id, *to, line),
        Act::RaiseObjection { count } => push_count(b"raise ", *count, line),
        Act::DropObjection { count } => push_count(b"drop ", *count, line),
        Act::SetDrain { ticks } => push_ticks(b"set_drain ", *ticks, line),
        Act::Wait { ticks, tag } => push_wait(*ticks, *tag, line),
    }
}

#[tactic(auto, using(crate::proofs::Printed::printed))]
fn push_addition(name: &Name, what: What, line: &mut Vec<u8>) -> Result<(), AllocError>
    ensures text { OnOk result (line.new.items ≡ line.old.items ++ act_text (act.Add name.now what)) }
    ensures printed { OnOk result (IsPrinted (act_text (act.Add name.now what))) }
{
    push_bytes(b"add ", name.as_bytes(), line)?;
    line.push(b' ')?;
    push_what(what, line)
}

#[tactic(auto, using(crate::proofs::Printed::printed))]
fn push_setting(glob: &Glob, field: &Name, value: i64, line: &mut Vec<u8>) -> Result<(), AllocError>
    ensures text { OnOk result (line.new.items ≡ line.old.items ++ act_text (act.Set glob.now field.now value)) }
    ensures printed { OnOk result (IsPrinted (act_text (act.Set glob.now field.now value))) }
{
    push_bytes(b"set (", glob.as_bytes(), line)?;
    push_bytes(b") ", field.as_bytes(), line)?;
    line.push(b' ')?;
    push_integer(value, line)
}

#[tactic(auto, using(crate::proofs::Printed::printed))]
fn push_override(
    original: &Name,
    new: &Name,
    replace: bool,
    line: &mut Vec<u8>,
) -> Result<(), AllocError>
    ensures text { OnOk result (line.new.items ≡ line.old.items ++ act_text (act.OverrideType original.now new.now replace)) }
    ensures printed { OnOk result (IsPrinted (act_text (act.OverrideType original.now new.now replace))) }
{
    push_names(b"override ", original, new, line)?;
    if replace {
        line.extend_from_slice(b" replace")?;
    }
    Ok(())
}

#[tactic(auto, using(crate::proofs::Printed::printed))]
fn push_override_at(
    original: &Name,
    new: &Name,
    glob: &Glob,
    line: &mut Vec<u8>,
) -> Result<(), AllocError>
    ensures text { OnOk result (line.new.items ≡ line.old.items ++ act_text (act.OverrideInst original.now new.now glob.now)) }
    ensures printed { OnOk result (IsPrinted (act_text (act.OverrideInst original.now new.now glob.now))) }
{
    push_names(b"override ", original, new, line)?;
    push_bytes(b" at (", glob.as_bytes(), line)?;
    line.extend_from_slice(b")")
}

#[tactic(auto, using(crate::proofs::Printed::printed))]
fn push_connection(from: &Path, to: &Path, line: &mut Vec<u8>) -> Result<(), AllocError>
    ensures text { OnOk result (line.new.items ≡ line.old.items ++ act_text (act.Connect from.now to.now)) }
    ensures printed { OnOk result (IsPrinted (act_text (act.Connect from.now to.now))) }
{
    push_bytes(b"connect (", from.as_bytes(), line)?;
    push_bytes(b") (", to.as_bytes(), line)?;
    line.extend_from_slice(b")")
}

#[tactic(auto, using(crate::proofs::Printed::printed))]
fn push_report(report: &Report, line: &mut Vec<u8>) -> Result<(), AllocError>
    ensures text { OnOk result (line.new.items ≡ line.old.items ++ act_text (act.Report report.now)) }
    ensures printed { OnOk result (IsPrinted (act_text (act.Report report.now))) }
{
    push_two(b"report ", report.severity.name(), line)?;
    push_bytes(b" ", report.id.as_bytes(), line)
}

#[tactic(auto, using(crate::proofs::Printed::printed))]
fn push_level(which: &Which, level: u16, line: &mut Vec<u8>) -> Result<(), AllocError>
    ensures text { OnOk result (line.new.items ≡ line.old.items ++ act_text (act.Verbosity which.now level)) }
    ensures printed { OnOk result (IsPrinted (act_text (act.Verbosity which.now level))) }
{
    line.extend_from_slice(b"verbosity ")?;
    push_which(which, line)?;
    push_count(b" ", level, line)
}

#[tactic(auto, using(crate::proofs::Printed::printed))]
fn push_actions(which: &Which, actions: Actions, line: &mut Vec<u8>) -> Result<(), AllocError>
    ensures text { OnOk result (line.new.items ≡ line.old.items ++ act_text (act.Actions which.now actions)) }
    ensures printed { OnOk result (IsPrinted (act_text (act.Actions which.now actions))) }
{
    line.extend_from_slice(b"actions ")?;
    push_which(which, line)?;
    push_two(b" ", actions_text(actions), line)
}

#[tactic(auto, using(crate::proofs::Printed::printed))]
fn push_change(
    from: Severity,
    id: &Option<Name>,
    to: Severity,
    line: &mut Vec<u8>,
) -> Result<(), AllocError>
    ensures text { OnOk result (line.new.items ≡ line.old.items ++ act_text (act.Severity from id.now to)) }
    ensures printed { OnOk result (IsPrinted (act_text (act.Severity from id.now to))) }
{
    push_two(b"severity ", from.name(), line)?;
    line.push(b' ')?;
    push_id(id, line)?;
    push_two(b" ", to.name(), line)
}

#[tactic(auto, using(crate::proofs::Printed::printed))]
fn push_wait(ticks: u64, tag: u32, line: &mut Vec<u8>) -> Result<(), AllocError>
    ensures text { OnOk result (line.new.items ≡ line.old.items ++ act_text (act.Wait ticks tag)) }
    ensures printed { OnOk result (IsPrinted (act_text (act.Wait ticks tag))) }
{
    push_ticks(b"wait ", ticks, line)?;
    line.push(b' ')?;
    push_number(u64::from(tag), line)
}

// Appends a text and a count in decimal.
fn push_count(word: &[u8], count: u16, line: &mut Vec<u8>) -> Result<(), AllocError>
    ensures text { OnOk result (line.new.items ≡ line.old.items ++ (word.now ++ decimal count)) }
    ensures printed { OnOk result (IsPrinted (decimal count)) }
{
    push_ticks(word, u64::from(count), line)
}

// Appends a text and some bytes.
fn push_bytes(word: &[u8], bytes: &[u8], line: &mut Vec<u8>) -> Result<(), AllocError>
    ensures { OnOk result (line.new.items ≡ line.old.items ++ (word.now ++ bytes.now)) }
{
    line.extend_from_slice(word)?;
    line.extend_from_slice(bytes)
}

// Appends the text of the reports for which something is set.
#[tactic(auto, using(crate::proofs::Printed::printed))]
fn push_which(which: &Which, line: &mut Vec<u8>) -> Result<(), AllocError>
    ensures text { OnOk result (line.new.items ≡ line.old.items ++ which_text which.now) }
    ensures printed { OnOk result (IsPrinted (which_text which.now)) }
{
    match which {
        Which::All => line.extend_from_slice(b"all"),
        Which::Severity(severity) => line.extend_from_slice(severity.name().as_bytes()),
        Which::Id(id) => {
            line.extend_from_slice(b"id ")?;
            line.extend_from_slice(id.as_bytes())
        }
        Which::Both(severity, id) => {
            line.extend_from_slice(severity.name().as_bytes())?;
            line.push(b' ')?;
            line.extend_from_slice(id.as_bytes())
        }
    }
}

// Appends an id, or `none` if there is none.
#[tactic(auto, using(crate::proofs::Printed::printed))]
fn push_id(id: &Option<Name>, line: &mut Vec<u8>) -> Result<(), AllocError>
    ensures text { OnOk result (line.new.items ≡ line.old.items ++ id_text id.now) }
    ensures printed { OnOk result (IsPrinted (id_text id.now)) }
{
    match id {
        Some(id) => line.extend_from_slice(id.as_bytes()),
        None => line.extend_from_slice(b"none"),
    }
}

// Returns the text of a set of report actions, with commas between them; `none` if it is empty.
fn actions_text(actions: Actions) -> &'static str
    ensures { result.now ≡ actions_text actions }
{
    match (actions.display, actions.count, actions.exit) {
        (true, true, true) => "display,count,exit",
        (true, true, false) => "display,count",
        (true, false, true) => "display,exit",
        (true, false, false) => "display",
        (false, true, true) => "count,exit",
        (false, true, false) => "count",
        (false, false, true) => "exit",
        (false, false, false) => "none",
    }
}

// Appends a text and two names with a blank between them.
#[tactic(auto, using(crate::proofs::Printed::printed))]
fn push_names(
    word: &[u8],
    first: &Name,
    second: &Name,
    line: &mut Vec<u8>,
) -> Result<(), AllocError>
    ensures text { OnOk result (line.new.items ≡ line.old.items ++ (word.now ++ first.now ++ 32 ∷ second.now)) }
    ensures printed { OnOk result (IsPrinted (first.now ++ 32 ∷ second.now)) }
{
    line.extend_from_slice(word)?;
    line.extend_from_slice(first.as_bytes())?;
    line.push(b' ')?;
    line.extend_from_slice(second.as_bytes())
}

#[tactic(auto, using(crate::proofs::Printed::printed))]
fn push_what(what: What, line: &mut Vec<u8>) -> Result<(), AllocError>
    ensures text { OnOk result (line.new.items ≡ line.old.items ++ what_text what) }
    ensures printed { OnOk result (IsPrinted (what_text what)) }
{
    match what {
        What::Sequencer { mode } => push_two(b"sequencer ", mode_text(mode), line),
        What::Fifo { size } => push_count(b"fifo ", size, line),
        What::Port { kind } => push_two(b"port ", kind_text(kind), line),
        What::Export { kind } => push_two(b"export ", kind_text(kind), line),
        What::Imp => line.extend_from_slice(b"imp"),
    }
}
