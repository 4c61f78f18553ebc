//! Reads the actions on reports.

ghost use Rattle.std.specs.Prelude.{◌≡◌, ◌<◌, ◌^◌, ℕ, List, IfOk, IfSome, None, Ok, codes};
ghost use Rattle.std.specs.List.{join_with_byte};
ghost use Rattle.uvm_report.specs.Texts.{text_fault};
ghost use Rattle.uvm_report.specs.declared.severities.Actions.{Actions};
ghost use Rattle.uvm_lines.specs.Lines.{actions_text, id_text};
ghost use Rattle.script_answer_acts.specs.Sound.{IsName, IsPlainId};
ghost use Rattle.script_answer_acts.specs.Words.{said_words};
ghost use Rattle.script_answers.specs.Reading.{IsRead, ReadsAfter, ReadsOneOf, ReadsWhich, report_words};
ghost use Rattle.script_answers.specs.AnswerActs.{IsPlain};
ghost use Rattle.script_answers.specs.Words.{Reads, words_left, words_of};

use crate::faults::LineFault;
use crate::words::{Words, name_of, severity_of};
use std::alloc::Global;
use uvm_glob::Name;
use uvm_object::Act;
use uvm_report::{Actions, Report, Text, TextFault, Which};

// Returns the action on reports of a line. Errors: `NoAct` if the words are not such an action; out of memory.
pub(crate) fn report_act(alloc: Global, line: &str) -> Result<Act, LineFault>
    ensures plain { IfOk result IsPlain }
    ensures reads { ReadsOneOf report_words (words_of line.now) result }
{
    let mut words = Words::of(line);
    match words.word()? {
        "report" => report(alloc, &mut words),
        "verbosity" => Ok(Act::Verbosity {
            which: which(&mut words)?,
            level: words.small()?,
        }),
        "actions" => Ok(Act::Actions {
            which: which(&mut words)?,
            actions: actions(words.word()?)?,
        }),
        "severity" => Ok(Act::Severity {
            from: words.severity()?,
            id: some_id(&mut words)?,
            to: words.severity()?,
        }),
        _ => Err(LineFault::NoAct),
    }
}

// Reads the report after the word `report`. The verbosity and the text after its id may be missing: they are then 0 and empty.
fn report(alloc: Global, words: &mut Words<'_>) -> Result<Act, LineFault>
    ensures plain { IfOk result IsPlain }
    ensures reads { ReadsAfter (codes "report") (words_left words.old) result }
{
    let severity = words.severity()?;
    let id = words.name()?;
    let verbosity = verbosity_of(words)?;
    let text = text_of(alloc, words)?;
    Ok(Act::Report {
        report: Report {
            severity,
            id,
            text,
            verbosity,
        },
    })
}

// Reads the verbosity of a report. Returns 0 if no word is left.
fn verbosity_of(words: &mut Words<'_>) -> Result<u16, LineFault>
    ensures { (verbosity : ℕ) (text : List ℕ) → verbosity < 2 ^ 16 → words_left words.old ≡ said_words verbosity text
        → (result ≡ Ok verbosity) × (join_with_byte 32 (words_left words.new) ≡ text) }
{
    if words.is_done() {
        return Ok(0);
    }
    words.small()
}

// Reads the text of a report: all words that are left.
fn text_of(alloc: Global, words: &mut Words<'_>) -> Result<Text, LineFault>
    ensures { text_fault (join_with_byte 32 (words_left words.old)) ≡ None → IsRead (join_with_byte 32 (words_left words.old)) result }
{
    match Text::new(alloc, words.rest().as_bytes()) {
        Ok(text) => Ok(text),
        Err(TextFault::Memory) => Err(LineFault::Memory),
        Err(_) => Err(LineFault::NoAct),
    }
}

// Reads the next word as an id or `none`.
fn some_id(words: &mut Words<'_>) -> Result<Option<Name>, LineFault>
    ensures plain { IfOk result IsPlainId }
    ensures reads { Reads id_text (λ id. IfSome id IsName × IsPlainId id) (words_left words.old) (words_left words.new) result }
{
    match words.word()? {
        "none" => Ok(None),
        word => Ok(Some(name_of(word)?)),
    }
}

// Reads the reports that a setting is for: `all`, `SEVERITY`, `id ID` or `SEVERITY ID`. The word that follows is left.
fn which(words: &mut Words<'_>) -> Result<Which, LineFault>
    ensures { ReadsWhich (words_left words.old) (words_left words.new) result }
{
    let first = words.word()?;
    if first == "all" {
        return Ok(Which::All);
    }
    if first == "id" {
        return Ok(Which::Id(words.name()?));
    }
    let severity = severity_of(first).ok_or(LineFault::NoAct)?;
    let mut ahead = *words;
    ahead.word()?;
    if ahead.is_done() {
        return Ok(Which::Severity(severity));
    }
    Ok(Which::Both(severity, words.name()?))
}

fn actions(word: &str) -> Result<Actions, LineFault>
    ensures { (actions : Actions) → word.now ≡ actions_text actions → result ≡ Ok actions }
{
    let (display, count, exit) = match word {
        "display,count,exit" => (true, true, true),
        "display,count" => (true, true, false),
        "display,exit" => (true, false, true),
        "display" => (true, false, false),
        "count,exit" => (false, true, true),
        "count" => (false, true, false),
        "exit" => (false, false, true),
        "none" => (false, false, false),
        _ => return Err(LineFault::NoAct),
    };
    Ok(Actions {
        display,
        count,
        exit,
    })
}
