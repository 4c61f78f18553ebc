//! What is wrong with the answers of a document.

use crate::actions::actions_in;
use crate::advices::advice;
use crate::findings::{Finding, Level};
use crate::places::{ANSWERS, Document};
use crate::words::{ACTS, CALLS, first_word};
use bus_objects::BusObject;
use script_objects::{AnswerFault, Answers, FaultyAnswer};
use script_spans::{Step, locate};
use std::alloc::{AllocError, Global};
use toml::Table;
use uvm_glob::Name;

// Returns the finding about answers that are not a table.
pub(crate) fn no_table(alloc: Global, document: Document<'_>) -> Result<Finding, AllocError> {
    Ok(Finding {
        level: Level::Error,
        span: locate(alloc, document.text, &[Step::Key(ANSWERS)], false)?,
        text: format!(in alloc; "answers: not a table")?,
        advice: format!(in alloc; "write the answers of each type under a header [answers.TYPE]")?,
    })
}

// Returns the finding about an error of the answers.
pub(crate) fn answer_finding(
    alloc: Global,
    document: Document<'_>,
    answers: &Table,
    faulty: &FaultyAnswer<'_>,
) -> Result<Finding, AllocError> {
    let path = path_of(alloc, answers, faulty)?;
    let at_key = matches!(faulty.fault, AnswerFault::BadName | AnswerFault::NoCall);
    Ok(Finding {
        level: Level::Error,
        span: locate(alloc, document.text, path.as_slice(), at_key)?,
        text: format!(in alloc; "{faulty}")?,
        advice: answer_advice(alloc, faulty)?,
    })
}

// Returns the steps that lead to an error of the answers. The action at fault is the first with its text in the value of the call.
fn path_of<'a>(
    alloc: Global,
    answers: &'a Table,
    faulty: &FaultyAnswer<'a>,
) -> Result<Vec<Step<'a>>, AllocError> {
    if let (Some(call), Some(act)) = (faulty.call, faulty.act) {
        for action in &actions_in(alloc, answers)? {
            if action.type_name == faulty.type_name && action.call == call && action.text == act {
                return action.path(alloc);
            }
        }
    }
    let mut path = Vec::new(alloc);
    path.push(Step::Key(ANSWERS))?;
    path.push(Step::Key(faulty.type_name))?;
    if let Some(call) = faulty.call {
        path.push(Step::Key(call))?;
    }
    Ok(path)
}

// Returns what would be right, or nothing.
fn answer_advice(alloc: Global, faulty: &FaultyAnswer<'_>) -> Result<String, AllocError> {
    match (faulty.fault, faulty.call, faulty.act) {
        (AnswerFault::NoAct, _, Some(act)) => form_advice(alloc, act, &ACTS),
        (AnswerFault::NoCall, Some(call), _) => form_advice(alloc, call, &CALLS),
        (AnswerFault::NoList, _, _) => {
            format!(in alloc;
                "one answer is [\"ACTION\", ..]; several, each given once, are [[\"ACTION\", ..], ..]"
            )
        }
        _ => Ok(String::new(alloc)),
    }
}

// Returns the form of a line with this first word, or the first word that is nearest.
fn form_advice(alloc: Global, line: &str, forms: &[(&str, &str)]) -> Result<String, AllocError> {
    let word = first_word(line);
    let mut known = Vec::new(alloc);
    for (first, form) in forms {
        if *first == word {
            return format!(in alloc; "it is spelled {form}");
        }
        known.push(*first)?;
    }
    advice(alloc, word, known.as_slice())
}

// Returns the finding about a type that has answers but is not declared.
pub(crate) fn undeclared(
    alloc: Global,
    document: Document<'_>,
    name: &Name,
) -> Result<Finding, AllocError> {
    let spelled = format!(in alloc; "{name}")?;
    let path = [Step::Key(ANSWERS), Step::Key(spelled.as_str())];
    let names = document.type_names(alloc)?;
    Ok(Finding {
        level: Level::Error,
        span: locate(alloc, document.text, &path, true)?,
        text: format!(in alloc; "answers.{name}: not declared in 'type'")?,
        advice: advice(alloc, spelled.as_str(), names.as_slice())?,
    })
}

// Returns whether an object of a type answers calls without a client: the type has answers, or is built in.
pub(crate) fn has_object(answers: &Answers, name: &Name) -> bool {
    answers.of_type(name).is_some() || BusObject::of_type(name).is_some()
}

// Returns the finding about a declared type that has no object. `row` is its row, counted from 0.
pub(crate) fn no_object(
    alloc: Global,
    document: Document<'_>,
    row: usize,
    name: &Name,
) -> Result<Finding, AllocError> {
    let path = [Step::Key("type"), Step::Index(row), Step::Key("name")];
    Ok(Finding {
        level: Level::Error,
        span: locate(alloc, document.text, &path, false)?,
        text: format!(in alloc; "type {name} has no [answers.{name}] and is not built in")?,
        advice: format!(in alloc; "with an empty [answers.{name}] it does nothing")?,
    })
}
