//! What in a document has no effect, or fails whenever it is performed.

use crate::actions::{ActionAt, actions_in};
use crate::advices::advice;
use crate::findings::{Finding, Level};
use crate::places::{ANSWERS, Document, text_at};
use crate::words::{CREATED_BY, SEQUENCE_CALLS, SHARED_CALLS, first_word};
use bench_script::{Column, Script, TableArray};
use script_objects::Answers;
use script_spans::{Step, locate};
use std::alloc::{AllocError, Global};
use toml::{Table, Value};
use uvm_factory::Kind;

// A document that is accepted: its text and tree, its script, its answers, and their actions.
#[derive(Clone, Copy)]
struct Accepted<'a> {
    document: Document<'a>,
    script: &'a Script,
    answers: &'a Answers,
    actions: &'a [ActionAt<'a>],
}

// Returns a warning for each suspicious part of a document: overrides of a type by itself, calls that no object of a type receives, actions
// that name an undeclared type, and types that nothing creates. With `serves`, a client may create types.
pub(crate) fn suspects(
    alloc: Global,
    document: Document<'_>,
    script: &Script,
    answers: &Answers,
    serves: bool,
) -> Result<Vec<Finding>, AllocError> {
    let mut findings = Vec::new(alloc);
    let actions = match table_of(document) {
        Some(table) => actions_in(alloc, table)?,
        None => Vec::new(alloc),
    };
    let accepted = Accepted {
        document,
        script,
        answers,
        actions: actions.as_slice(),
    };
    push_overrides(alloc, document, &mut findings)?;
    push_calls(alloc, accepted, &mut findings)?;
    push_actions(alloc, accepted, &mut findings)?;
    if !serves {
        push_types(alloc, accepted, &mut findings)?;
    }
    Ok(findings)
}

// Returns the table of the answers.
fn table_of(document: Document<'_>) -> Option<&Table> {
    document.root.get(ANSWERS)?.as_table()
}

// Returns a warning at the value, or the key, to which a path leads.
fn warning(
    alloc: Global,
    document: Document<'_>,
    path: &[Step<'_>],
    at_key: bool,
    text: String,
) -> Result<Finding, AllocError> {
    Ok(Finding {
        level: Level::Warning,
        span: locate(alloc, document.text, path, at_key)?,
        text,
        advice: String::new(alloc),
    })
}

// The greatest number of warnings.
const MOST: usize = 64;

// Appends a warning, unless there are as many as there may be. Errors: out of memory.
fn push(findings: &mut Vec<Finding>, finding: Finding) -> Result<(), AllocError> {
    if findings.len() < MOST {
        findings.push(finding)?;
    }
    Ok(())
}

// Appends a warning for each override of a type by itself, if no other row overrides the type.
fn push_overrides(
    alloc: Global,
    document: Document<'_>,
    findings: &mut Vec<Finding>,
) -> Result<(), AllocError> {
    let rows = document.rows(TableArray::Override);
    for (index, row) in rows.iter().enumerate() {
        let original = text_at(row, Column::Orig);
        if findings.len() >= MOST {
            return Ok(());
        }
        if original == text_at(row, Column::New) && is_alone(rows, original) {
            let number = index.saturating_add(1);
            let text = format!(in alloc; "override {number}, new: a type is overridden by itself")?;
            let path = [Step::Key("override"), Step::Index(index), Step::Key("new")];
            push(findings, warning(alloc, document, &path, false, text)?)?;
        }
    }
    Ok(())
}

// Returns whether only one row overrides a type.
fn is_alone(rows: &[Value], original: Option<&str>) -> bool {
    let mut count = 0usize;
    for row in rows {
        if text_at(row, Column::Orig) == original {
            count = count.saturating_add(1);
        }
    }
    count == 1
}

// Appends a warning for each call of the answers that no object of the type receives.
fn push_calls(
    alloc: Global,
    accepted: Accepted<'_>,
    findings: &mut Vec<Finding>,
) -> Result<(), AllocError> {
    let Some(answers) = table_of(accepted.document) else {
        return Ok(());
    };
    for (type_name, value) in answers.iter() {
        let kind = kind_of(accepted.script, type_name.as_str());
        let (Some(calls), Some(kind)) = (value.as_table(), kind) else {
            continue;
        };
        for call in calls.keys() {
            if is_received(kind, first_word(call.as_str())) {
                continue;
            }
            let who = match kind {
                Kind::Component => "component",
                Kind::Sequence => "sequence",
            };
            let text = format!(in alloc;
                "answers.{type_name}.\"{call}\": a {who} never receives this call"
            )?;
            let path = [
                Step::Key(ANSWERS),
                Step::Key(type_name.as_str()),
                Step::Key(call.as_str()),
            ];
            push(
                findings,
                warning(alloc, accepted.document, &path, true, text)?,
            )?;
        }
    }
    Ok(())
}

// Returns the kind of a type.
fn kind_of(script: &Script, type_name: &str) -> Option<Kind> {
    for (name, kind) in script.types() {
        if name.as_bytes() == type_name.as_bytes() {
            return Some(*kind);
        }
    }
    None
}

// Returns whether an object of a kind can receive a call with this first word.
fn is_received(kind: Kind, word: &str) -> bool {
    let is_of_sequence = SEQUENCE_CALLS.contains(&word);
    match kind {
        Kind::Component => !is_of_sequence,
        Kind::Sequence => is_of_sequence || word == "*" || SHARED_CALLS.contains(&word),
    }
}

// Appends a warning for each action that names an undeclared type.
fn push_actions(
    alloc: Global,
    accepted: Accepted<'_>,
    findings: &mut Vec<Finding>,
) -> Result<(), AllocError> {
    for action in accepted.actions {
        for name in [action.made_type(), action.replaced_type()] {
            let Some(name) = name else {
                continue;
            };
            if kind_of(accepted.script, name).is_some() {
                continue;
            }
            let (type_name, call) = (action.type_name, action.call);
            let text = format!(in alloc; "answers.{type_name}.\"{call}\": no type \"{name}\"")?;
            let path = action.path(alloc)?;
            let names = accepted.document.type_names(alloc)?;
            let finding = Finding {
                level: Level::Warning,
                span: locate(alloc, accepted.document.text, path.as_slice(), false)?,
                text,
                advice: advice(alloc, name, names.as_slice())?,
            };
            push(findings, finding)?;
        }
    }
    Ok(())
}

// Appends a warning for each type that nothing creates.
fn push_types(
    alloc: Global,
    accepted: Accepted<'_>,
    findings: &mut Vec<Finding>,
) -> Result<(), AllocError> {
    for (index, (name, kind)) in accepted.script.types().iter().enumerate() {
        let spelled = format!(in alloc; "{name}")?;
        if is_test(accepted.script, index) || is_created(accepted, spelled.as_str()) {
            continue;
        }
        let verb = match kind {
            Kind::Component => "creates",
            Kind::Sequence => "starts",
        };
        let number = index.saturating_add(1);
        let path = [Step::Key("type"), Step::Index(index), Step::Key("name")];
        let finding = Finding {
            level: Level::Warning,
            span: locate(alloc, accepted.document.text, &path, false)?,
            text: format!(in alloc; "type {number}, name: nothing {verb} the type {name}")?,
            advice: match kind {
                Kind::Component => format!(in alloc; "as a test it is run with --test {name}")?,
                Kind::Sequence => String::new(alloc),
            },
        };
        push(findings, finding)?;
    }
    Ok(())
}

fn is_test(script: &Script, index: usize) -> bool {
    match script.test() {
        Some(test) => test.place() == index,
        None => false,
    }
}

// Returns whether an override, an action of the answers, or a built-in object names a type as one to create.
fn is_created(accepted: Accepted<'_>, name: &str) -> bool {
    let is_new = accepted
        .document
        .rows(TableArray::Override)
        .iter()
        .any(|row| text_at(row, Column::New) == Some(name));
    is_new
        || accepted
            .actions
            .iter()
            .any(|action| action.made_type() == Some(name))
        || is_built_in(accepted, name)
}

// Returns whether a built-in object creates or starts a type.
fn is_built_in(accepted: Accepted<'_>, name: &str) -> bool {
    CREATED_BY.iter().any(|(creator, created)| *created == name && has_built_in(accepted, creator))
}

// Returns whether a type is declared, and its object is built in.
fn has_built_in(accepted: Accepted<'_>, name: &str) -> bool {
    accepted.script.types().iter().any(|row| {
        row.0.as_bytes() == name.as_bytes() && accepted.answers.of_type(&row.0).is_none()
    })
}
