//! The check of a document.

use crate::answers::{answer_finding, has_object, no_object, no_table, undeclared};
use crate::findings::{Finding, Level};
use crate::places::{ANSWERS, Document};
use crate::scripts::script_finding;
use crate::suspicions::suspects;
use bench_script::{FaultyScript, Place, Reason, RootKey, Script, ScriptFault, read_placed};
use script_objects::{AnswerFault, Answers, read_answers};
use script_spans::Span;
use std::alloc::{AllocError, AllocFailed, Global};
use std::str;
use toml::Table;

// The greatest number of bytes of a document.
const MOST_BYTES: usize = 1_048_576;

// Why a check ends early.
#[derive(Drop)]
enum Stopped {
    // Memory ran out.
    Memory(AllocError),
    // The document is rejected.
    Rejected(Finding),
}

impl From<AllocError> for Stopped {
    fn from(error: AllocError) -> Stopped {
        Stopped::Memory(error)
    }
}

impl<T: Drop> From<AllocFailed<T>> for Stopped {
    fn from(_error: AllocFailed<T>) -> Stopped {
        Stopped::Memory(AllocError)
    }
}

/// Returns what is wrong with the document in `bytes`: the one error for which `run` rejects it; otherwise warnings about what has no effect, in
/// the order of their places.
/// With `serves`, types without answers are those of a client, so none of them needs an object. Errors: out of memory.
pub fn check(alloc: Global, bytes: &[u8], serves: bool) -> Result<Vec<Finding>, AllocError> {
    match findings_in(alloc, bytes, serves) {
        Ok(findings) => Ok(findings),
        Err(Stopped::Memory(error)) => Err(error),
        Err(Stopped::Rejected(finding)) => {
            let mut findings = Vec::new(alloc);
            match findings.push(finding) {
                Ok(()) => Ok(findings),
                Err(_) => Err(AllocError),
            }
        }
    }
}

fn findings_in(alloc: Global, bytes: &[u8], serves: bool) -> Result<Vec<Finding>, Stopped> {
    let text = text_of(alloc, bytes)?;
    let root = tree_of(alloc, text)?;
    let document = Document { text, root: &root };
    let script = script_in(alloc, document)?;
    let answers = answers_in(alloc, document, &script)?;
    if !serves {
        check_objects(alloc, document, &script, &answers)?;
    }
    let mut warnings = suspects(alloc, document, &script, &answers, serves)?;
    warnings.sort_by_key(|warning| warning.start())?;
    Ok(warnings)
}

// Returns the text that the bytes are.
fn text_of(alloc: Global, bytes: &[u8]) -> Result<&str, Stopped> {
    if bytes.len() > MOST_BYTES {
        return Err(rejected(alloc, None, Reason::TooLong)?);
    }
    match str::from_utf8(bytes) {
        Ok(text) => Ok(text),
        Err(error) => {
            let start = error.valid_up_to().min(bytes.len());
            let span = Span { start, end: start };
            Err(rejected(alloc, Some(span), Reason::NotText)?)
        }
    }
}

// Returns the rejection of a document as a whole.
fn rejected(alloc: Global, span: Option<Span>, reason: Reason) -> Result<Stopped, AllocError> {
    let label = reason.fault().label();
    Ok(Stopped::Rejected(Finding {
        level: Level::Error,
        span,
        text: format!(in alloc; "{reason} ({label})")?,
        advice: String::new(alloc),
    }))
}

// Returns the tree of a text.
fn tree_of(alloc: Global, text: &str) -> Result<Table, Stopped> {
    let error = match toml::table_from_str(alloc, text) {
        Ok(root) => return Ok(root),
        Err(error) => error,
    };
    if error.is_memory() {
        return Err(Stopped::Memory(AllocError));
    }
    let span = error.span().map(|span| Span {
        start: span.start,
        end: span.end,
    });
    let label = ScriptFault::NotToml.label();
    Err(Stopped::Rejected(Finding {
        level: Level::Error,
        span,
        text: format!(in alloc; "{} ({label})", error.message())?,
        advice: String::new(alloc),
    }))
}

// Returns the script of a document, which has a test.
fn script_in(alloc: Global, document: Document<'_>) -> Result<Script, Stopped> {
    let faulty = match read_placed(alloc, document.root, &[ANSWERS]) {
        Ok(script) if script.test().is_some() => return Ok(script),
        Ok(_) => FaultyScript {
            reason: Reason::Missing,
            place: Place::Key(RootKey::Test),
        },
        Err(faulty) => faulty,
    };
    if faulty.reason == Reason::Memory {
        return Err(Stopped::Memory(AllocError));
    }
    Err(Stopped::Rejected(script_finding(alloc, document, &faulty)?))
}

// Returns the answers of a document, each of a type of the script.
fn answers_in(alloc: Global, document: Document<'_>, script: &Script) -> Result<Answers, Stopped> {
    let Some(value) = document.root.get(ANSWERS) else {
        return Ok(Answers::new(alloc));
    };
    let Some(table) = value.as_table() else {
        return Err(Stopped::Rejected(no_table(alloc, document)?));
    };
    let answers = match read_answers(alloc, table) {
        Ok(answers) => answers,
        Err(faulty) if faulty.fault == AnswerFault::Memory => return Err(Stopped::Memory(
            AllocError,
        )),
        Err(faulty) => {
            let finding = answer_finding(alloc, document, table, &faulty)?;
            return Err(Stopped::Rejected(finding));
        }
    };
    for rules in answers.types() {
        let name = rules.type_name();
        if !script.types().iter().any(|row| row.0 == *name) {
            return Err(Stopped::Rejected(undeclared(alloc, document, name)?));
        }
    }
    Ok(answers)
}

// Checks that each type of the script has an object.
fn check_objects(
    alloc: Global,
    document: Document<'_>,
    script: &Script,
    answers: &Answers,
) -> Result<(), Stopped> {
    for (row, (name, _)) in script.types().iter().enumerate() {
        if !has_object(answers, name) {
            return Err(Stopped::Rejected(no_object(alloc, document, row, name)?));
        }
    }
    Ok(())
}
