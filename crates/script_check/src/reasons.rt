//! The words about an error of a script.

use crate::advices::advice;
use crate::places::{Document, text_at};
use crate::words::{ACTIONS, KINDS, SEVERITIES, TASK_PHASES};
use bench_script::{Column, FaultyScript, Place, Reason, TableArray, root_keys};
use std::alloc::{AllocError, Global};
use toml::Value;

// Returns what is wrong, without the place.
pub(crate) fn reason_text(
    alloc: Global,
    document: Document<'_>,
    faulty: &FaultyScript,
) -> Result<String, AllocError> {
    let shown = shown(alloc, document.value_at(faulty))?;
    match faulty.reason {
        Reason::UnknownKey => {
            let key = document.unknown_key(faulty.place).unwrap_or("");
            format!(in alloc; "unknown key \"{key}\"")
        }
        Reason::Missing => format!(in alloc; "the key is missing"),
        Reason::NotArray => format!(in alloc; "{shown} is not an array of tables"),
        Reason::NotStringAt(_) => format!(in alloc; "{shown} is not a string"),
        Reason::KindsDiffer => kinds_text(alloc, document, faulty, shown.as_str()),
        Reason::SequenceTest => {
            format!(in alloc; "{shown} is a sequence type, but a test is a component")
        }
        Reason::NotAction(_) => format!(in alloc; "{shown} is not an action"),
        Reason::BadName(fault) => format!(in alloc; "{shown} is not a name: {fault}"),
        Reason::BadGlob(fault) => format!(in alloc; "{shown} is not a glob: {fault}"),
        Reason::BadPath(fault) => format!(in alloc; "{shown} is not a path: {fault}"),
        Reason::NameTaken => format!(in alloc; "an earlier type has the name {shown}"),
        Reason::UnknownType => format!(in alloc; "no type {shown}"),
        Reason::Version => format!(in alloc; "{shown} is neither 1 nor 2"),
        Reason::TooManyRows(_) | Reason::Memory => format!(in alloc; "{}", faulty.reason),
        reason => format!(in alloc; "{shown} is {reason}"),
    }
}

// Returns what is wrong with the kinds of an override.
fn kinds_text(
    alloc: Global,
    document: Document<'_>,
    faulty: &FaultyScript,
    new: &str,
) -> Result<String, AllocError> {
    let original = match faulty.place {
        Place::Cell(array, row, _) => match document.rows(array).get(row) {
            Some(row) => text_at(row, Column::Orig).unwrap_or(""),
            None => "",
        },
        _ => "",
    };
    format!(in alloc; "{new} is of another kind than \"{original}\"")
}

// Returns what would be right, or nothing.
pub(crate) fn reason_advice(
    alloc: Global,
    document: Document<'_>,
    faulty: &FaultyScript,
) -> Result<String, AllocError> {
    let value = document.value_at(faulty);
    let word = match value {
        Some(value) => value.as_str().unwrap_or(""),
        None => "",
    };
    match faulty.reason {
        Reason::UnknownKey => key_advice(alloc, document, faulty.place),
        Reason::UnknownType => advice(alloc, word, document.type_names(alloc)?.as_slice()),
        Reason::NotKind => advice(alloc, word, &KINDS),
        Reason::NotSeverity => advice(alloc, word, &SEVERITIES),
        Reason::NotAction(_) => advice(alloc, word, &ACTIONS),
        Reason::NotTaskPhase => advice(alloc, word, &TASK_PHASES),
        Reason::NameTaken => taken_advice(alloc, document, word),
        Reason::NotArray => match faulty.place {
            Place::Array(array) => {
                format!(in alloc; "write each row under a header [[{}]]", array.text())
            }
            _ => Ok(String::new(alloc)),
        },
        Reason::NotString | Reason::NotStringAt(_) => match value {
            Some(Value::Table(_) | Value::Array(_)) | None => Ok(String::new(alloc)),
            Some(_) => format!(in alloc; "write a string in quotation marks"),
        },
        Reason::NotInteger if word.parse::<i64>().is_ok() => {
            format!(in alloc; "write an integer without quotation marks")
        }
        _ => Ok(String::new(alloc)),
    }
}

// Returns advice about a key that is not allowed.
fn key_advice(alloc: Global, document: Document<'_>, place: Place) -> Result<String, AllocError> {
    let key = document.unknown_key(place).unwrap_or("");
    match place {
        Place::Row(array, _) => {
            let mut known = Vec::new(alloc);
            for column in array.columns() {
                known.push(column.text())?;
            }
            advice(alloc, key, known.as_slice())
        }
        _ => advice(alloc, key, root_keys(document.version())),
    }
}

// Returns advice about a name that another type has.
fn taken_advice(alloc: Global, document: Document<'_>, name: &str) -> Result<String, AllocError> {
    for (place, row) in document.rows(TableArray::Type).iter().enumerate() {
        if text_at(row, Column::Name) == Some(name) {
            let number = place.saturating_add(1);
            return format!(in alloc; "type {number} has this name");
        }
    }
    Ok(String::new(alloc))
}

// Returns a value as the file spells it, or what it is.
fn shown(alloc: Global, value: Option<&Value>) -> Result<String, AllocError> {
    match value {
        None => Ok(String::new(alloc)),
        Some(Value::String(text)) => format!(in alloc; "\"{text}\""),
        Some(Value::Integer(number)) => format!(in alloc; "{number}"),
        Some(Value::Boolean(flag)) => format!(in alloc; "{flag}"),
        Some(Value::Float(number)) => format!(in alloc; "{number}"),
        Some(Value::Array(_)) => format!(in alloc; "an array"),
        Some(Value::Table(_)) => format!(in alloc; "a table"),
        Some(_) => format!(in alloc; "a date"),
    }
}
