//! Reads benches from files: the bytes, the script and its answers.

use crate::files::ends::End;
use bench_script::{Script, read_table};
use script_input::{Breakage, read_file};
use script_objects::{AnswerFault, Answers, read_answers};
use std::alloc::Global;
use std::fs::File;
use std::io::ErrorKind;
use std::rt::Files;
use toml::Table;

/// Reads the bytes of a file. Errors: `Fault` if the file cannot be opened or read; `Memory`.
pub(crate) fn bytes_of<R: Files + AllocGlobal>(rt: &R, file: &str) -> Result<Vec<u8>, End> {
    match File::open(rt, file) {
        Ok(mut opened) => match read_file(rt.alloc(), &mut opened) {
            Ok(bytes) => Ok(bytes),
            Err(Breakage::Memory) => Err(End::Memory),
            Err(_) => Err(End::Fault),
        },
        Err(error) if error.kind() == ErrorKind::OutOfMemory => Err(End::Memory),
        Err(_) => Err(End::Fault),
    }
}

/// Returns the script of a document. Errors: `Fault` if it is not a script; `Memory`.
pub(crate) fn script_of(alloc: Global, root: &Table) -> Result<Script, End> {
    Ok(read_table(alloc, root, &["answers"])?)
}

/// Returns the answers in a document, or no answers if it has none. Errors: `Fault` if they are not valid, or if one is of a type that the
/// script does not have; `Memory`.
pub(crate) fn answers_of(alloc: Global, root: &Table, script: &Script) -> Result<Answers, End> {
    let Some(value) = root.get("answers") else {
        return Ok(Answers::new(alloc));
    };
    let Some(table) = value.as_table() else {
        return Err(End::Fault);
    };
    match read_answers(alloc, table) {
        Ok(answers) if has_types(script, &answers) => Ok(answers),
        Err(fault) if fault.fault == AnswerFault::Memory => Err(End::Memory),
        _ => Err(End::Fault),
    }
}

// Returns whether a script has each type that has answers.
fn has_types(script: &Script, answers: &Answers) -> bool {
    for rules in answers.types() {
        if !script.types().iter().any(|row| row.0 == *rules.type_name()) {
            return false;
        }
    }
    true
}
