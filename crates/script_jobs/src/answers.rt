//! The answers of a document.

ghost use Rattle.std.specs.Prelude.{◌≡◌, [], IfErr, IfOk, OnOk, Option, Some, codes, option_map, slice_get};
ghost use Rattle.toml.specs.Data.{Data, Members, as_table, get_member};
ghost use Rattle.toml.specs.View.{table_view, view};
ghost use Rattle.script_objects.specs.FirstFaults.{HasFirstFault, OrMemoryAt};
ghost use Rattle.script_jobs.specs.Runs.{HoldsAnswers, IsAnswersFault, IsReadFault, bare_types, has_object, has_type, unknown_types};
ghost use Rattle.uvm_factory.specs.Faults.{Types};

use crate::verdicts::{Refusal, Verdict};
use bench_script::Script;
use bus_objects::BusObject;
use script_input::Breakage;
use script_objects::{AnswerFault, Answers, FaultyAnswer, read_answers};
use std::alloc::Global;
use toml::{Table, Value};
use uvm_glob::Name;

/// The key of the answers in a document.
pub(crate) const ANSWERS: &str = "answers";

// Returns the answers in a document; there are none without the key `answers`. Errors: the verdict, if the answers are rejected. The reason
// is, in order: the value is not a table; one of its entries has an error; the script does not declare a type with answers; a declared type
// has no object. Or out of memory.
#[tactic(auto, using(crate::proofs::Firsts::read_fault))]
pub(crate) fn answers_in(alloc: Global, root: &Table, script: &Script) -> Result<Answers, Verdict>
    ensures ok { IfOk result (λ answers. HoldsAnswers (get_member (codes "answers") (table_view root.now)) answers) }
    ensures known { IfOk result (λ answers. unknown_types answers script.now.types ≡ []) }
    ensures objects { IfOk result (λ answers. bare_types answers script.now.types ≡ []) }
    ensures err { IfErr result (IsAnswersFault (get_member (codes "answers") (table_view root.now)) script.now.types) }
{
    match declared_answers(alloc, root, script) {
        Ok(answers) => with_objects(answers, script),
        Err(verdict) => Err(verdict),
    }
}

/// Returns the answers in a document; there are none without the key `answers`. Does not check that each declared type has an object. Errors:
/// the verdict, if the answers are rejected. The reason is, in order: the value is not a table; one of its entries has an error; the script
/// does not declare a type with answers. Or out of memory.
pub fn declared_answers(alloc: Global, root: &Table, script: &Script) -> Result<Answers, Verdict>
    ensures ok { IfOk result (λ answers. HoldsAnswers (get_member (codes "answers") (table_view root.now)) answers) }
    ensures known { IfOk result (λ answers. unknown_types answers script.now.types ≡ []) }
    ensures err { IfErr result (IsReadFault (get_member (codes "answers") (table_view root.now)) script.now.types) }
{
    match member(root) {
        Some(value) => answers_at(alloc, value, script),
        None => declared(Answers::new(alloc), script),
    }
}

// Returns the value at the key of the answers.
fn member(root: &Table) -> Option<&Value>
    ensures { option_map (λ value. view value.now) result ≡ get_member (codes "answers") (table_view root.now) }
{
    root.get(ANSWERS)
}

// Returns the answers of a value. Errors: the verdict, as in `declared_answers`.
fn answers_at(alloc: Global, value: &Value, script: &Script) -> Result<Answers, Verdict>
    ensures ok { IfOk result (λ answers. HoldsAnswers (Some (view value.now)) answers) }
    ensures known { IfOk result (λ answers. unknown_types answers script.now.types ≡ []) }
    ensures err { IfErr result (IsReadFault (Some (view value.now)) script.now.types) }
{
    let Some(table) = value.as_table() else {
        return Err(Verdict::Refused(Refusal::NoTable));
    };
    match read_answers(alloc, table) {
        Ok(answers) => declared(answers, script),
        Err(fault) => Err(refused(alloc, &fault)),
    }
}

// Returns the answers, if the script declares each of their types. Errors: `UnknownType` with the first type that it does not declare.
fn declared(answers: Answers, script: &Script) -> Result<Answers, Verdict>
    ensures ok { IfOk result (λ same. same ≡ answers) }
    ensures known { OnOk result (unknown_types answers script.now.types ≡ []) }
    ensures err { IfErr result (λ verdict. (said : Option Data) → HoldsAnswers said answers → IsReadFault said script.now.types verdict) }
{
    match unknown_type(&answers, script) {
        Some(name) => Err(Verdict::Refused(Refusal::UnknownType(name))),
        None => Ok(answers),
    }
}

// Returns the answers, if each type that the script declares has an object. Errors: `NoObject` with the first type that has none.
fn with_objects(answers: Answers, script: &Script) -> Result<Answers, Verdict>
    requires { unknown_types answers script.now.types ≡ [] }
    ensures ok { IfOk result (λ same. same ≡ answers) }
    ensures objects { OnOk result (bare_types answers script.now.types ≡ []) }
    ensures err { IfErr result (λ verdict. (said : Option Data) → HoldsAnswers said answers → IsAnswersFault said script.now.types verdict) }
{
    match bare_type(&answers, script) {
        Some(name) => Err(Verdict::Refused(Refusal::NoObject(name))),
        None => Ok(answers),
    }
}

// Returns the first type that has answers but is not declared in the script.
fn unknown_type(answers: &Answers, script: &Script) -> Option<Name>
    ensures { result ≡ slice_get (unknown_types answers.now script.now.types) 0 }
{
    for rules in answers.types() {
        if !has_type(script, rules.type_name()) {
            return Some(*rules.type_name());
        }
    }
    None
}

fn has_type(script: &Script, type_name: &Name) -> bool
    ensures { result ≡ has_type script.now.types type_name.now }
{
    script.types().iter().any(|row| row.0 == *type_name)
}

// Returns the first declared type of the script that has no object.
fn bare_type(answers: &Answers, script: &Script) -> Option<Name>
    ensures { result ≡ slice_get (bare_types answers.now script.now.types) 0 }
{
    for row in script.types() {
        if !has_object(answers, &row.0) {
            return Some(row.0);
        }
    }
    None
}

fn has_object(answers: &Answers, type_name: &Name) -> bool
    ensures { result ≡ has_object answers.now type_name.now }
{
    answers.of_type(type_name).is_some() || BusObject::of_type(type_name).is_some()
}

// Returns the verdict on an error in `answers`: rejected, with the place and the kind of the error, or out of memory.
fn refused(alloc: Global, fault: &FaultyAnswer<'_>) -> Verdict
    ensures { (said : Data) (table : Members) (types : Types) → as_table said ≡ Some table → OrMemoryAt (HasFirstFault table) fault.now → IsReadFault (Some said) types result }
{
    if fault.fault == AnswerFault::Memory {
        return Verdict::Broken(Breakage::Memory);
    }
    match format!(in alloc; "{fault}") {
        Ok(text) => Verdict::Refused(Refusal::Answers(text)),
        Err(_) => Verdict::Broken(Breakage::Memory),
    }
}
