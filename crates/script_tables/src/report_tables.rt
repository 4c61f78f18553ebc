//! The arrays of tables of a script that are about reports.

ghost use Rattle.std.specs.Prelude.{◌≡◌, ◌≢◌, MatchResult, IfOk, All, map, not, option_map};
ghost use Rattle.std.specs.List.{position};
ghost use Rattle.toml.specs.View.{view, table_view};
ghost use Rattle.script_values.specs.Keys.{cell};
ghost use Rattle.script_values.specs.Reading.{IsRow, IsValue};
ghost use Rattle.script_tables.specs.Rows.{HasLevelInRange};
ghost use Rattle.script_tables.specs.ReportTables.{severity_in, severity_named, id_in, which_in, texts_in, is_one_of, action_words, action_set, action_set_in, actions_named, verbosity_row, action_row, severity_row, verbosities_in, actions_in, severities_in};

use crate::report_settings::{ActionSetting, SeverityChange, VerbositySetting};
use script_values::keys::{elements, is_listed, member, required, row_of};
use script_values::values::{name, number, text};
use script_values::{
    Column, FaultyRow, FaultyScript, Reason, TableArray, glob_at, in_column, in_row,
};
use std::alloc::Global;
use toml::{Table, Value};
use uvm_glob::Name;
use uvm_report::{Actions, Severity, Which};

/// The maximum verbosity level.
const MAX_LEVEL: u64 = 10_000;

/// Reads the verbosity settings from the array `verbosity` of a document, row by row. Errors: `NotArray` if the value of the key
/// is not an array; the first error of a row; out of memory.
pub fn read_verbosities(alloc: Global, root: &Table) -> Result<Vec<VerbositySetting>, FaultyScript>
    ensures sound { IfOk result (λ rows. All HasLevelInRange rows.items) }
    ensures rows { MatchResult result
        (λ rows. verbosities_in (table_view root.now) ≡ Ok rows.items)
        (λ faulty. faulty.reason ≢ Reason.Memory → verbosities_in (table_view root.now) ≡ Err faulty) }
{
    let mut rows = Vec::new(alloc);
    for element in elements(root, TableArray::Verbosity)? {
        let read = verbosity_row(alloc, element);
        rows.push(in_row(read, TableArray::Verbosity, rows.len())?)?;
    }
    Ok(rows)
}

/// Reads the action settings from the array `action` of a document, row by row. Errors: `NotArray` if the value of the key is
/// not an array; the first error of a row; out of memory.
pub fn read_actions(alloc: Global, root: &Table) -> Result<Vec<ActionSetting>, FaultyScript>
    ensures { MatchResult result
        (λ rows. actions_in (table_view root.now) ≡ Ok rows.items)
        (λ faulty. faulty.reason ≢ Reason.Memory → actions_in (table_view root.now) ≡ Err faulty) }
{
    let mut rows = Vec::new(alloc);
    for element in elements(root, TableArray::Action)? {
        let read = action_row(alloc, element);
        rows.push(in_row(read, TableArray::Action, rows.len())?)?;
    }
    Ok(rows)
}

/// Reads the severity changes from the array `severity` of a document, row by row. Errors: `NotArray` if the value of the key is
/// not an array; the first error of a row; out of memory.
pub fn read_severities(alloc: Global, root: &Table) -> Result<Vec<SeverityChange>, FaultyScript>
    ensures { MatchResult result
        (λ rows. severities_in (table_view root.now) ≡ Ok rows.items)
        (λ faulty. faulty.reason ≢ Reason.Memory → severities_in (table_view root.now) ≡ Err faulty) }
{
    let mut rows = Vec::new(alloc);
    for element in elements(root, TableArray::Severity)? {
        let read = severity_row(alloc, element);
        rows.push(in_row(read, TableArray::Severity, rows.len())?)?;
    }
    Ok(rows)
}

fn verbosity_row(alloc: Global, element: &Value) -> Result<VerbositySetting, FaultyRow>
    ensures row { IsRow (verbosity_row (view element.now)) result }
    ensures sound { IfOk result HasLevelInRange }
{
    let table = row_of(element, TableArray::Verbosity)?;
    let scope = glob_at(alloc, table, Column::Scope)?;
    let which = which(table)?;
    let level = in_column(
        number(required(table, Column::Level)?, MAX_LEVEL),
        Column::Level,
    )?;
    Ok(VerbositySetting {
        scope,
        which,
        level: level as u16,
    })
}

fn action_row(alloc: Global, element: &Value) -> Result<ActionSetting, FaultyRow>
    ensures { IsRow (action_row (view element.now)) result }
{
    let table = row_of(element, TableArray::Action)?;
    let scope = glob_at(alloc, table, Column::Scope)?;
    let which = which(table)?;
    let actions = actions_at(alloc, table)?;
    Ok(ActionSetting {
        scope,
        which,
        actions,
    })
}

fn severity_row(alloc: Global, element: &Value) -> Result<SeverityChange, FaultyRow>
    ensures { IsRow (severity_row (view element.now)) result }
{
    let table = row_of(element, TableArray::Severity)?;
    let scope = glob_at(alloc, table, Column::Scope)?;
    let from = in_column(severity(required(table, Column::From)?), Column::From)?;
    let id = id(table)?;
    let to = in_column(severity(required(table, Column::To)?), Column::To)?;
    Ok(SeverityChange {
        scope,
        from,
        id,
        to,
    })
}

// Returns the reports to which a table applies. Errors: the error of `id`; the error of `severity`.
fn which(table: &Table) -> Result<Which, FaultyRow>
    ensures { result ≡ which_in (table_view table.now) }
{
    let id = id(table)?;
    let severity = match member(table, Column::Severity.text()) {
        Some(value) => Some(in_column(severity(value), Column::Severity)?),
        None => None,
    };
    Ok(match (severity, id) {
        (None, None) => Which::All,
        (Some(severity), None) => Which::Severity(severity),
        (None, Some(id)) => Which::Id(id),
        (Some(severity), Some(id)) => Which::Both(severity, id),
    })
}

fn id(table: &Table) -> Result<Option<Name>, FaultyRow>
    ensures { result ≡ id_in (table_view table.now) }
{
    match member(table, Column::Id.text()) {
        Some(value) => Ok(Some(in_column(name(value), Column::Id)?)),
        None => Ok(None),
    }
}

fn severity(value: &Value) -> Result<Severity, Reason>
    ensures { result ≡ severity_in (view value.now) }
{
    severity_named(text(value)?).ok_or(Reason::NotSeverity)
}

fn severity_named(word: &str) -> Option<Severity>
    ensures { result ≡ severity_named word.now }
{
    match word {
        "INFO" => Some(Severity::Info),
        "WARNING" => Some(Severity::Warning),
        "ERROR" => Some(Severity::Error),
        "FATAL" => Some(Severity::Fatal),
        _ => None,
    }
}

// Returns the set of actions at the key `actions` of a row. Errors, at the key: `Missing`; those of `actions`.
fn actions_at(alloc: Global, table: &Table) -> Result<Actions, FaultyRow>
    ensures { IsRow (cell Column.Actions action_set_in (table_view table.now)) result }
{
    in_column(
        actions(alloc, required(table, Column::Actions)?),
        Column::Actions,
    )
}

// Returns the set of actions that an array lists. It reads every element as a text before it checks that each text names an
// action. Errors: `NotArray`; `NotStringAt`; `NotAction`; out of memory.
fn actions(alloc: Global, value: &Value) -> Result<Actions, Reason>
    ensures { IsValue (action_set_in (view value.now)) result }
{
    actions_named(texts(alloc, value)?.as_slice())
}

// Returns the texts of an array. Errors: `NotArray` if the value is not an array; `NotStringAt` with the index of the first element that is
// not a text; out of memory.
fn texts<'a>(alloc: Global, value: &'a Value) -> Result<Vec<&'a str>, Reason>
    ensures { MatchResult result
        (λ texts. texts_in (view value.now) ≡ Ok (map (λ text. text.now) texts.items))
        (λ reason. reason ≢ Reason.Memory → texts_in (view value.now) ≡ Err reason) }
{
    let elements = value.as_array().ok_or(Reason::NotArray)?;
    let mut texts = Vec::new(alloc);
    for element in elements.as_slice() {
        let Some(text) = element.as_str() else {
            return Err(Reason::NotStringAt(texts.len()));
        };
        texts.push(text)?;
    }
    Ok(texts)
}

// Returns the set of the named actions. Errors: `NotAction` with the index of the first word that names no action.
fn actions_named(words: &[&str]) -> Result<Actions, Reason>
    ensures { result ≡ actions_named (map (λ word. word.now) words.now) }
{
    match first_other(words) {
        None => Ok(action_set(words)),
        Some(index) => Err(Reason::NotAction(index)),
    }
}

// Returns the set of the actions with these names.
fn action_set(words: &[&str]) -> Actions
    ensures { result ≡ action_set (map (λ word. word.now) words.now) }
{
    Actions {
        display: is_listed("display", words),
        count: is_listed("count", words),
        exit: is_listed("exit", words),
    }
}

// Returns the index of the first word that names no action.
fn first_other(words: &[&str]) -> Option<usize>
    ensures { result ≡ position (λ word. not (is_one_of action_words word.now)) words.now }
{
    words.iter().position(|word| !is_action(word))
}

fn is_action(word: &str) -> bool
    ensures { result ≡ is_one_of action_words word.now }
{
    matches!(word, "display" | "count" | "exit")
}
