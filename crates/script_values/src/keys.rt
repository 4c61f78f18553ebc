//! The keys of a TOML table, and the elements of an array.

ghost use Rattle.std.specs.Prelude.{◌≡◌, ◌≤◌, ◌++◌, ◌||◌, Some, None, MatchResult, IfOk, option_map, map, length, string_bytes};
ghost use Rattle.std.specs.List.{list_any, list_all};
ghost use Rattle.std.specs.BTreeMap.{keys};
ghost use Rattle.toml.specs.Data.{get_member, as_table};
ghost use Rattle.toml.specs.View.{view, table_view, items_view};
ghost use Rattle.script_values.specs.Keys.{only_keys};
ghost use Rattle.script_values.specs.Values.{is_same_text};
ghost use Rattle.script_values.specs.Elements.{elements_at, elements_of, few_elements_at, row_of, table_in, up_to};
ghost use Rattle.script_values.specs.Reading.{and_then};
ghost use Rattle.script_values.specs.Places.{column_text};

use crate::places::{Column, TableArray};
use crate::reasons::{FaultyRow, FaultyScript, Reason};
use toml::{Table, Value};

/// Returns the value at a key of a table, if there is one.
pub fn member<'a>(table: &'a Table, key: &str) -> Option<&'a Value>
    ensures { option_map (λ value. view value.now) result ≡ get_member key.now (table_view table.now) }
{
    table.get(key)
}

/// Returns the value at a key of a row. Errors: `Missing` at the key if there is none.
pub fn required(table: &Table, column: Column) -> Result<&Value, FaultyRow>
    ensures { MatchResult result
        (λ value. get_member (column_text column) (table_view table.now) ≡ Some (view value.now))
        (λ faulty. (faulty ≡ record { reason = Reason.Missing; column = Some column }) × (get_member (column_text column) (table_view table.now) ≡ None)) }
{
    match member(table, column.text()) {
        Some(value) => Ok(value),
        None => Err(FaultyRow {
            reason: Reason::Missing,
            column: Some(column),
        }),
    }
}

/// Checks that each key of a table is in `listed` or in `others`. Errors: `UnknownKey` if one is not.
pub fn only_keys(table: &Table, listed: &[&str], others: &[&str]) -> Result<(), Reason>
    ensures { result ≡ only_keys (map (λ key. key.now) others.now ++ map (λ key. key.now) listed.now) (table_view table.now) }
{
    if are_listed(table, listed, others) {
        Ok(())
    } else {
        Err(Reason::UnknownKey)
    }
}

fn are_listed(table: &Table, listed: &[&str], others: &[&str]) -> bool
    ensures { result ≡ list_all (λ key. list_any (λ other. is_same_text (string_bytes key) other.now) others.now || list_any (λ other. is_same_text (string_bytes key) other.now) listed.now) (keys table.now) }
{
    table
        .keys()
        .all(|key| is_listed_or(key.as_str(), others, listed))
}

fn is_listed_or(key: &str, others: &[&str], listed: &[&str]) -> bool
    ensures { result ≡ (list_any (λ other. is_same_text key.now other.now) others.now || list_any (λ other. is_same_text key.now other.now) listed.now) }
{
    is_among(key, others) || is_among(key, listed)
}

fn is_among(key: &str, listed: &[&str]) -> bool
    ensures { result ≡ list_any (λ other. is_same_text key.now other.now) listed.now }
{
    listed.iter().any(|other| key == *other)
}

/// Returns whether a key is in `listed`.
pub fn is_listed(key: &str, listed: &[&str]) -> bool
    ensures { result ≡ list_any (is_same_text key.now) (map (λ other. other.now) listed.now) }
{
    is_among(key, listed)
}

/// Returns an element of an array as a row, which has no other keys than `array.columns()`. Errors, at no key of the row: `NotTable` if the
/// element is not a table; `UnknownKey` if it has another key.
pub fn row_of(element: &Value, array: TableArray) -> Result<&Table, FaultyRow>
    ensures { MatchResult result
        (λ table. row_of array (view element.now) ≡ Ok (table_view table.now))
        (λ faulty. row_of array (view element.now) ≡ Err faulty) }
{
    match table_of(element, array.columns()) {
        Ok(table) => Ok(table),
        Err(reason) => Err(FaultyRow::whole(reason)),
    }
}

// Returns an element as a table whose keys are all among `columns`. Errors: `NotTable`; `UnknownKey`.
fn table_of<'a>(element: &'a Value, columns: &[Column]) -> Result<&'a Table, Reason>
    ensures { MatchResult result
        (λ table. table_in (map column_text columns.now) (view element.now) ≡ Ok (table_view table.now))
        (λ reason. table_in (map column_text columns.now) (view element.now) ≡ Err reason) }
{
    let table = element.as_table().ok_or(Reason::NotTable)?;
    only_columns(table, columns)?;
    Ok(table)
}

// Checks that each key of a table is among `columns`. Errors: `UnknownKey` if one is not.
fn only_columns(table: &Table, columns: &[Column]) -> Result<(), Reason>
    ensures { result ≡ only_keys (map column_text columns.now) (table_view table.now) }
{
    if are_columns(table, columns) {
        Ok(())
    } else {
        Err(Reason::UnknownKey)
    }
}

fn are_columns(table: &Table, columns: &[Column]) -> bool
    ensures { result ≡ list_all (λ key. list_any (λ column. is_same_text (string_bytes key) (column_text column)) columns.now) (keys table.now) }
{
    table.keys().all(|key| is_column(key.as_str(), columns))
}

fn is_column(key: &str, columns: &[Column]) -> bool
    ensures { result ≡ list_any (λ column. is_same_text key.now (column_text column)) columns.now }
{
    columns.iter().any(|column| key == column.text())
}

/// Returns the elements of an array of tables, or none if its key is absent. Errors: `NotArray` if the value at the key is not an array.
pub fn elements(root: &Table, array: TableArray) -> Result<&[Value], FaultyScript>
    ensures { MatchResult result
        (λ elements. elements_at array (table_view root.now) ≡ Ok (items_view elements.now))
        (λ faulty. elements_at array (table_view root.now) ≡ Err faulty) }
{
    match elements_of(root, array) {
        Ok(elements) => Ok(elements),
        Err(reason) => Err(FaultyScript::at_array(reason, array)),
    }
}

/// Returns the elements of an array of tables, at most `most`, or none if its key is absent. Errors: `NotArray` if the value at the key is not
/// an array; `TooManyRows` if there are more than `most` elements.
pub fn few_elements(root: &Table, array: TableArray, most: usize) -> Result<&[Value], FaultyScript>
    ensures elements { MatchResult result
        (λ elements. few_elements_at most array (table_view root.now) ≡ Ok (items_view elements.now))
        (λ faulty. few_elements_at most array (table_view root.now) ≡ Err faulty) }
    ensures few { IfOk result (λ elements. length elements.now ≤ most) }
{
    match few_elements_of(root, array, most) {
        Ok(elements) => Ok(elements),
        Err(reason) => Err(FaultyScript::at_array(reason, array)),
    }
}

// Returns the elements of an array of tables. Errors: `NotArray`.
fn elements_of(root: &Table, array: TableArray) -> Result<&[Value], Reason>
    ensures { MatchResult result
        (λ elements. elements_of array (table_view root.now) ≡ Ok (items_view elements.now))
        (λ reason. elements_of array (table_view root.now) ≡ Err reason) }
{
    match member(root, array.text()) {
        None => Ok(&[]),
        Some(value) => match value.as_array() {
            Some(elements) => Ok(elements.as_slice()),
            None => Err(Reason::NotArray),
        },
    }
}

// Returns the elements of an array of tables, at most `most`. Errors: `NotArray`; `TooManyRows`.
fn few_elements_of(root: &Table, array: TableArray, most: usize) -> Result<&[Value], Reason>
    ensures elements { MatchResult result
        (λ elements. and_then (elements_of array (table_view root.now)) (up_to most) ≡ Ok (items_view elements.now))
        (λ reason. and_then (elements_of array (table_view root.now)) (up_to most) ≡ Err reason) }
    ensures few { IfOk result (λ elements. length elements.now ≤ most) }
{
    let elements = elements_of(root, array)?;
    if elements.len() > most {
        return Err(Reason::TooManyRows(most));
    }
    Ok(elements)
}
