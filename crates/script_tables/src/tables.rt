//! The arrays of tables of a script.

ghost use Rattle.std.specs.Prelude.{◌≡◌, ◌≢◌, ◌<◌, ◌≤◌, MatchResult, IfOk, None, All, length};
ghost use Rattle.toml.specs.View.{view, table_view};
ghost use Rattle.uvm_factory.specs.Faults.{type_named};
ghost use Rattle.uvm_config.specs.Answers.{most_settings};
ghost use Rattle.script_values.specs.Reading.{IsPlaced, IsRow};
ghost use Rattle.script_tables.specs.Rows.{CanOverride, CanProbe};
ghost use Rattle.script_tables.specs.Tables.{new_name_in, same_kinds, type_id_in, type_row, override_row, setting_row, probe_row, types_in, overrides_in, settings_in, probes_in};

use crate::rows::{Probe, Setting};
use crate::type_tables::TypeTable;
use script_values::keys::{elements, few_elements, member, required, row_of};
use script_values::values::{flag, glob, integer, kind, name};
use script_values::{
    Column, FaultyRow, FaultyScript, Reason, TableArray, glob_at, in_column, in_row, path_at,
};
use std::alloc::Global;
use toml::{Table, Value};
use uvm_config::Settings;
use uvm_factory::{Factory, Kind, Override, TypeId};
use uvm_glob::Name;

/// Reads the types from the array `type` of a document, row by row. Errors: `NotArray` if the value of the key is not an array;
/// `TooManyRows` if it has more than `Factory::MAX_TYPES` rows; the first error of a row; out of memory.
pub fn read_types(alloc: Global, root: &Table) -> Result<TypeTable, FaultyScript>
    ensures { IsPlaced (types_in (table_view root.now)) result }
{
    let mut types = TypeTable::new(alloc);
    for element in few_elements(root, TableArray::Type, Factory::MAX_TYPES)? {
        let read = type_row(&types, element);
        let (name, kind) = in_row(read, TableArray::Type, types.len())?;
        types.add(name, kind)?;
    }
    Ok(types)
}

/// Reads the overrides from the array `override` of a document that has these types, row by row. Errors: `NotArray` if the value
/// of the key is not an array; the first error of a row; out of memory.
pub fn read_overrides(
    alloc: Global,
    types: &TypeTable,
    root: &Table,
) -> Result<Vec<Override>, FaultyScript>
    ensures sound { IfOk result (λ rows. All (CanOverride types.now) rows.items) }
    ensures rows { MatchResult result
        (λ rows. overrides_in types.now (table_view root.now) ≡ Ok rows.items)
        (λ faulty. faulty.reason ≢ Reason.Memory → overrides_in types.now (table_view root.now) ≡ Err faulty) }
{
    let mut rows = Vec::new(alloc);
    for element in elements(root, TableArray::Override)? {
        let read = override_row(alloc, types, element);
        rows.push(in_row(read, TableArray::Override, rows.len())?)?;
    }
    Ok(rows)
}

/// Reads the settings of the configuration from the array `set` of a document, row by row. Errors: `NotArray` if the value of
/// the key is not an array; `TooManyRows` if it has more than `Settings::MAX_SETS` rows; the first error of a row; out of memory.
pub fn read_settings(alloc: Global, root: &Table) -> Result<Vec<Setting>, FaultyScript>
    ensures few { IfOk result (λ rows. length rows.items ≤ most_settings) }
    ensures rows { MatchResult result
        (λ rows. settings_in (table_view root.now) ≡ Ok rows.items)
        (λ faulty. faulty.reason ≢ Reason.Memory → settings_in (table_view root.now) ≡ Err faulty) }
{
    let mut rows = Vec::new(alloc);
    for element in few_elements(root, TableArray::Set, Settings::MAX_SETS)? {
        let read = setting_row(alloc, element);
        rows.push(in_row(read, TableArray::Set, rows.len())?)?;
    }
    Ok(rows)
}

/// Reads the probes from the array `probe` of a document that has these types, row by row. Errors: `NotArray` if the value of
/// the key is not an array; the first error of a row; out of memory.
pub fn read_probes(
    alloc: Global,
    types: &TypeTable,
    root: &Table,
) -> Result<Vec<Probe>, FaultyScript>
    ensures sound { IfOk result (λ rows. All (CanProbe types.now) rows.items) }
    ensures rows { MatchResult result
        (λ rows. probes_in types.now (table_view root.now) ≡ Ok rows.items)
        (λ faulty. faulty.reason ≢ Reason.Memory → probes_in types.now (table_view root.now) ≡ Err faulty) }
{
    let mut rows = Vec::new(alloc);
    for element in elements(root, TableArray::Probe)? {
        let read = probe_row(alloc, types, element);
        rows.push(in_row(read, TableArray::Probe, rows.len())?)?;
    }
    Ok(rows)
}

fn type_row(types: &TypeTable, element: &Value) -> Result<(Name, Kind), FaultyRow>
    ensures row { result ≡ type_row types.now (view element.now) }
    ensures new { IfOk result (λ row. type_named types.now row.0 ≡ None) }
{
    let table = row_of(element, TableArray::Type)?;
    let name = in_column(
        new_name(types, required(table, Column::Name)?),
        Column::Name,
    )?;
    let kind = in_column(kind(required(table, Column::Kind)?), Column::Kind)?;
    Ok((name, kind))
}

// Returns the name of one more type. Errors: `NotString` if the value is not a text; `BadName` if the text is not a name;
// `NameTaken` if a type has this name.
fn new_name(types: &TypeTable, value: &Value) -> Result<Name, Reason>
    ensures name { result ≡ new_name_in types.now (view value.now) }
    ensures new { IfOk result (λ name. type_named types.now name ≡ None) }
{
    let name = name(value)?;
    if types.find(&name).is_some() {
        return Err(Reason::NameTaken);
    }
    Ok(name)
}

// Returns the type that a value names. Errors: `NotString` if the value is not a text; `BadName` if the text is not a name;
// `UnknownType` if no type has this name.
fn type_named(types: &TypeTable, value: &Value) -> Result<TypeId, Reason>
    ensures place { result ≡ type_id_in types.now (view value.now) }
    ensures known { IfOk result (λ type_id. type_id < length types.now) }
{
    let name = name(value)?;
    types.find(&name).ok_or(Reason::UnknownType)
}

// Checks that a type can override another: both are in the table and are of one kind. Errors: `KindsDiffer` if not.
fn same_kinds(types: &TypeTable, original: TypeId, new: TypeId) -> Result<(), Reason>
    ensures { result ≡ same_kinds types.now original new }
{
    if types.are_same_kind(original, new) {
        Ok(())
    } else {
        Err(Reason::KindsDiffer)
    }
}

fn override_row(alloc: Global, types: &TypeTable, element: &Value) -> Result<Override, FaultyRow>
    ensures row { IsRow (override_row types.now (view element.now)) result }
    ensures sound { IfOk result (CanOverride types.now) }
{
    let table = row_of(element, TableArray::Override)?;
    let original = in_column(
        type_named(types, required(table, Column::Orig)?),
        Column::Orig,
    )?;
    let new = in_column(
        type_named(types, required(table, Column::New)?),
        Column::New,
    )?;
    in_column(same_kinds(types, original, new), Column::New)?;
    let scope = match member(table, Column::At.text()) {
        Some(value) => Some(in_column(glob(alloc, value), Column::At)?),
        None => None,
    };
    let replace = match member(table, Column::Replace.text()) {
        Some(value) => in_column(flag(value), Column::Replace)?,
        None => true,
    };
    Ok(match scope {
        Some(scope) => Override::Instance {
            original,
            new,
            scope,
        },
        None => Override::Whole {
            original,
            new,
            replace,
        },
    })
}

fn setting_row(alloc: Global, element: &Value) -> Result<Setting, FaultyRow>
    ensures { IsRow (setting_row (view element.now)) result }
{
    let table = row_of(element, TableArray::Set)?;
    let scope = glob_at(alloc, table, Column::Scope)?;
    let field = in_column(name(required(table, Column::Field)?), Column::Field)?;
    let value = in_column(integer(required(table, Column::Value)?), Column::Value)?;
    Ok(Setting {
        scope,
        field,
        value,
    })
}

fn probe_row(alloc: Global, types: &TypeTable, element: &Value) -> Result<Probe, FaultyRow>
    ensures row { IsRow (probe_row types.now (view element.now)) result }
    ensures sound { IfOk result (CanProbe types.now) }
{
    let table = row_of(element, TableArray::Probe)?;
    let type_id = in_column(
        type_named(types, required(table, Column::Type)?),
        Column::Type,
    )?;
    let path = path_at(alloc, table, Column::Path)?;
    Ok(Probe { type_id, path })
}
