//! The globs and paths at keys of rows.

ghost use Rattle.toml.specs.View.{table_view};
ghost use Rattle.script_values.specs.Keys.{cell};
ghost use Rattle.script_values.specs.Reading.{IsRow};
ghost use Rattle.script_values.specs.Values.{glob_in, path_in};

use crate::keys::required;
use crate::places::Column;
use crate::reasons::{FaultyRow, in_column};
use crate::values::{glob, path};
use std::alloc::Global;
use toml::Table;
use uvm_glob::{Glob, Path};

/// Returns the glob at a key of a row. Errors, at the key: `Missing`; those of `glob`.
pub fn glob_at(alloc: Global, table: &Table, column: Column) -> Result<Glob, FaultyRow>
    ensures { IsRow (cell column glob_in (table_view table.now)) result }
{
    in_column(glob(alloc, required(table, column)?), column)
}

/// Returns the path at a key of a row. Errors, at the key: `Missing`; those of `path`.
pub fn path_at(alloc: Global, table: &Table, column: Column) -> Result<Path, FaultyRow>
    ensures { IsRow (cell column path_in (table_view table.now)) result }
{
    in_column(path(alloc, required(table, column)?), column)
}
