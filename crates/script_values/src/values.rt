//! The meaning of single values of a TOML document.

ghost use Rattle.std.specs.Prelude.{◌≡◌, ◌≤◌, MatchResult, IfOk};
ghost use Rattle.toml.specs.View.{view, table_view, items_view};
ghost use Rattle.script_values.specs.Reading.{IsValue};
ghost use Rattle.script_values.specs.Values.{integer_in, text_in, flag_in, number_in, number_up_to, name_in, glob_in, path_in, kind_in, kind_of_word};

use crate::reasons::Reason;
use std::alloc::Global;
use toml::Value;
use uvm_factory::Kind;
use uvm_glob::{Glob, Name, Path, PathFault};

/// Returns the integer that a value holds. Errors: `NotInteger` if the value is not an integer.
pub fn integer(value: &Value) -> Result<i64, Reason>
    ensures { result ≡ integer_in (view value.now) }
{
    value.as_integer().ok_or(Reason::NotInteger)
}

/// Returns the text that a value holds. Errors: `NotString` if the value is not a text.
pub fn text(value: &Value) -> Result<&str, Reason>
    ensures { MatchResult result (λ t. text_in (view value.now) ≡ Ok t.now) (λ fault. text_in (view value.now) ≡ Err fault) }
{
    value.as_str().ok_or(Reason::NotString)
}

/// Returns the Boolean that a value holds. Errors: `NotBoolean` if the value is not a Boolean.
pub fn flag(value: &Value) -> Result<bool, Reason>
    ensures { result ≡ flag_in (view value.now) }
{
    value.as_bool().ok_or(Reason::NotBoolean)
}

/// Returns the number from 0 to `most` that a value holds. Errors: `NotInteger` if the value is not an integer;
/// `NotInRange` if it is negative or above `most`.
pub fn number(value: &Value, most: u64) -> Result<u64, Reason>
    ensures number { result ≡ number_in most (view value.now) }
    ensures limit { IfOk result (λ number. number ≤ most) }
{
    let integer = integer(value)?;
    match u64::try_from(integer) {
        Ok(number) if number <= most => Ok(number),
        _ => Err(Reason::NotInRange(most)),
    }
}

/// Returns the name that a value holds. Errors: `NotString` if the value is not a text; `BadName` if the text is not a name.
pub fn name(value: &Value) -> Result<Name, Reason>
    ensures { result ≡ name_in (view value.now) }
{
    match Name::new(text(value)?.as_bytes()) {
        Ok(name) => Ok(name),
        Err(fault) => Err(Reason::BadName(fault)),
    }
}

/// Returns the glob that a value holds. Errors: `NotString` if the value is not a text; `BadGlob` if the text is not a glob; out
/// of memory (`Memory`).
pub fn glob(alloc: Global, value: &Value) -> Result<Glob, Reason>
    ensures { IsValue (glob_in (view value.now)) result }
{
    match Glob::new(alloc, text(value)?.as_bytes()) {
        Ok(glob) => Ok(glob),
        Err(PathFault::Memory) => Err(Reason::Memory),
        Err(fault) => Err(Reason::BadGlob(fault)),
    }
}

/// Returns the path that a value holds. Errors: `NotString` if the value is not a text; `BadPath` if the text is not a path other
/// than the top's; out of memory (`Memory`).
pub fn path(alloc: Global, value: &Value) -> Result<Path, Reason>
    ensures { IsValue (path_in (view value.now)) result }
{
    match Path::parse(alloc, text(value)?.as_bytes()) {
        Ok(path) => Ok(path),
        Err(PathFault::Memory) => Err(Reason::Memory),
        Err(fault) => Err(Reason::BadPath(fault)),
    }
}

/// Returns the kind of type that a value names. Errors: `NotString` if the value is not a text; `NotKind` if the text is
/// neither `component` nor `sequence`.
pub fn kind(value: &Value) -> Result<Kind, Reason>
    ensures { result ≡ kind_in (view value.now) }
{
    match text(value)? {
        "component" => Ok(Kind::Component),
        "sequence" => Ok(Kind::Sequence),
        _ => Err(Reason::NotKind),
    }
}
