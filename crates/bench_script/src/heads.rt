//! The values of a script that precede its arrays.

ghost use Rattle.std.specs.Prelude.{◌≡◌, ◌≤◌, IfOk, None, false, map};
ghost use Rattle.toml.specs.View.{table_view};
ghost use Rattle.script_values.specs.Keys.{optional, required, some_of};
ghost use Rattle.script_values.specs.Places.{at_place, key_text};
ghost use Rattle.script_values.specs.Values.{flag_in, name_in, number_in};
ghost use Rattle.bench_script.specs.Limits.{most_time, most_quit_limit};
ghost use Rattle.bench_script.specs.Documents.{head_in, root_keys, value_at_or, version_in};

use script_values::keys::{member, only_keys};
use script_values::values::{flag, integer, name, number};
use script_values::{FaultyScript, Place, Reason, RootKey, at_place};
use toml::Table;
use uvm_glob::Name;

/// The maximum time in ticks.
const MAX_TIME: u64 = 1_000_000_000_000_000_000;

const MAX_QUIT_LIMIT: u64 = u16::MAX as u64;

// The keys of a script of version 1.
const ROOT_KEYS: [&str; 12] = [
    "version",
    "test",
    "time_limit",
    "quit_limit",
    "runtime",
    "type",
    "override",
    "set",
    "verbosity",
    "action",
    "severity",
    "probe",
];

// The keys of a script of version 2.
const LATER_ROOT_KEYS: [&str; 13] = [
    "version",
    "test",
    "time_limit",
    "quit_limit",
    "runtime",
    "type",
    "override",
    "set",
    "verbosity",
    "action",
    "severity",
    "probe",
    "drain",
];

/// The version of a script, the name of its test, its two limits, and whether the run-time phases run.
#[derive(Drop)]
pub(crate) struct Head {
    pub(crate) version: u64,
    pub(crate) test: Option<Name>,
    pub(crate) time_limit: u64,
    pub(crate) quit_limit: u64,
    pub(crate) runtime: bool,
}

pub(crate) fn read_head(root: &Table, others: &[&str]) -> Result<Head, FaultyScript>
    ensures head { result ≡ head_in (map (λ key. key.now) others.now) (table_view root.now) }
    ensures time_limit { IfOk result (λ head. head.time_limit ≤ most_time) }
    ensures quit_limit { IfOk result (λ head. head.quit_limit ≤ most_quit_limit) }
{
    let version = at_key(version(root), RootKey::Version)?;
    at_place(only_keys(root, root_keys(version), others), Place::Document)?;
    let test = at_key(test(root), RootKey::Test)?;
    let time_limit = number_at(root, RootKey::TimeLimit, MAX_TIME, MAX_TIME)?;
    let quit_limit = number_at(root, RootKey::QuitLimit, MAX_QUIT_LIMIT, 0)?;
    let runtime = at_key(runtime(root), RootKey::Runtime)?;
    Ok(Head {
        version,
        test,
        time_limit,
        quit_limit,
        runtime,
    })
}

// Returns the result of reading a key of the document. Errors: the reason, at this key.
fn at_key<T: Drop>(read: Result<T, Reason>, key: RootKey) -> Result<T, FaultyScript>
    ensures { result ≡ at_place (Place.Key key) read }
{
    at_place(read, Place::Key(key))
}

// Returns the version of a document. Errors: `Missing`; `NotInteger`; `Version` if the integer is neither 1 nor 2.
fn version(root: &Table) -> Result<u64, Reason>
    ensures { result ≡ required (key_text RootKey.Version) version_in (table_view root.now) }
{
    let Some(value) = member(root, RootKey::Version.text()) else {
        return Err(Reason::Missing);
    };
    match integer(value)? {
        1 => Ok(1),
        2 => Ok(2),
        _ => Err(Reason::Version),
    }
}

// Returns the name of the test, if the document has one. Errors: `NotString`; `BadName`.
fn test(root: &Table) -> Result<Option<Name>, Reason>
    ensures { result ≡ optional (key_text RootKey.Test) None (some_of name_in) (table_view root.now) }
{
    match member(root, RootKey::Test.text()) {
        Some(value) => Ok(Some(name(value)?)),
        None => Ok(None),
    }
}

// Returns the number at a key of the document, or `absent` if the key is absent. Errors: `NotInteger` or `NotInRange`, at the key.
fn number_at(root: &Table, key: RootKey, most: u64, absent: u64) -> Result<u64, FaultyScript>
    requires { absent ≤ most }
    ensures number { result ≡ value_at_or key absent (number_in most) (table_view root.now) }
    ensures limit { IfOk result (λ number. number ≤ most) }
{
    match member(root, key.text()) {
        Some(value) => at_key(number(value, most), key),
        None => Ok(absent),
    }
}

// Returns whether the run-time phases run, false if the key is absent. Errors: `NotBoolean`.
fn runtime(root: &Table) -> Result<bool, Reason>
    ensures { result ≡ optional (key_text RootKey.Runtime) false flag_in (table_view root.now) }
{
    match member(root, RootKey::Runtime.text()) {
        Some(value) => flag(value),
        None => Ok(false),
    }
}

/// Returns the keys that a document of a version can have: version 2 has one more than the others, `drain`.
#[tactic(auto, unfolding(crate::specs::Documents::root_keys))]
pub fn root_keys(version: u64) -> &'static [&'static str]
    ensures { map (λ key. key.now) result.now ≡ root_keys version }
{
    if version == 2 {
        &LATER_ROOT_KEYS
    } else {
        &ROOT_KEYS
    }
}
