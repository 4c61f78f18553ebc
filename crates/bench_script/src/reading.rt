//! The functions that read a script.

ghost use Rattle.std.specs.Prelude.{◌≡◌, ◌≢◌, Ok, Err, IfOk, MatchResult, All, map};
ghost use Rattle.script_tables.specs.Drains.{CanDrain};
ghost use Rattle.toml.specs.View.{table_view};
ghost use Rattle.toml.specs.Parse.{parse_document};
ghost use Rattle.script_values.specs.Reading.{IsPlaced, IsReading};
ghost use Rattle.bench_script.specs.Sound.{IsComponentAt};
ghost use Rattle.bench_script.specs.Documents.{IsReadable, drains_given, placed_beside, script_beside, script_of_bytes, test_among, tree_in, tree_of_bytes};

use crate::heads::read_head;
use crate::scripts::Script;
use script_tables::{
    Drain, TypeTable, read_actions, read_drains, read_overrides, read_probes, read_settings,
    read_severities, read_types, read_verbosities,
};
use script_values::{FaultyScript, Place, Reason, RootKey, ScriptFault, at_place};
use std::alloc::Global;
use std::str;
use toml::Table;
use uvm_factory::{Kind, TypeId};
use uvm_glob::Name;

/// The maximum number of bytes of a script.
const MAX_LEN: usize = 1_048_576;

/// Reads a script. Errors: `TooLong` if there are more than 1,048,576 bytes; `NotText` if the bytes are not UTF-8; `NotToml` if
/// the text is not TOML; then the errors of `read_table`; out of memory (`Memory`). Nothing is allocated before the bytes are
/// known to be UTF-8 and not too many.
pub fn read(alloc: Global, bytes: &[u8]) -> Result<Script, ScriptFault>
    ensures reading { IsReading (script_of_bytes bytes.now) result }
    ensures readable { MatchResult result (λ _. IsReadable bytes.now) (λ fault. fault ≡ ScriptFault.Memory → IsReadable bytes.now) }
{
    let root = read_document(alloc, bytes)?;
    read_table(alloc, &root, &[])
}

/// Reads a document, of which a script can be a part. Errors: `TooLong` if there are more than 1,048,576 bytes; `NotText` if the
/// bytes are not UTF-8; `NotToml` if `toml` rejects the text; out of memory (`Memory`). Nothing is allocated before the bytes are
/// known to be UTF-8 and not too many.
pub fn read_document(alloc: Global, bytes: &[u8]) -> Result<Table, ScriptFault>
    ensures reading { MatchResult result
        (λ root. tree_of_bytes bytes.now ≡ Ok (table_view root))
        (λ fault. fault ≢ ScriptFault.Memory → tree_of_bytes bytes.now ≡ Err fault) }
    ensures readable { MatchResult result (λ _. IsReadable bytes.now) (λ fault. fault ≡ ScriptFault.Memory → IsReadable bytes.now) }
{
    if bytes.len() > MAX_LEN {
        return Err(ScriptFault::TooLong);
    }
    let Ok(text) = str::from_utf8(bytes) else {
        return Err(ScriptFault::NotText);
    };
    parse(alloc, text)
}

fn parse(alloc: Global, text: &str) -> Result<Table, ScriptFault>
    ensures { MatchResult result
        (λ root. tree_in (parse_document text.now) ≡ Ok (table_view root))
        (λ fault. fault ≢ ScriptFault.Memory → tree_in (parse_document text.now) ≡ Err fault) }
{
    match toml::table_from_str(alloc, text) {
        Ok(root) => Ok(root),
        Err(error) if error.is_memory() => Err(ScriptFault::Memory),
        Err(_) => Err(ScriptFault::NotToml),
    }
}

/// Reads a script from the tree of a document. The document can have the keys in `others` in addition to those of a script.
/// Errors: the fault of the error of `read_placed`.
#[tactic(auto, unfolding(crate::specs::Documents::script_beside))]
pub fn read_table(alloc: Global, root: &Table, others: &[&str]) -> Result<Script, ScriptFault>
    ensures { IsReading (script_beside (map (λ key. key.now) others.now) (table_view root.now)) result }
{
    Ok(read_placed(alloc, root, others)?)
}

/// Reads a script from the tree of a document. The document can have the keys in `others` in addition to those of a script.
/// Errors, in this order: those of `version`; `UnknownKey` for a key that is neither one of a script of this version nor in
/// `others`; those of `test` as a name, `time_limit`, `quit_limit` and `runtime`; those of `type`, `override`, `set`,
/// `verbosity`, `action`, `severity`, `probe` and `drain`; `UnknownType` or `SequenceTest` if `test` does not name a component
/// type; out of memory (`Memory`). Each has its place.
#[tactic(auto, unfolding(crate::specs::Documents::placed_beside))]
pub fn read_placed(alloc: Global, root: &Table, others: &[&str]) -> Result<Script, FaultyScript>
    ensures { IsPlaced (placed_beside (map (λ key. key.now) others.now) (table_view root.now)) result }
{
    let head = read_head(root, others)?;
    let types = read_types(alloc, root)?;
    let overrides = read_overrides(alloc, &types, root)?;
    let settings = read_settings(alloc, root)?;
    let verbosities = read_verbosities(alloc, root)?;
    let actions = read_actions(alloc, root)?;
    let severities = read_severities(alloc, root)?;
    let probes = read_probes(alloc, &types, root)?;
    let drains = drains_given(alloc, head.version, root)?;
    let test = at_place(test_among(&types, head.test), Place::Key(RootKey::Test))?;
    Ok(Script {
        version: head.version,
        test,
        time_limit: head.time_limit,
        quit_limit: head.quit_limit as u16,
        runtime: head.runtime,
        types: types.rows(alloc)?,
        overrides,
        settings,
        verbosities,
        actions,
        severities,
        probes,
        drains,
    })
}

// Returns the drain times of a script of version 2, and none for version 1. Errors: as for `read_drains`.
fn drains_given(alloc: Global, version: u64, root: &Table) -> Result<Vec<Drain>, FaultyScript>
    ensures sound { IfOk result (λ rows. All CanDrain rows.items) }
    ensures rows { MatchResult result
        (λ rows. drains_given version (table_view root.now) ≡ Ok rows.items)
        (λ faulty. faulty.reason ≢ Reason.Memory → drains_given version (table_view root.now) ≡ Err faulty) }
{
    if version == 2 {
        read_drains(alloc, root)
    } else {
        Ok(Vec::new(alloc))
    }
}

// Returns the type that the test names, which must be a component type, or `None` if there is no test. Errors: `UnknownType` if
// no type has the name; `SequenceTest` if the type is a sequence type.
fn test_among(types: &TypeTable, test: Option<Name>) -> Result<Option<TypeId>, Reason>
    ensures test { result ≡ test_among types.now test }
    ensures sound { IfOk result (IsComponentAt types.now) }
{
    let Some(name) = test else {
        return Ok(None);
    };
    let place = types.find(&name).ok_or(Reason::UnknownType)?;
    match types.kind_of(place) {
        Some(Kind::Component) => Ok(Some(place)),
        Some(Kind::Sequence) => Err(Reason::SequenceTest),
        None => Err(Reason::UnknownType),
    }
}
