//! Examples of the results of settings, and checks that each call succeeds if memory is available. For the definitions, proofs/
//! states which setting takes precedence.

ghost use Rattle.std.specs.Prelude.{◌<◌, ◌≤◌};
ghost use Rattle.uvm_glob.specs.Limits.{most_names};

use crate::texts::is_printed;
use std::alloc::Global;
use std::process::Abort;
use std::test::Fail;
use uvm_config::{ConfigFault, Settings};
use uvm_glob::{Glob, Name, Path};

// Sets the field `f` for the paths that a glob matches.
fn set(
    alloc: Global,
    settings: &mut Settings,
    depth: u8,
    building: bool,
    scope: &str,
    value: i64,
) -> Result<(), Fail>
    requires { depth ≤ most_names }
{
    let field = Name::new(b"f")?;
    let scope = Glob::new(alloc, scope.as_bytes())?;
    Ok(settings.set(depth, building, scope, field, value)?)
}

// Returns the value of a field at `uvm_test_top.env`.
fn get(alloc: Global, settings: &Settings, field: &str) -> Result<Option<i64>, Fail> {
    let field = Name::new(field.as_bytes())?;
    let path = Path::parse(alloc, b"uvm_test_top.env")?;
    Ok(settings.get(&path, &field))
}

#[test]
fn the_top_prevails_in_build_and_the_last_setting_after_it(rt: HostRuntime) -> Result<(), Fail> {
    let mut settings = Settings::new(rt.alloc());
    set_after_build(&rt, rt.alloc(), &mut settings)
}

fn set_after_build<R: Abort>(rt: &R, alloc: Global, settings: &mut Settings) -> Result<(), Fail> {
    set(alloc, settings, 0, true, "*", 1)?;
    set(alloc, settings, 1, true, "uvm_test_top.env", 2)?;
    assert!(rt; get(alloc, settings, "f")? == Some(1));
    set(alloc, settings, 2, false, "uvm_test_top.env", 4)?;
    assert!(rt; get(alloc, settings, "f")? == Some(4));
    Ok(())
}

#[test]
fn one_setting_too_many_is_refused(rt: HostRuntime) -> Result<(), Fail> {
    let mut settings = Settings::new(rt.alloc());
    fill(&rt, rt.alloc(), &mut settings)
}

// Sets one field for one scope `Settings::MAX_SETS` times. The next setting then fails with `Full` and changes no value.
fn fill<R: Abort>(rt: &R, alloc: Global, settings: &mut Settings) -> Result<(), Fail> {
    for value in 0..Settings::MAX_SETS as i64 {
        set(alloc, settings, 0, false, "*", value)?;
    }
    assert!(rt; settings.is_full());
    let field = Name::new(b"f")?;
    let scope = Glob::new(alloc, b"*")?;
    assert!(rt; settings.set(0, false, scope, field, 7) == Err(ConfigFault::Full));
    assert!(rt; get(alloc, settings, "f")? == Some(Settings::MAX_SETS as i64 - 1));
    Ok(())
}

#[test]
fn a_refusal_for_memory_changes_no_answer(rt: HostRuntime) -> Result<(), Fail> {
    let mut settings = Settings::new(rt.alloc());
    keep_answers(&rt, rt.alloc(), &mut settings)
}

// Sets 12 fields, more than the map of the fields has capacity for at first, each twice. The value of the field is then the new
// one, or the earlier one after an out-of-memory error.
fn keep_answers<R: Abort>(rt: &R, alloc: Global, settings: &mut Settings) -> Result<(), Fail> {
    let path = Path::parse(alloc, b"uvm_test_top")?;
    for place in 0..24 {
        assert!(rt; is_set_or_unchanged(alloc, settings, &path, place));
    }
    Ok(())
}

fn is_set_or_unchanged(alloc: Global, settings: &mut Settings, path: &Path, place: u8) -> bool
    requires { place < 24 }
{
    let Ok(field) = Name::new([b'a' + place % 12].as_slice()) else {
        return false;
    };
    let before = settings.get(path, &field);
    let Ok(scope) = Glob::new(alloc, b"*") else {
        return true;
    };
    let given = settings.set(1, true, scope, field, i64::from(place));
    let answer = settings.get(path, &field);
    match given {
        Ok(()) => answer == Some(i64::from(place)),
        Err(fault) => fault == ConfigFault::Memory && answer == before,
    }
}

#[test]
fn faults_are_printed(rt: HostRuntime) -> Result<(), Fail> {
    assert!(rt; is_printed(rt.alloc(), &ConfigFault::Full, "too many settings")?);
    Ok(())
}
