//! Tests of runs of scripts, with an object of a user's own type and without an object.

ghost use Rattle.std.specs.Prelude.{◌≡◌, IfSome, IsSome};

use bench_script::Script;
use rand_pcg::Pcg32;
use std::alloc::{AllocError, Global};
use test_runs::{Idle, RunResult, make_idle, run_script};
use uvm_glob::Name;
use uvm_object::{Reason, UvmObject};

/// The script of a test of the type `idle`.
pub(crate) const IDLE: &[u8] =
    b"version = 1\ntest = \"idle\"\ntype = [{ name = \"idle\", kind = \"component\" }]\n";

// The end of the text of a run with an object that answers each call with no actions.
const LAST_LINES: &str = "over finished
--- UVM Report Summary ---
** Report counts by severity
UVM_INFO : 0
UVM_WARNING : 0
UVM_ERROR : 0
UVM_FATAL : 0
** Report counts by id
";

// The whole text of a run without an object.
const DECLINED_LINES: &str = "did uvm_top create idle uvm_test_top: refused FCTTYP
UVM_FATAL @ 0: uvm_top [FCTTYP] no object supplied
over no_test
--- UVM Report Summary ---
** Report counts by severity
UVM_INFO : 0
UVM_WARNING : 0
UVM_ERROR : 0
UVM_FATAL : 1
** Report counts by id
[FCTTYP] 1
";

/// The result of a run with an object that answers each call with no actions.
pub(crate) const CLEAN: RunResult = RunResult {
    reason: Reason::Finished,
    errors: 0,
    fatals: 0,
};

// The result of a run without an object.
const DECLINED: RunResult = RunResult {
    reason: Reason::NoTest,
    errors: 0,
    fatals: 1,
};

// Runs the script with a trace, over the objects that `make` creates. Returns the result, and whether it is clean. Returns `None`
// if the run fails or its text does not end with `shown`.
fn ran<O: UvmObject, F: Fn(&Name) -> Result<Option<O>, AllocError> + Drop>(
    alloc: Global,
    make: F,
    shown: &str,
) -> Option<(RunResult, bool)>
    requires { F.IsAlwaysCallable make }
{
    let script = script(alloc)?;
    let mut out = Vec::new(alloc);
    match run_script(alloc, script, &mut Pcg32::new(1, 1), true, make, &mut out) {
        Ok(run_result) if out.ends_with(shown.as_bytes()) => Some((
            run_result,
            run_result.is_clean(),
        )),
        _ => None,
    }
}

// Returns the script whose test is of the type `idle`.
pub(crate) fn script(alloc: Global) -> Option<Script>
    ensures { IfSome result (λ script. IsSome script.test) }
{
    let script = bench_script::read(alloc, IDLE).ok()?;
    if script.test().is_none() {
        return None;
    }
    Some(script)
}

#[test]
fn boxed_object_is_run_to_the_end(rt: HostRuntime) {
    assert!(rt; ran_boxed(rt.alloc()) == Some((CLEAN, true)));
}

fn ran_boxed(alloc: Global) -> Option<(RunResult, bool)> {
    let make = |type_name: &Name| -> Result<Option<Box<dyn UvmObject>>, AllocError> {
        let type_name = *type_name;
        match Box::new(alloc, Idle { type_name }) {
            Ok(object) => Ok(Some(object)),
            Err(_) => Err(AllocError),
        }
    };
    ran(alloc, make, LAST_LINES)
}

#[test]
fn object_of_another_type_is_declined(rt: HostRuntime) {
    assert!(rt; ran_with_another(rt.alloc()) == Some((DECLINED, false)));
}

fn ran_with_another(alloc: Global) -> Option<(RunResult, bool)> {
    let other = Name::new(b"other").ok()?;
    let make = |_: &Name| -> Result<Option<Idle>, AllocError> { make_idle(&other) };
    ran(alloc, make, DECLINED_LINES)
}
