//! The lines that the command `debug` writes for a script, and its verdicts.

use crate::texts::joined;
use crate::verdicts::is_told;
use crate::writers::Narrow;
use bus_jobs::{Breakage, Verdict, debug_bench};
use std::alloc::Global;

// Probes of A below the test and at the test, with the component types A, B, C and D. The overrides follow this text.
const PROBES: &str = r#"
version = 1
type = [
  { name = "A", kind = "component" },
  { name = "B", kind = "component" },
  { name = "C", kind = "component" },
  { name = "D", kind = "component" },
]
probe = [
  { type = "A", path = "uvm_test_top.x" },
  { type = "A", path = "uvm_test_top" },
]
"#;

// An overriding type is overridden in turn, and an instance override takes precedence over a type override.
const CHAIN: &str = r#"
override = [
  { orig = "A", new = "B" },
  { orig = "B", new = "C" },
  { orig = "B", new = "D", at = "uvm_test_top.*" },
]
"#;

// The first instance override that matches takes precedence.
const FIRST_INSTANCE: &str = r#"
override = [
  { orig = "A", new = "B", at = "*" },
  { orig = "A", new = "C", at = "uvm_test_top.x" },
]
"#;

const KEPT: &str = r#"
override = [{ orig = "A", new = "B" }, { orig = "A", new = "C", replace = false }]
"#;

const REPLACED: &str = r#"
override = [{ orig = "A", new = "B" }, { orig = "A", new = "C", replace = true }]
"#;

const ALONE: &str = r#"
override = [{ orig = "A", new = "C", replace = false }]
"#;

const IN_A_LOOP: &str = r#"
override = [{ orig = "A", new = "B" }, { orig = "B", new = "A" }]
"#;

const ITSELF: &str = r#"
override = [{ orig = "A", new = "A" }]
"#;

// One type, and a probe of it at the test.
const BUS_TEST: &str = r#"
version = 1
type = [{ name = "bus_test", kind = "component" }]
probe = [{ type = "bus_test", path = "uvm_test_top" }]
"#;

#[test]
fn probe_of_a_type_without_overrides_is_answered_by_that_type(rt: HostRuntime) {
    let mut out = Vec::new(rt.alloc());
    let verdict = debug_bench(rt.alloc(), BUS_TEST.as_bytes(), &mut out);
    assert!(rt; verdict == Verdict::Clean);
    assert!(rt; out.as_slice() == b"bus_test @ uvm_test_top -> bus_test\n".as_slice());
}

// Returns whether the probes with these overrides result in these two lines.
fn are_answered(alloc: Global, overrides: &str, lines: &str) -> bool {
    let mut out = Vec::new(alloc);
    match joined(alloc, &[PROBES, overrides]) {
        Ok(script) => {
            debug_bench(alloc, script.as_bytes(), &mut out) == Verdict::Clean
                && out.as_slice() == lines.as_bytes()
        }
        Err(_) => false,
    }
}

#[test]
fn each_probe_is_answered_by_the_overrides(rt: HostRuntime) {
    for (overrides, lines) in [
        ("", "A @ uvm_test_top.x -> A\nA @ uvm_test_top -> A\n"),
        (CHAIN, "A @ uvm_test_top.x -> D\nA @ uvm_test_top -> C\n"),
        (
            FIRST_INSTANCE,
            "A @ uvm_test_top.x -> B\nA @ uvm_test_top -> B\n",
        ),
        (KEPT, "A @ uvm_test_top.x -> B\nA @ uvm_test_top -> B\n"),
        (REPLACED, "A @ uvm_test_top.x -> C\nA @ uvm_test_top -> C\n"),
        (ALONE, "A @ uvm_test_top.x -> C\nA @ uvm_test_top -> C\n"),
        (
            IN_A_LOOP,
            "A @ uvm_test_top.x loops\nA @ uvm_test_top loops\n",
        ),
        (ITSELF, "A @ uvm_test_top.x -> A\nA @ uvm_test_top -> A\n"),
    ] {
        assert!(rt;
            are_answered(rt.alloc(), overrides, lines),
            "at {overrides}"
        );
    }
}

// Returns whether a script is rejected with this line and the status 2, and nothing is written.
fn is_refused(alloc: Global, script: &[u8], line: &str) -> bool {
    let mut out = Vec::new(alloc);
    let verdict = debug_bench(alloc, script, &mut out);
    out.is_empty() && is_told(alloc, verdict, 2, line)
}

#[test]
fn a_refused_script_has_status_2_and_writes_nothing(rt: HostRuntime) {
    for (script, line) in [
        ("", "bus_bench: script fault 4 Missing\n"),
        ("version = 3", "bus_bench: script fault 9 Version\n"),
        (
            "version = 1\ntest = \"bus",
            "bus_bench: script fault 2 NotToml\n",
        ),
        (
            "version = 1\ntest = \"x\"",
            "bus_bench: script fault 8 UnknownType\n",
        ),
        (
            "version = 1\ntets = \"x\"",
            "bus_bench: script fault 3 UnknownKey\n",
        ),
        (
            "version = 1\nquit_limit = \"2\"",
            "bus_bench: script fault 5 WrongKind\n",
        ),
        (
            "version = 1\nquit_limit = -1",
            "bus_bench: script fault 6 OutOfRange\n",
        ),
        (
            "version = 1\ntype = [{ name = \"a.b\", kind = \"component\" }]",
            "bus_bench: script fault 7 BadName\n",
        ),
    ] {
        assert!(rt;
            is_refused(rt.alloc(), script.as_bytes(), line),
            "of {script}"
        );
    }
}

#[test]
fn bytes_that_are_no_text_or_too_many_are_refused(rt: HostRuntime) {
    let alloc = rt.alloc();
    assert!(rt;
        is_refused(
            alloc,
            b"version = 1 # \xFF",
            "bus_bench: script fault 1 NotText\n"
        )
    );
    assert!(rt; spaces_are_refused(alloc, 1_048_577, "bus_bench: script fault 10 TooLong\n"));
}

fn spaces_are_refused(alloc: Global, count: usize, line: &str) -> bool {
    match vec![in alloc; b' '; count] {
        Ok(spaces) => is_refused(alloc, spaces.as_slice(), line),
        Err(_) => false,
    }
}

// Returns the verdict on the two probes if the writer fails after this many writes.
fn verdict_behind(alloc: Global, writes: usize) -> Verdict {
    debug_bench(
        alloc,
        PROBES.as_bytes(),
        &mut Narrow::failing(alloc, writes),
    )
}

#[test]
fn a_writer_that_fails_breaks_the_answers(rt: HostRuntime) {
    let alloc = rt.alloc();
    let broken = Verdict::Broken(Breakage::Output);
    assert!(rt; verdict_behind(alloc, 0) == broken);
    assert!(rt; verdict_behind(alloc, 1) == broken);
    assert!(rt; verdict_behind(alloc, 2) == Verdict::Clean);
}
