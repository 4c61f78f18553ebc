//! Runs of scripts of a few types: the texts that they write, and their verdicts.

use crate::verdicts::is_told;
use crate::writers::Narrow;
use bench_script::ScriptFault;
use bus_jobs::{Breakage, Verdict, run_bench};
use std::alloc::Global;
use uvm_glob::Name;

// A test that answers each call with no actions.
const IDLE: &str =
    "version = 1\ntest = \"idle\"\ntype = [{ name = \"idle\", kind = \"component\" }]\n";

// The same type, and no test.
const NO_TEST: &str = "version = 1\ntype = [{ name = \"idle\", kind = \"component\" }]\n";

// A test of a type that the bench does not have.
const OTHER: &str =
    "version = 1\ntest = \"other\"\ntype = [{ name = \"other\", kind = \"component\" }, { name = \"idle\", kind = \"component\" }]\n";

/// The summary of a run without reports.
pub(crate) const SUMMARY: &str = "--- UVM Report Summary ---
** Report counts by severity
UVM_INFO : 0
UVM_WARNING : 0
UVM_ERROR : 0
UVM_FATAL : 0
** Report counts by id
";

// A test that waits for 0 ticks repeatedly.
const SPINNER: &str =
    "version = 1\ntest = \"spinner\"\ntype = [{ name = \"spinner\", kind = \"component\" }]\n";

const IDLE_RUN: &str = "did uvm_top create idle uvm_test_top: made idle
begin build
heard uvm_test_top build: 0
end build
begin connect
heard uvm_test_top connect: 0
end connect
begin end_of_elaboration
heard uvm_test_top end_of_elaboration: 0
end end_of_elaboration
begin start_of_simulation
heard uvm_test_top start_of_simulation: 0
end start_of_simulation
begin run
heard uvm_test_top run: 0
end run
begin extract
heard uvm_test_top extract: 0
end extract
begin check
heard uvm_test_top check: 0
end check
begin report
heard uvm_test_top report: 0
end report
begin final
heard uvm_test_top final: 0
end final
over finished
--- UVM Report Summary ---
** Report counts by severity
UVM_INFO : 0
UVM_WARNING : 0
UVM_ERROR : 0
UVM_FATAL : 0
** Report counts by id
";

const DECLINED_RUN: &str = "did uvm_top create other uvm_test_top: refused FCTTYP
UVM_FATAL @ 0: uvm_top [FCTTYP] no object supplied
over no_test
--- UVM Report Summary ---
** Report counts by severity
UVM_INFO : 0
UVM_WARNING : 0
UVM_ERROR : 0
UVM_FATAL : 1
** Report counts by id
[FCTTYP] 1
";

// The same, with no actions for fatal reports.
const SILENCED: &str =
    "version = 1\ntest = \"other\"\ntype = [{ name = \"other\", kind = \"component\" }, { name = \"idle\", kind = \"component\" }]\naction = [{ scope = \"*\", severity = \"FATAL\", actions = [] }]\n";

const SILENCED_RUN: &str = "did uvm_top create other uvm_test_top: refused FCTTYP
over no_test
--- UVM Report Summary ---
** Report counts by severity
UVM_INFO : 0
UVM_WARNING : 0
UVM_ERROR : 0
UVM_FATAL : 0
** Report counts by id
";

// Returns whether a run of a script with the seed 1 ends with a verdict and writes a text.
fn comes_to(alloc: Global, script: &str, trace: bool, verdict: Verdict, text: &str) -> bool {
    let mut out = Vec::new(alloc);
    run_bench(alloc, script.as_bytes(), 1, None, trace, &mut out) == verdict
        && out.as_slice() == text.as_bytes()
}

#[test]
fn idle_transcript(rt: HostRuntime) {
    assert!(rt; comes_to(rt.alloc(), IDLE, true, Verdict::Clean, IDLE_RUN));
}

#[test]
fn summary_alone_is_written_without_trace(rt: HostRuntime) {
    assert!(rt; comes_to(rt.alloc(), IDLE, false, Verdict::Clean, SUMMARY));
}

#[test]
fn spinner_fills_the_log(rt: HostRuntime) {
    assert!(rt;
        comes_to(
            rt.alloc(),
            SPINNER,
            false,
            Verdict::Broken(Breakage::LogFull),
            ""
        )
    );
}

#[test]
fn test_of_a_type_that_the_bench_does_not_have_is_declined(rt: HostRuntime) {
    let alloc = rt.alloc();
    assert!(rt; comes_to(alloc, OTHER, true, Verdict::Faulty, DECLINED_RUN));
    assert!(rt; comes_to(alloc, SILENCED, true, Verdict::Faulty, SILENCED_RUN));
}

// Returns whether a run with a trace, and with this test instead of the script's, ends with a verdict and writes a text.
fn comes_to_with(alloc: Global, script: &str, test: &str, verdict: Verdict, text: &str) -> bool {
    let mut out = Vec::new(alloc);
    match Name::new(test.as_bytes()) {
        Ok(test) => {
            run_bench(alloc, script.as_bytes(), 1, Some(&test), true, &mut out) == verdict
                && out.as_slice() == text.as_bytes()
        }
        Err(_) => false,
    }
}

#[test]
fn test_that_is_asked_for_replaces_the_scripts(rt: HostRuntime) {
    let alloc = rt.alloc();
    assert!(rt; comes_to_with(alloc, OTHER, "idle", Verdict::Clean, IDLE_RUN));
    assert!(rt; comes_to_with(alloc, NO_TEST, "idle", Verdict::Clean, IDLE_RUN));
}

#[test]
fn run_without_its_test_is_refused(rt: HostRuntime) {
    let alloc = rt.alloc();
    let missing = Verdict::Refused(ScriptFault::Missing);
    let unknown = Verdict::Refused(ScriptFault::UnknownType);
    assert!(rt; comes_to(alloc, NO_TEST, true, missing, ""));
    assert!(rt; is_told(alloc, missing, 2, "bus_bench: script fault 4 Missing\n"));
    assert!(rt; comes_to_with(alloc, IDLE, "unknown", unknown, ""));
    assert!(rt; is_told(alloc, unknown, 2, "bus_bench: script fault 8 UnknownType\n"));
}

// Returns the verdict on a run of `idle` with a trace if the writer fails after this many writes.
fn verdict_behind(alloc: Global, writes: usize) -> Verdict {
    run_bench(
        alloc,
        IDLE.as_bytes(),
        1,
        None,
        true,
        &mut Narrow::failing(alloc, writes),
    )
}

#[test]
fn writer_that_fails_breaks_the_run(rt: HostRuntime) {
    let alloc = rt.alloc();
    let broken = Verdict::Broken(Breakage::Output);
    assert!(rt; verdict_behind(alloc, 0) == broken);
    assert!(rt; verdict_behind(alloc, 1) == broken);
    assert!(rt; verdict_behind(alloc, 28) == broken);
    assert!(rt; verdict_behind(alloc, 29) == broken);
    assert!(rt; verdict_behind(alloc, 30) == Verdict::Clean);
}
