//! Tests of the results of kernel runs, and of the number of objects that the kernels hold then.

use crate::runs::{CLEAN, IDLE};
use std::alloc::Global;
use test_runs::{RunFault, Scenario, make_idle, make_spinner, shows_with};

#[test]
fn run_that_fills_its_log_is_broken_off_and_no_object_is_held(rt: HostRuntime) {
    let broken = Scenario::End(false, 1, (Err(RunFault::LogFull), 1_000_000, 0));
    assert!(rt; shows_with(rt.alloc(), IDLE, broken, &make_spinner));
}

// The last write is that of the summary.
#[test]
fn writer_that_fails_breaks_the_run_and_no_object_is_held(rt: HostRuntime) {
    assert!(rt; breaks_after(rt.alloc(), 0, 1));
    assert!(rt; breaks_after(rt.alloc(), 3, 4));
    assert!(rt; breaks_after(rt.alloc(), 28, 29));
    assert!(rt; breaks_after(rt.alloc(), 29, 29));
    assert!(rt; ends_well_after(rt.alloc(), 30, 29));
}

// Returns whether a run over a writer that fails after `writes` writes aborts with this number of entries.
fn breaks_after(alloc: Global, writes: usize, entries: usize) -> bool {
    let broken = Scenario::End(true, writes, (Err(RunFault::Output), entries, 0));
    shows_with(alloc, IDLE, broken, &make_idle)
}

fn ends_well_after(alloc: Global, writes: usize, entries: usize) -> bool {
    let clean = Scenario::End(true, writes, (Ok(CLEAN), entries, 0));
    shows_with(alloc, IDLE, clean, &make_idle)
}

#[test]
fn faults_are_printed(rt: HostRuntime) {
    assert!(rt; prints(rt.alloc(), RunFault::Memory, "out of memory"));
    assert!(rt; prints(rt.alloc(), RunFault::LogFull, "log full"));
    assert!(rt; prints(rt.alloc(), RunFault::Output, "output fault"));
    assert!(rt; prints(rt.alloc(), RunFault::NoTest, "no test"));
}

fn prints(alloc: Global, fault: RunFault, shown: &str) -> bool {
    match format!(in alloc; "{fault}") {
        Ok(text) => text.as_str() == shown,
        Err(_) => false,
    }
}
