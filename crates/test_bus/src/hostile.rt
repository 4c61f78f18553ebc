//! Runs with writers that fail or take few bytes, and scripts that are cut off.

use crate::bus_runs::BUS;
use crate::writers::Narrow;
use bench_script::read;
use bus_jobs::{Breakage, Verdict, run_bench};
use std::alloc::Global;

// A test that reports errors; the second ERROR reaches the quit limit.
const LOUD: &[u8] =
    b"version = 1\ntest = \"loud\"\nquit_limit = 2\ntype = [{ name = \"loud\", kind = \"component\" }]\n";

// More writes than any run here performs.
const MOST_WRITES: usize = 1_000;

// Runs a script with a trace and the seed 1.
fn run(alloc: Global, script: &[u8], out: &mut Narrow) -> Verdict {
    run_bench(alloc, script, 1, None, true, out)
}

// Returns whether the written bytes are the beginning of a text, in whole lines.
fn is_beginning(taken: &[u8], text: &[u8]) -> bool {
    text.starts_with(taken) && (taken.is_empty() || taken.ends_with(b"\n"))
}

// Returns whether a run breaks at each write that fails, with only whole lines of the text written. If no write fails, it must end with its
// own verdict.
fn breaks_at_each_write(alloc: Global, script: &[u8], own: Verdict) -> bool {
    let mut whole = Narrow::failing(alloc, MOST_WRITES);
    if run(alloc, script, &mut whole) != own {
        return false;
    }
    let writes = MOST_WRITES - whole.writes.min(MOST_WRITES);
    for count in 0..writes {
        if !breaks_behind(alloc, script, count, whole.taken.as_slice()) {
            return false;
        }
    }
    ends_behind(alloc, script, writes, own)
}

fn breaks_behind(alloc: Global, script: &[u8], writes: usize, text: &[u8]) -> bool {
    let mut out = Narrow::failing(alloc, writes);
    run(alloc, script, &mut out) == Verdict::Broken(Breakage::Output)
        && out.writes == 0
        && is_beginning(out.taken.as_slice(), text)
}

fn ends_behind(alloc: Global, script: &[u8], writes: usize, own: Verdict) -> bool {
    let mut out = Narrow::failing(alloc, writes);
    run(alloc, script, &mut out) == own
}

#[test]
fn a_run_breaks_at_each_write_that_fails(rt: HostRuntime) {
    let alloc = rt.alloc();
    assert!(rt; breaks_at_each_write(alloc, LOUD, Verdict::Faulty));
    assert!(rt; breaks_at_each_write(alloc, BUS.as_bytes(), Verdict::Clean));
}

// Returns whether a run with a writer that takes one byte at a time writes the same text as with one that takes all.
fn writes_the_same_byte_by_byte(alloc: Global, script: &[u8]) -> bool {
    let mut whole = Narrow::failing(alloc, MOST_WRITES);
    let mut bytes = Narrow::new(alloc, usize::MAX, 1);
    run(alloc, script, &mut whole) == run(alloc, script, &mut bytes)
        && whole.taken.as_slice() == bytes.taken.as_slice()
}

#[test]
fn short_writes_change_nothing(rt: HostRuntime) {
    let alloc = rt.alloc();
    assert!(rt; writes_the_same_byte_by_byte(alloc, LOUD));
    assert!(rt; writes_the_same_byte_by_byte(alloc, BUS.as_bytes()));
}

// Returns whether each beginning of a script is read twice with the same fault, or with none, and the whole script has none.
fn beginnings_are_read_alike(alloc: Global, script: &[u8]) -> bool {
    for count in 0..script.len() {
        let beginning = &script[..count];
        if read(alloc, beginning).err() != read(alloc, beginning).err() {
            return false;
        }
    }
    read(alloc, script).is_ok()
}

#[test]
fn each_beginning_of_the_bus_script_is_read_the_same_twice(rt: HostRuntime) {
    assert!(rt; beginnings_are_read_alike(rt.alloc(), BUS.as_bytes()));
}
