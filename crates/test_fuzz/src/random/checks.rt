//! Checks of random benches.

use crate::random::fault_plan::Moods;
use crate::random::scripts::random_script;
use crate::random::wild::Wild;
use bench_script::{ScriptFault, read};
use std::alloc::{AllocError, Global};
use std::io::Write;
use test_fuzz_runs::{RunUnderTest, Violation, run_script};

// The number of answers in a bench that have actions; later answers have none.
const ANSWERS: u64 = 150;

/// Runs the benches of `count` seeds from `first`, each twice. Writes a line for each bench that fails a check, and a last line with the
/// number of those that failed. If `shows` is true, also writes each script and the transcript of its first run. Returns the exit status: 0
/// if no bench failed, 1 if one did, 3 if the last line could not be written.
pub fn check_benches<O: Write>(
    alloc: Global,
    first: u64,
    count: u64,
    shows: bool,
    out: &mut O,
) -> u8 {
    let mut failed = 0u64;
    for place in 0..count {
        let seed = first.wrapping_add(place);
        if let Err(violation) = check_bench(alloc, seed, shows, out) {
            failed = failed.wrapping_add(1);
            let _ = writeln!(out, "seed {seed}: {violation}");
        }
    }
    match write_end(first, count, failed, out) {
        true => u8::from(failed != 0),
        false => 3,
    }
}

fn write_end<O: Write>(first: u64, count: u64, failed: u64, out: &mut O) -> bool {
    let written = if failed == 0 {
        writeln!(
            out,
            "{count} benches from seed {first}: each ended, gave back each object once, and ran the same again"
        )
    } else {
        writeln!(out, "{count} benches from seed {first}: {failed} failed")
    };
    written.is_ok()
}

// Creates the run under test of a seed. Errors: out of memory.
fn play_of(alloc: Global, seed: u64) -> Result<RunUnderTest<Moods>, AllocError> {
    RunUnderTest::new(alloc, seed, ANSWERS, Moods::new(seed))
}

// Checks the bench of a seed. The error is the first check that it fails, or `Memory`.
fn check_bench<O: Write>(
    alloc: Global,
    seed: u64,
    shows: bool,
    out: &mut O,
) -> Result<(), Violation> {
    let script = random_script(alloc, seed)?;
    let mut first = play_of(alloc, seed)?;
    let ended = run_bytes(alloc, script.as_slice(), &mut first);
    if shows {
        let _ = out.write_all(script.as_slice());
        let _ = out.write_all(first.record().text());
    }
    let refused = ended?;
    let mut second = play_of(alloc, seed)?;
    if run_bytes(alloc, script.as_slice(), &mut second)? != refused {
        return Err(Violation::Differs);
    }
    if !first.record().is_same(second.record()) {
        return Err(Violation::Differs);
    }
    Ok(())
}

// Runs the script in `bytes`, or returns the script fault for which it is rejected. Errors: `Memory`; those of `run_script`.
fn run_bytes(
    alloc: Global,
    bytes: &[u8],
    run_under_test: &mut RunUnderTest<Moods>,
) -> Result<Option<ScriptFault>, Violation> {
    match read(alloc, bytes) {
        Ok(script) => {
            run_script::<Wild, Moods>(alloc, script, run_under_test)?;
            Ok(None)
        }
        Err(ScriptFault::Memory) => Err(Violation::Memory),
        Err(fault) => Ok(Some(fault)),
    }
}
