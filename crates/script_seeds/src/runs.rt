//! The runs of a document for some seeds.

ghost use Rattle.std.specs.Prelude.{◌≡◌, ◌==◌, ◌<◌, ◌≤◌, ◌+◌, ◌^◌, IfErr, IfOk, OnOk, max, option_copied, if◌then◌else◌};
ghost use Rattle.std.specs.Io.KnownBytes.{Appends};
ghost use Rattle.script_jobs.specs.Verdicts.{status_of};
ghost use Rattle.script_seeds.specs.SeedRuns.{IsRunFor, IsSeedRun, IsStopped, WroteRuns};
ghost use Rattle.script_seeds.specs.Tallies.{IsNext, IsWriteFault, RanFor};

use crate::kept::Kept;
use crate::lines::{Seeds, push_count, push_seed};
use script_input::Breakage;
use script_jobs::{Bench, Verdict, laws};
use std::alloc::{AllocError, Global};
use std::io;
use uvm_glob::Name;

/// Runs the document for each seed, as `run_bench` does without a trace, and writes a line for each: `seed 7: clean`, or the exit status with
/// the first ERROR or FATAL that the run displays. Then it writes how many runs were clean. If `test` is given, it replaces the script's own
/// test. Returns the greatest exit status.
///
/// Errors: the verdict of `run_bench` if the document is rejected, with nothing written; `Broken` if the output fails, or if memory runs out
/// before the first run or for a line. A run for which memory runs out has a line, with the status 3.
pub fn run_seeds<W: io::Write>(
    alloc: Global,
    bytes: &[u8],
    seeds: Seeds,
    test: Option<&Name>,
    out: &mut W,
) -> Result<u8, Verdict>
    ensures ok { IfOk result (WroteRuns (IsSeedRun bytes.now (option_copied test.entry)) seeds.first seeds.count (W.contents out.old) (W.contents out.new)) }
    ensures err { IfErr result (IsStopped bytes.now (option_copied test.entry) (W.contents out.old) (W.contents out.new)) }
{
    laws::bench_runs_are_runs();
    let bench = match Bench::read(alloc, bytes, test) {
        Ok(bench) => bench,
        Err(verdict) => return Err(verdict),
    };
    match run_all(alloc, &bench, seeds, out) {
        Ok(status) => Ok(status),
        Err(breakage) => Err(Verdict::Broken(breakage)),
    }
}

// The counts of some runs.
#[derive(Clone, Copy)]
pub(crate) struct Tally {
    // The number of clean runs.
    pub clean: u64,
    // The greatest exit status.
    pub status: u8,
}

impl Tally {
    // Adds a run.
    fn add(&mut self, verdict: &Verdict)
        requires { self.old.clean + 1 < 2 ^ 64 }
        ensures clean { self.new.clean ≡ self.old.clean + (if status_of verdict.now == 0 then 1 else 0) }
        ensures status { self.new.status ≡ max self.old.status (status_of verdict.now) }
    {
        let status = verdict.status();
        if status == 0 {
            self.clean += 1;
        }
        self.status = self.status.max(status);
    }
}

// Runs the bench for each seed, and writes the lines. Returns the greatest exit status. Errors: `Output`; `Memory`.
fn run_all<W: io::Write>(
    alloc: Global,
    bench: &Bench,
    seeds: Seeds,
    out: &mut W,
) -> Result<u8, Breakage>
    ensures ok { IfOk result (WroteRuns (IsRunFor bench.now) seeds.first seeds.count (W.contents out.old) (W.contents out.new)) }
    ensures err { IfErr result IsWriteFault }
{
    let mut line = Vec::new(alloc);
    let mut tally = Tally {
        clean: 0,
        status: 0,
    };
    for number in 0..seeds.count {
        run_next(
            alloc,
            bench,
            seeds.first + number,
            &mut tally,
            &mut line,
            out,
        )?;
    }
    line.clear();
    push_count(seeds.count, tally.clean, &mut line)?;
    write(line.as_slice(), out)?;
    Ok(tally.status)
}

// Runs the bench for a seed, adds the run to `tally`, and writes its line, for which `line` is used. Errors: `Output`; `Memory`.
fn run_next<W: io::Write>(
    alloc: Global,
    bench: &Bench,
    seed: u64,
    tally: &mut Tally,
    line: &mut Vec<u8>,
    out: &mut W,
) -> Result<(), Breakage>
    requires { tally.old.clean + 1 < 2 ^ 64 }
    ensures ok { OnOk result (IsNext bench.now seed tally.old tally.new (W.contents out.old) (W.contents out.new)) }
    ensures err { IfErr result IsWriteFault }
{
    run_seed(alloc, bench, seed, tally, line)?;
    write(line.as_slice(), out)
}

// Runs the bench for a seed, adds the run to `tally`, and replaces `line` by its line. Errors: out of memory.
fn run_seed(
    alloc: Global,
    bench: &Bench,
    seed: u64,
    tally: &mut Tally,
    line: &mut Vec<u8>,
) -> Result<(), AllocError>
    requires { tally.old.clean + 1 < 2 ^ 64 }
    ensures { OnOk result (RanFor bench.now seed tally.old tally.new line.new.items) }
{
    let mut kept = Kept::new(alloc);
    let verdict = bench.run(alloc, seed, false, &mut kept);
    line.clear();
    push_seed(seed, &verdict, kept.text.as_slice(), line)?;
    tally.add(&verdict);
    Ok(())
}

// Writes a text. Errors: `Output`.
fn write<W: io::Write>(text: &[u8], out: &mut W) -> Result<(), Breakage>
    ensures ok { OnOk result (Appends (W.contents out.old) (W.contents out.new) text.now) }
    ensures err { IfErr result IsWriteFault }
{
    match out.write_all(text) {
        Ok(()) => Ok(()),
        Err(_) => Err(Breakage::Output),
    }
}
