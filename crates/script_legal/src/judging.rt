//! The judgement on a transcript.

ghost use Rattle.std.specs.Prelude.{◌≡◌, ◌≢◌, IfOk, IsTrue, option_copied};
ghost use Rattle.bench_replay.specs.KnownNumbers.{known_numbers};
ghost use Rattle.script_legal.specs.Judgements.{HasJudged, IsWhole, TellsRun};

use crate::lines::first_other;
use crate::words::shown_words;
use bench_replay::KnownWords;
use script_input::Breakage;
use script_jobs::{Bench, Verdict, laws};
use script_seeds::Kept;
use std::alloc::Global;
use uvm_glob::Name;

/// The judgement on a transcript.
#[derive(Drop)]
pub enum Judgement {
    /// A run of the document writes the whole text.
    Legal,
    /// The first line that the run does not write: its number, from 1, and the line that the run writes there, empty if it has ended.
    Other(u64, Vec<u8>),
}

/// Judges whether a text is the transcript of a run of the document with a trace, whatever its random numbers. The run that it compares with
/// the text takes the random numbers that the text shows. If `test` is given, it replaces the script's own test. Errors: the verdict of
/// `run_bench` if the document is rejected; out of memory.
pub fn judge(
    alloc: Global,
    bytes: &[u8],
    test: Option<&Name>,
    text: &[u8],
) -> Result<Judgement, Verdict>
    ensures { IfOk result (HasJudged bytes.now (option_copied test.entry) text.now) }
{
    laws::bench_runs_are_runs();
    laws::runs_are_determined();
    let bench = match Bench::read(alloc, bytes, test) {
        Ok(bench) => bench,
        Err(verdict) => return Err(verdict),
    };
    let Ok(words) = shown_words(alloc, text) else {
        return Err(Verdict::Broken(Breakage::Memory));
    };
    judged(alloc, &bench, words.as_slice(), text)
}

// Judges a text by the run of a bench over some random numbers. Errors: out of memory.
fn judged(alloc: Global, bench: &Bench, words: &[u64], text: &[u8]) -> Result<Judgement, Verdict>
    ensures { IfOk result (TellsRun bench.now (known_numbers words.now) text.now) }
{
    let mut known = KnownWords::new(words);
    let mut kept = Kept::new(alloc);
    let verdict = bench.run_over(alloc, &mut known, true, &mut kept);
    let is_whole = is_whole(&verdict);
    if !is_whole {
        return Err(Verdict::Broken(Breakage::Memory));
    }
    if kept.text.as_slice() == text {
        return Ok(Judgement::Legal);
    }
    other(alloc, text, kept.text.as_slice())
}

// Returns whether a run went on until it ended or its log was full. Otherwise memory ran out.
fn is_whole(verdict: &Verdict) -> bool
    ensures { IsTrue result → IsWhole verdict.now }
{
    match verdict {
        Verdict::Clean | Verdict::Faulty => true,
        Verdict::Broken(Breakage::LogFull) => true,
        _ => false,
    }
}

// Returns the judgement on a text that differs from what the run writes. Errors: out of memory.
fn other(alloc: Global, text: &[u8], written: &[u8]) -> Result<Judgement, Verdict>
    requires { written.now ≢ text.now }
    ensures { IfOk result (λ judgement. judgement ≢ Judgement.Legal) }
{
    let (number, _, line) = first_other(text, written);
    match Vec::from_slice(alloc, line) {
        Ok(line) => Ok(Judgement::Other(number, line)),
        Err(_) => Err(Verdict::Broken(Breakage::Memory)),
    }
}
