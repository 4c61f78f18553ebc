//! The commands `legal` and `wave`, which read a transcript.

use crate::commands::Options;
use crate::files::{BROKEN, bytes_of, report_unread};
use crate::records::write_waves_of;
use bench_core::Core;
use script_input::Breakage;
use script_jobs::Verdict;
use script_legal::{AnyJudgement, Judgement, Unshown, judge, judge_any};
use std::io::{self, BufRead, Write};
use std::rt::Files;
use std::str::from_utf8;
use uvm_glob::Name;

// The exit status if no run has the transcript.
const OTHER: u8 = 1;

// The exit status if it cannot be told.
const UNKNOWN: u8 = 3;

/// Judges the transcript that the input holds, and writes the judgement. Returns the exit status: 0 if a run of the file writes it, 1 if none
/// does, 2 if the file is rejected, 3 if the file or the input was not read, memory runs out or the output fails.
pub fn judge_file<R: Files + AllocGlobal, I: BufRead + Drop, O: Write, E: Write>(
    rt: &R,
    file: &str,
    test: Option<&Name>,
    (input, out): (I, &mut O),
    err: &mut E,
) -> u8 {
    let (bytes, text) = match read_both(rt, file, input, err) {
        Ok(both) => both,
        Err(status) => return status,
    };
    match judge(rt.alloc(), bytes.as_slice(), test, text.as_slice()) {
        Ok(judgement) => write_judgement(file, &judgement, out, err),
        Err(verdict) => rejected(file, &verdict, err),
    }
}

/// Judges the transcript that the input holds as `judge_file` does, whatever the objects answer. The exit status is 3 also if it cannot be told.
pub fn judge_any_file<R: Files + AllocGlobal, I: BufRead + Drop, O: Write, E: Write>(
    rt: &R,
    file: &str,
    test: Option<&Name>,
    (input, out): (I, &mut O),
    err: &mut E,
) -> u8 {
    match judged_any(rt, file, test, input, err) {
        Ok((judgement, _)) => write_any(file, &judgement, out, err),
        Err(status) => status,
    }
}

/// Writes the waves of the run whose transcript the input holds. Returns the exit status: that of `judge_any_file`, or 3 if the waves
/// could not be written. A transcript of no legal run has no waves.
pub fn wave_file<R: Files + AllocGlobal, I: BufRead + Drop, O: Write, E: Write>(
    rt: &R,
    (file, options): (&str, &Options<'_>),
    test: Option<&Name>,
    (input, out): (I, &mut O),
    err: &mut E,
) -> u8 {
    match judged_any(rt, file, test, input, err) {
        Ok((AnyJudgement::Legal, core)) => write_waves_of(rt, options, &core, err),
        Ok((judgement, _)) => write_any(file, &judgement, out, err),
        Err(status) => status,
    }
}

// Judges the transcript that the input holds, whatever the objects answer. Also returns the core that has repeated it. Errors: the exit
// status, if there is no judgement; the reason was written to `err`.
fn judged_any<R: Files + AllocGlobal, I: BufRead + Drop, E: Write>(
    rt: &R,
    file: &str,
    test: Option<&Name>,
    input: I,
    err: &mut E,
) -> Result<(AnyJudgement, Core), u8> {
    let (bytes, text) = match read_both(rt, file, input, err) {
        Ok(both) => both,
        Err(status) => return Err(status),
    };
    match judge_any(rt.alloc(), bytes.as_slice(), test, text.as_slice()) {
        Ok(judged) => Ok(judged),
        Err(verdict) => Err(rejected(file, &verdict, err)),
    }
}

// Reads a file and the transcript that the input holds. Errors: the exit status, if one was not read; the reason was written to `err`.
fn read_both<R: Files + AllocGlobal, I: BufRead + Drop, E: Write>(
    rt: &R,
    file: &str,
    mut input: I,
    err: &mut E,
) -> Result<(Vec<u8>, Vec<u8>), u8> {
    let bytes = match bytes_of(rt, file) {
        Ok(bytes) => bytes,
        Err(why) => return Err(report_unread(file, why, err)),
    };
    let mut text = Vec::new(rt.alloc());
    if let Err(error) = input.read_to_end(&mut text) {
        let message = if error.kind() == io::ErrorKind::OutOfMemory {
            Breakage::Memory.message()
        } else {
            "cannot read the transcript"
        };
        let _ = writeln!(err, "script_bench: {message}");
        return Err(BROKEN);
    }
    Ok((bytes, text))
}

// Writes the error of a file that was rejected, or that memory ran out. Returns the exit status.
fn rejected<E: Write>(file: &str, verdict: &Verdict, err: &mut E) -> u8 {
    let _ = verdict.write_line(file, err);
    verdict.status()
}

// Writes a judgement. Returns the exit status.
fn write_judgement<O: Write, E: Write>(
    file: &str,
    judgement: &Judgement,
    out: &mut O,
    err: &mut E,
) -> u8 {
    match judgement {
        Judgement::Legal => write_legal(file, out, err),
        Judgement::Other(number, line) => {
            let wanted = wanted(line.as_slice());
            let written = writeln!(
                out,
                "{file}: line {number} differs: the run writes {wanted}"
            );
            flushed(written, OTHER, out, err)
        }
    }
}

// Writes a judgement on any run. Returns the exit status.
fn write_any<O: Write, E: Write>(
    file: &str,
    judgement: &AnyJudgement,
    out: &mut O,
    err: &mut E,
) -> u8 {
    match judgement {
        AnyJudgement::Legal => write_legal(file, out, err),
        AnyJudgement::Other(number, line) => {
            let wanted = wanted(line.as_slice());
            let written = writeln!(
                out,
                "{file}: line {number} is not legal: a run would write {wanted}"
            );
            flushed(written, OTHER, out, err)
        }
        AnyJudgement::Unknown(earlier, unshown, number) => {
            let what = what_of(*unshown);
            let written = writeln!(
                out,
                "{file}: line {number} cannot be judged: line {earlier} does not show {what}"
            );
            flushed(written, UNKNOWN, out, err)
        }
    }
}

// Writes that a transcript is legal. Returns the exit status.
fn write_legal<O: Write, E: Write>(file: &str, out: &mut O, err: &mut E) -> u8 {
    let written = writeln!(out, "{file}: legal");
    flushed(written, 0, out, err)
}

// Returns what a line does not show.
fn what_of(unshown: Unshown) -> &'static str {
    match unshown {
        Unshown::Verbosity => "whether the report was dropped",
        Unshown::Id => "whether the change of severity is for all ids, or for the id none",
        Unshown::Acts => "the actions of so long an answer",
    }
}

// Returns the line that a run writes, or the words for its end.
fn wanted(line: &[u8]) -> &str {
    match from_utf8(line) {
        Ok(line) if !line.is_empty() => line,
        _ => "the end",
    }
}

// Ends the output of a judgement. Returns its exit status, or 3 if the output fails.
fn flushed<O: Write, E: Write>(
    written: io::Result<()>,
    status: u8,
    out: &mut O,
    err: &mut E,
) -> u8 {
    if written.is_ok() && out.flush().is_ok() {
        return status;
    }
    let message = Breakage::Output.message();
    let _ = writeln!(err, "script_bench: {message}");
    BROKEN
}
