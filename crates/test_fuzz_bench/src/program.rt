//! The program, on any runtime and with any writers.

use crate::commands::command;
use clap::error::ErrorKind;
use clap::{ArgMatches, Error};
use std::io::Write;
use std::rt::{Env, Files};
use std::{env, io};
use test_fuzz::files::{Checked, End, check_file, run_counted, tell};
use test_fuzz::random::check_benches;

/// The exit status if the arguments are rejected.
const REFUSED: u8 = 2;

/// The exit status if the output cannot be written.
const BROKEN: u8 = 3;

/// Performs the command that the arguments request, and returns the exit status. If memory runs out before the command is known, reports
/// with `tell` that no object was created.
pub(crate) fn run<R: Env + Files + AllocGlobal, O: Write, E: Write>(
    rt: &R,
    out: &mut O,
    err: &mut E,
) -> u8 {
    let words = match env::args(rt) {
        Ok(words) => words,
        Err(error) if error.kind() == io::ErrorKind::OutOfMemory => {
            return tell(0, 0, End::Memory, err);
        }
        Err(_) => {
            let _ = writeln!(err, "test_fuzz_bench: the command line is not UTF-8");
            return REFUSED;
        }
    };
    match words.collect::<Vec<String>>(rt.alloc()) {
        Ok(words) => serve(rt, words.as_slice(), out, err),
        Err(_) => tell(0, 0, End::Memory, err),
    }
}

fn serve<R: Files + AllocGlobal, O: Write, E: Write>(
    rt: &R,
    words: &[String],
    out: &mut O,
    err: &mut E,
) -> u8 {
    let Ok(command) = command(rt.alloc()) else {
        return tell(0, 0, End::Memory, err);
    };
    match command.try_get_matches_from(words) {
        Ok(matches) => obey(rt, &matches, out, err),
        Err(error) => refuse(&error, out, err),
    }
}

// Writes the requested help or version, or why the arguments are rejected. Returns the exit status.
fn refuse<O: Write, E: Write>(error: &Error, out: &mut O, err: &mut E) -> u8 {
    match error.kind() {
        ErrorKind::DisplayHelp | ErrorKind::DisplayVersion => match write!(out, "{error}") {
            Ok(()) => 0,
            Err(_) => BROKEN,
        },
        ErrorKind::OutOfMemory => tell(0, 0, End::Memory, err),
        _ => {
            let _ = write!(err, "{error}");
            REFUSED
        }
    }
}

fn obey<R: Files + AllocGlobal, O: Write, E: Write>(
    rt: &R,
    matches: &ArgMatches<'_>,
    out: &mut O,
    err: &mut E,
) -> u8 {
    match matches.subcommand() {
        Some(("random", random)) => {
            let (first, count) = (random.get_one("first"), random.get_one("count"));
            let shows = random.get_flag("trace");
            check_benches(
                rt.alloc(),
                first.unwrap_or(0),
                count.unwrap_or(0),
                shows,
                out,
            )
        }
        Some(("counted", counted)) => match counted.get_str("file") {
            Some(file) => run_counted(rt, file, out, err),
            None => REFUSED,
        },
        Some(("checked", checked)) => match checked.get_str("file") {
            Some(file) => tell_checks(check_file(rt, file), out, err),
            None => REFUSED,
        },
        _ => REFUSED,
    }
}

// Writes the result of the checks of a file, and returns the exit status: 0 if no check failed, 1 if one did, otherwise 3. It is 3 if the
// file is not a bench, memory ran out, or the output could not be written.
fn tell_checks<O: Write, E: Write>(checks: Result<Checked, End>, out: &mut O, err: &mut E) -> u8 {
    match checks {
        Ok(Checked { calls, turned_away }) => match writeln!(
            out,
            "calls: {calls}, each not answered once; objects: {turned_away}, each behind one of another type"
        ) {
            Ok(()) => 0,
            Err(_) => BROKEN,
        },
        Err(End::Violation(violation)) => {
            let _ = writeln!(err, "{violation}");
            1
        }
        Err(end) => tell(0, 0, end, err),
    }
}
