//! The commands of the program, on any runtime and with any writers.

use crate::checks::check_files;
use crate::commands::{Options, command, options_of, seeds_in, wave_options};
use crate::files::{BROKEN, REFUSED, bytes_of, report_unread};
use crate::judgements::{judge_any_file, judge_file, wave_file};
use crate::records::write_records;
use bench_script::ScriptFault;
use clap::error::ErrorKind;
use clap::{ArgMatches, Error};
use script_explain::explain;
use script_input::Breakage;
use script_jobs::{EndedRun, Verdict, run_to_core};
use script_seeds::{Seeds, run_seeds};
use serve_jobs::{Pipe, serve_bench, serve_nothing};
use std::alloc::Global;
use std::io::{BufRead, Write};
use std::rt::{Env, Files};
use std::{env, io};
use uvm_glob::{Name, PathFault};

/// Executes the command line and returns the exit status: the greatest of the files' statuses (0 clean, 1 faulty, 2 rejected, 3 broken). For
/// help and the version it returns 0, or 3 if the text could not be written. It returns 2 if the command line is rejected, and 3 if memory
/// runs out or the output fails.
pub fn run<R: Env + Files + AllocGlobal, I: BufRead + Drop, O: Write + Drop, E: Write>(
    rt: &R,
    input: I,
    out: O,
    err: &mut E,
) -> u8 {
    match words(rt) {
        Ok(words) => parse(rt, words.as_slice(), input, out, err),
        Err(error) if error.kind() == io::ErrorKind::OutOfMemory => broken(Breakage::Memory, err),
        Err(_) => {
            let _ = writeln!(err, "script_bench: the command line is not UTF-8");
            REFUSED
        }
    }
}

fn words<R: Env + AllocGlobal>(rt: &R) -> io::Result<Vec<String>> {
    Ok(env::args(rt)?.collect(rt.alloc())?)
}

fn parse<R: Files + AllocGlobal, I: BufRead + Drop, O: Write + Drop, E: Write>(
    rt: &R,
    words: &[String],
    input: I,
    mut out: O,
    err: &mut E,
) -> u8 {
    let Ok(command) = command(rt.alloc()) else {
        return broken(Breakage::Memory, err);
    };
    match command.try_get_matches_from(words) {
        Ok(matches) => obey(rt, &matches, input, out, err),
        Err(error) => refuse(&error, &mut out, err),
    }
}

// Writes the help or the version to `out`, or the error in the command line to `err`. Returns the exit status.
fn refuse<O: Write, E: Write>(error: &Error, out: &mut O, err: &mut E) -> u8 {
    match error.kind() {
        ErrorKind::DisplayHelp | ErrorKind::DisplayVersion => {
            if write!(out, "{error}").is_ok() && out.flush().is_ok() {
                0
            } else {
                broken(Breakage::Output, err)
            }
        }
        ErrorKind::OutOfMemory => broken(Breakage::Memory, err),
        _ => {
            let _ = write!(err, "{error}");
            REFUSED
        }
    }
}

/// Writes an error that concerns no file to `err`, and returns the exit status, which is 3.
pub fn broken<E: Write>(breakage: Breakage, err: &mut E) -> u8 {
    let message = breakage.message();
    let _ = writeln!(err, "script_bench: {message}");
    BROKEN
}

fn obey<R: Files + AllocGlobal, I: BufRead + Drop, O: Write + Drop, E: Write>(
    rt: &R,
    matches: &ArgMatches<'_>,
    input: I,
    mut out: O,
    err: &mut E,
) -> u8 {
    let Some((word, given)) = matches.subcommand() else {
        return REFUSED;
    };
    if word == "check" {
        return check_matched(rt, given, &mut out, err);
    }
    let Ok(test) = test_of(given) else {
        let fault = ScriptFault::BadName.label();
        let _ = writeln!(err, "script_bench: --test: not a name ({fault})");
        return REFUSED;
    };
    let Some(files) = given.get_strs("file") else {
        return REFUSED;
    };
    if let ("legal", [file]) = (word, files) {
        return judge_matched(rt, file, (given, test.as_ref()), (input, &mut out), err);
    }
    let options = match word {
        "wave" => wave_options(given),
        _ => options_of(given, word == "run"),
    };
    if let Some(why) = options_fault(&options, files.len()) {
        let _ = writeln!(err, "script_bench: {why}");
        return REFUSED;
    }
    match (word, files) {
        ("wave", [file]) => {
            wave_file(rt, (*file, &options), test.as_ref(), (input, &mut out), err)
        }
        ("serve", [file]) => serve_file(rt, file, &options, test.as_ref(), (input, out), err),
        _ => match seeds_of(given) {
            Ok(seeds) => run_files(rt, files, (&options, seeds), test.as_ref(), &mut out, err),
            Err(text) => {
                let _ = writeln!(
                    err,
                    "script_bench: --seeds: {text:?} is no range A-B of seeds"
                );
                REFUSED
            }
        },
    }
}

// Judges the transcript that the input holds, by the file or with `--any`. Returns the exit status.
fn judge_matched<R: Files + AllocGlobal, I: BufRead + Drop, O: Write, E: Write>(
    rt: &R,
    file: &str,
    (given, test): (&ArgMatches<'_>, Option<&Name>),
    pipes: (I, &mut O),
    err: &mut E,
) -> u8 {
    if given.get_flag("any") {
        judge_any_file(rt, file, test, pipes, err)
    } else {
        judge_file(rt, file, test, pipes, err)
    }
}

// Returns why the options do not go with so many files; `None` if they do.
fn options_fault(options: &Options<'_>, files: usize) -> Option<&'static str> {
    match options {
        Options { steps: 0, .. } => Some("--steps: at least 1"),
        Options { json: Some(_), .. } if files > 1 => Some("--json: only for one file"),
        Options { wave: Some(_), .. } if files > 1 => Some("--wave: only for one file"),
        _ => None,
    }
}

// Returns the seeds of `run --seeds`, or `None` if the option is omitted. Errors: the text, which is no range of seeds.
fn seeds_of<'a>(run: &'a ArgMatches<'_>) -> Result<Option<Seeds>, &'a str> {
    match run.get_str("seeds") {
        Some(text) => match seeds_in(text) {
            Some(seeds) => Ok(Some(seeds)),
            None => Err(text),
        },
        None => Ok(None),
    }
}

// Checks the files that the command line names. Returns the exit status.
fn check_matched<R: Files + AllocGlobal, O: Write, E: Write>(
    rt: &R,
    given: &ArgMatches<'_>,
    out: &mut O,
    err: &mut E,
) -> u8 {
    match given.get_strs("file") {
        Some(files) => check_files(rt, files, given.get_flag("serve"), out, err),
        None => REFUSED,
    }
}

// Runs a file over the objects of the client that writes the input and reads the output. Returns the exit status.
fn serve_file<R: Files + AllocGlobal, I: BufRead + Drop, O: Write + Drop, E: Write>(
    rt: &R,
    file: &str,
    options: &Options<'_>,
    test: Option<&Name>,
    (input, out): (I, O),
    err: &mut E,
) -> u8 {
    let Ok(mut client) = Pipe::new(rt.alloc(), input, out) else {
        return broken(Breakage::Memory, err);
    };
    let (seed, trace) = (options.seed, options.trace);
    let bytes = match bytes_of(rt, file) {
        Ok(bytes) => bytes,
        Err(why) => {
            let _ = serve_nothing(seed, &mut client);
            return report_unread(file, why, err);
        }
    };
    let verdict = serve_bench(rt.alloc(), bytes.as_slice(), seed, test, trace, &mut client);
    let _ = verdict.write_line(file, client.last_line(), err);
    verdict.status()
}

// Returns the test of `--test`, or `None` if the option is omitted. Errors: the test is not a name.
fn test_of(run: &ArgMatches<'_>) -> Result<Option<Name>, PathFault> {
    match run.get_str("test") {
        Some(text) => Ok(Some(Name::new(text.as_bytes())?)),
        None => Ok(None),
    }
}

// Runs one file without a header, or several files one after another. Returns the exit status.
fn run_files<R: Files + AllocGlobal, O: Write, E: Write>(
    rt: &R,
    files: &[&str],
    options: (&Options<'_>, Option<Seeds>),
    test: Option<&Name>,
    out: &mut O,
    err: &mut E,
) -> u8 {
    match files {
        [file] => run_file(rt, file, options, test, out, err),
        _ => run_several(rt, files, options, test, out, err),
    }
}

// Runs several files one after another. Returns the greatest exit status, or 3 if the output fails.
fn run_several<R: Files + AllocGlobal, O: Write, E: Write>(
    rt: &R,
    files: &[&str],
    options: (&Options<'_>, Option<Seeds>),
    test: Option<&Name>,
    out: &mut O,
    err: &mut E,
) -> u8 {
    let mut greatest = 0;
    for file in files {
        let Ok(status) = run_named(rt, file, options, test, out, err) else {
            return broken(Breakage::Output, err);
        };
        greatest = greatest.max(status);
    }
    if out.flush().is_err() {
        return broken(Breakage::Output, err);
    }
    greatest
}

// Runs a file. Writes a line with its name before the output of its run, and a line with its exit status after it. Returns the status.
// Errors: the writer's.
fn run_named<R: Files + AllocGlobal, O: Write, E: Write>(
    rt: &R,
    file: &str,
    options: (&Options<'_>, Option<Seeds>),
    test: Option<&Name>,
    out: &mut O,
    err: &mut E,
) -> io::Result<u8> {
    writeln!(out, "== {file}")?;
    let status = run_file(rt, file, options, test, out, err);
    writeln!(out, "status {status}")?;
    Ok(status)
}

fn run_file<R: Files + AllocGlobal, O: Write, E: Write>(
    rt: &R,
    file: &str,
    (options, seeds): (&Options<'_>, Option<Seeds>),
    test: Option<&Name>,
    out: &mut O,
    err: &mut E,
) -> u8 {
    let bytes = match bytes_of(rt, file) {
        Ok(bytes) => bytes,
        Err(why) => return report_unread(file, why, err),
    };
    match seeds {
        Some(seeds) => run_for(rt.alloc(), (file, bytes.as_slice()), seeds, test, out, err),
        None => run_once(rt, (file, bytes.as_slice()), options, test, out, err),
    }
}

// Runs the document of a file for some seeds. Returns the greatest exit status.
fn run_for<O: Write, E: Write>(
    alloc: Global,
    (file, bytes): (&str, &[u8]),
    seeds: Seeds,
    test: Option<&Name>,
    out: &mut O,
    err: &mut E,
) -> u8 {
    let ended = run_seeds(alloc, bytes, seeds, test, out);
    if out.flush().is_err() {
        return broken(Breakage::Output, err);
    }
    match ended {
        Ok(status) => status,
        Err(verdict) => {
            let _ = verdict.write_line(file, err);
            verdict.status()
        }
    }
}

// Runs the document of a file once. Returns the exit status.
fn run_once<R: Files + AllocGlobal, O: Write, E: Write>(
    rt: &R,
    (file, bytes): (&str, &[u8]),
    options: &Options<'_>,
    test: Option<&Name>,
    out: &mut O,
    err: &mut E,
) -> u8 {
    let (seed, trace) = (options.seed, options.trace);
    let (verdict, run) = run_to_core(rt.alloc(), bytes, seed, test, trace, out);
    if out.flush().is_err() {
        return broken(Breakage::Output, err);
    }
    let _ = verdict.write_line(file, err);
    let Some(run) = &run else {
        return verdict.status();
    };
    if options.explain && is_explained(&verdict) {
        explain_run(rt.alloc(), file, run, err);
    }
    verdict.status().max(write_records(rt, options, run, err))
}

// Returns whether a run is explained: not if memory ran out or the output failed.
fn is_explained(verdict: &Verdict) -> bool {
    !matches!(
        verdict,
        Verdict::Broken(Breakage::Memory | Breakage::Output)
    )
}

// Writes why a run ended as it did to `err`. If memory runs out, writes the whole lines that there are, and a line that says so.
fn explain_run<E: Write>(alloc: Global, file: &str, run: &EndedRun, err: &mut E) {
    let mut text = String::new(alloc);
    let explained = explain(alloc, &run.core, &run.answers, &mut text);
    if let Some((lines, _)) = text.as_str().rsplit_once('\n') {
        let _ = writeln!(err, "{file}: {lines}");
    }
    if explained.is_err() {
        let _ = writeln!(
            err,
            "script_bench: {file}: the explanation ends here: memory"
        );
    }
}
