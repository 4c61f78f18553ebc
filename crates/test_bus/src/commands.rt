//! Tests of command lines: the jobs that they request, and the texts that they result in.

use bus_jobs::{Job, JobFault, job};
use std::alloc::{AllocError, Global};
use std::fmt::Display;

/// Returns the result of a command line as text: the job with its file and options, the help or version, or why it is rejected. Errors: out
/// of memory.
pub(crate) fn told(alloc: Global, line: &str) -> Result<String, AllocError> {
    let words: Vec<&str> = line.split(' ').collect(alloc)?;
    match job(alloc, words.as_slice()) {
        Ok(job) => told_job(alloc, &job),
        Err(JobFault::Help(text) | JobFault::Version(text)) => Ok(text),
        Err(JobFault::Refused(_)) => String::from_str(alloc, "refused"),
        Err(JobFault::BadName) => String::from_str(alloc, "bad name"),
        Err(JobFault::Memory) => Err(AllocError),
    }
}

fn told_job(alloc: Global, job: &Job<'_>) -> Result<String, AllocError> {
    let mut text = String::new(alloc);
    push_job(job, &mut text)?;
    Ok(text)
}

fn push_job(job: &Job<'_>, text: &mut String) -> Result<(), AllocError> {
    match job {
        Job::Debug { file } => push(text, "debug ", *file),
        Job::Run {
            trace,
            seed,
            test,
            file,
        } => {
            push(text, "run ", *file)?;
            push(text, " by ", *seed)?;
            push(text, ", trace ", *trace)?;
            match test {
                Some(test) => push(text, ", test ", *test),
                None => Ok(()),
            }
        }
    }
}

// Appends a text and a value. Errors: out of memory.
fn push<T: Display + Drop>(text: &mut String, words: &str, value: T) -> Result<(), AllocError> {
    text.push_str(words)?;
    write!(text, "{value}")
}

fn comes_to(alloc: Global, line: &str, want: &str) -> bool {
    match told(alloc, line) {
        Ok(text) => text.as_str() == want,
        Err(_) => false,
    }
}

#[test]
fn jobs_name_their_options_and_file(rt: HostRuntime) {
    for (line, want) in [
        ("bus_bench debug a.toml", "debug a.toml"),
        (
            "bus_bench run --trace --seed 18446744073709551615 --test=smoke a.toml",
            "run a.toml by 18446744073709551615, trace true, test smoke",
        ),
        ("bus_bench run a.toml", "run a.toml by 1, trace false"),
    ] {
        assert!(rt; comes_to(rt.alloc(), line, want), "at {line}");
    }
}

#[test]
fn other_words_are_refused(rt: HostRuntime) {
    for line in [
        "bus_bench",
        "bus_bench debug",
        "bus_bench debug a b",
        "bus_bench help x",
        "bus_bench run --seed x a --help",
        "bus_bench run --trace",
        "bus_bench run --seed x a",
        "bus_bench run --seed -1 a",
        "bus_bench run --seed 18446744073709551616 a",
    ] {
        assert!(rt; comes_to(rt.alloc(), line, "refused"), "at {line}");
    }
}

#[test]
fn a_test_needs_a_name(rt: HostRuntime) {
    for line in ["bus_bench run --test= a", "bus_bench run --test a.b a"] {
        assert!(rt; comes_to(rt.alloc(), line, "bad name"), "at {line}");
    }
}

#[test]
fn the_version_is_told_at_the_top_and_of_a_command(rt: HostRuntime) {
    for (line, version) in [
        ("bus_bench --version", "bus_bench 1.0.0\n"),
        ("bus_bench -V", "bus_bench 1.0.0\n"),
        ("bus_bench run --version", "bus_bench-run 1.0.0\n"),
        ("bus_bench debug -V", "bus_bench-debug 1.0.0\n"),
    ] {
        assert!(rt; comes_to(rt.alloc(), line, version), "at {line}");
    }
}

// Returns whether a command line results in a help text that has a purpose, the usage and another line.
fn helps(alloc: Global, line: &str, purpose: &str, other: &str) -> bool {
    match told(alloc, line) {
        Ok(text) => is_help(text.as_str(), purpose, other),
        Err(_) => false,
    }
}

fn is_help(text: &str, purpose: &str, other: &str) -> bool {
    text.contains(purpose) && text.contains("Usage: bus_bench") && text.contains(other)
}

#[test]
fn help_has_the_purpose_and_an_example_or_the_statuses(rt: HostRuntime) {
    let whole = ("Runs UVM-style testbenches", "Exit status:\n");
    let a_run = (
        "Runs the testbench of a script",
        "$ bus_bench run data/bus.toml\n",
    );
    let a_debug = (
        "Prints which type the factory of a testbench makes",
        "$ bus_bench debug loud.toml\n",
    );
    for (line, (purpose, other)) in [
        ("bus_bench --help", whole),
        ("bus_bench -h", whole),
        ("bus_bench help", whole),
        ("bus_bench run --help", a_run),
        ("bus_bench debug -h a", a_debug),
        ("bus_bench help run", a_run),
        ("bus_bench help debug", a_debug),
    ] {
        assert!(rt; helps(rt.alloc(), line, purpose, other), "at {line}");
    }
}
