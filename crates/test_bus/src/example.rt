//! Tests of the examples in the help of the commands.

use crate::bus_runs::BUS;
use crate::commands::told;
use bus_jobs::{Verdict, debug_bench, run_bench};
use std::alloc::Global;

// Returns the script of the example of `debug`, and the lines that it prints.
fn debug_example(help: &str) -> Option<(&str, &str)> {
    let (_, example) = help.split_once("loud.toml:\n")?;
    example.split_once("$ bus_bench debug loud.toml\n")
}

// Returns the lines with which the output of the example of `run` begins.
fn run_example(help: &str) -> Option<&str> {
    let (_, example) = help.split_once("$ bus_bench run data/bus.toml\n")?;
    let (lines, _) = example.split_once("\nand then")?;
    Some(lines)
}

fn is_answered(alloc: Global, script: &str, answers: &str) -> bool {
    let mut out = Vec::new(alloc);
    debug_bench(alloc, script.as_bytes(), &mut out) == Verdict::Clean
        && out.as_slice() == answers.as_bytes()
}

fn bus_begins(alloc: Global, lines: &str) -> bool {
    let mut out = Vec::new(alloc);
    run_bench(alloc, BUS.as_bytes(), 1, None, false, &mut out) == Verdict::Clean
        && !lines.is_empty()
        && out.starts_with(lines.as_bytes())
}

fn debug_help_is_true(alloc: Global, help: &str) -> bool {
    match debug_example(help) {
        Some((script, answers)) => is_answered(alloc, script, answers),
        None => false,
    }
}

fn run_help_is_true(alloc: Global, help: &str) -> bool {
    match run_example(help) {
        Some(lines) => bus_begins(alloc, lines),
        None => false,
    }
}

fn help_is_true(alloc: Global, line: &str, is_run: bool) -> bool {
    match told(alloc, line) {
        Ok(help) if is_run => run_help_is_true(alloc, help.as_str()),
        Ok(help) => debug_help_is_true(alloc, help.as_str()),
        Err(_) => false,
    }
}

#[test]
fn examples_of_help_come_to_what_they_say(rt: HostRuntime) {
    assert!(rt; help_is_true(rt.alloc(), "bus_bench debug --help", false));
    assert!(rt; help_is_true(rt.alloc(), "bus_bench run --help", true));
}
