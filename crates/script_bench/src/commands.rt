//! The command line.

use clap::{Arg, ArgAction, ArgMatches, Command, value_parser};
use script_seeds::Seeds;
use std::alloc::{AllocError, Global};

const ABOUT: &str = "Runs UVM-style testbenches that are described in TOML files";

const ABOUT_RUN: &str = "Runs testbench files and prints what they report";

const ABOUT_SERVE: &str =
    "Runs a testbench file whose objects are in another program, over standard input and output";

const ABOUT_CHECK: &str =
    "Checks testbench files without running them, and says where a mistake is";

const AFTER_CHECK: &str =
    "The error for which run rejects a file is FILE:LINE:COLUMN: PLACE: REASON, with the line and what would be right. Of a file that run accepts,
warnings name what has no effect.

Exit status:
  0  no file is rejected
  2  a file or the command line was refused
  3  out of memory, output failed, or a file was not read

Example, in crates/script_bench:
  script_bench check data/mistakes/misspelled_type.toml";

const ABOUT_LEGAL: &str =
    "Judges a transcript, read from standard input: whether a run of a testbench file writes it";

const AFTER_LEGAL: &str =
    "The transcript is that of `run --trace` or `serve --trace`. The file runs with the random numbers that the transcript shows, and what it
writes is compared. With --any the objects may answer anything: their actions are read off the transcript.

Exit status:
  0  a run of the file writes the transcript
  1  no run does: the first line that differs is named, with what a run writes there
  2  the file or the command line was refused
  3  with --any: a line does not show what decides; out of memory, output failed, or the file or the transcript was not read

Example, in crates/script_bench:
  script_bench run --trace data/bus.toml | script_bench legal data/bus.toml";

const ABOUT_WAVE: &str =
    "Writes the waves of the run whose transcript is read from standard input, as run --wave does";

const AFTER_WAVE: &str =
    "The transcript is that of `run --trace` or `serve --trace`. The objects may have answered anything: their actions are read off it.

Exit status: that of legal --any; only a transcript with status 0 has waves.

Example, in crates/script_bench:
  script_bench run --trace data/bus.toml | script_bench wave --wave bus.vcd data/bus.toml";

const AFTER_SERVE: &str =
    "The objects of types without [answers] are in another program, the client. It reads the questions from standard output, and writes the
answers to standard input. Clients in Python and C++ are in clients/. A file of answers repeats a run.

Exit status: as that of run.

Example, in the top folder:
  script_bench serve crates/example_hello/data/hello.toml < clients/hello.answers

The protocol: docs/PROTOCOL.md. Which way to write a testbench: docs/BENCHES.md";

const AFTER_HELP: &str =
    "A FILE declares the types of a testbench, names its test, and says how each type answers its calls.

Exit status:
  0  clean
  1  an ERROR or a FATAL was counted, or the run did not finish
  2  a file or the command line was refused
  3  out of memory, log full, output failed, or a file was not read
With several files the greatest of their statuses.

Example, in crates/script_bench:
  script_bench run --trace data/one_item.toml

Tutorial: docs/GUIDE.md. All keys, calls and actions: docs/REFERENCE.md";

/// The options of `run` and of `serve`.
#[derive(Clone, Copy)]
pub struct Options<'a> {
    /// The choice to print every entry of the log.
    pub trace: bool,
    /// The choice to explain the run once it is over. `serve` has no such option.
    pub explain: bool,
    /// The seed of the random numbers.
    pub seed: u64,
    /// The file for the log as JSON, if one is asked for. `serve` has no such option.
    pub json: Option<&'a str>,
    /// The file for the waves, if one is asked for. `serve` has no such option.
    pub wave: Option<&'a str>,
    /// How many steps a tick of the waves has.
    pub steps: u64,
}

/// Creates the command line: `run [--trace] [--explain] [--json FILE] [--wave FILE [--steps N]] [--seed N | --seeds A-B] [--test NAME] FILE..`, `serve` with the options `--trace`,
/// `--seed` and `--test` and one FILE, `check [--serve] FILE..`, `legal [--any] [--test NAME] FILE`, and `wave --wave FILE [--steps N] [--test
/// NAME] FILE`. Errors: out of memory.
pub fn command<'a>(alloc: Global) -> Result<Command<'a>, AllocError> {
    let run = run_command(alloc)?;
    let serve = serve_command(alloc)?;
    let check = check_command(alloc)?;
    let legal = legal_command(alloc)?;
    let wave = wave_command(alloc)?;
    top_command(alloc)
        .subcommand(run)?
        .subcommand(serve)?
        .subcommand(check)?
        .subcommand(legal)?
        .subcommand(wave)
}

// Creates `script_bench` without its subcommands.
fn top_command<'a>(alloc: Global) -> Command<'a> {
    Command::new(alloc, "script_bench")
        .about(ABOUT)
        .after_help(AFTER_HELP)
        .version("1.0.0")
        .propagate_version(true)
        .subcommand_required(true)
}

// Creates `run [--trace] [--explain] [--json FILE] [--wave FILE [--steps N]] [--seed N | --seeds A-B] [--test NAME] FILE..`. Errors: out of memory.
fn run_command<'a>(alloc: Global) -> Result<Command<'a>, AllocError> {
    run_options(alloc)?.arg(test_arg(alloc))?.arg(files_arg(
        alloc,
        "A testbench file, in TOML. Of several, each is run by itself",
    ))
}

// Creates `serve [--trace] [--seed N] [--test NAME] FILE`. Errors: out of memory.
fn serve_command<'a>(alloc: Global) -> Result<Command<'a>, AllocError> {
    Command::new(alloc, "serve")
        .about(ABOUT_SERVE)
        .after_help(AFTER_SERVE)
        .arg(trace_arg(alloc))?
        .arg(seed_arg(alloc))?
        .arg(test_arg(alloc))?
        .arg(file_arg(alloc))
}

// Creates `legal [--any] [--test NAME] FILE`. Errors: out of memory.
fn legal_command<'a>(alloc: Global) -> Result<Command<'a>, AllocError> {
    let any = Arg::new(alloc, "any")
        .long("any")
        .help("Judges whether some legal run has the transcript, whatever the objects answer")
        .action(ArgAction::SetTrue);
    Command::new(alloc, "legal")
        .about(ABOUT_LEGAL)
        .after_help(AFTER_LEGAL)
        .arg(any)?
        .arg(test_arg(alloc))?
        .arg(file_arg(alloc))
}

// Creates `wave --wave FILE [--steps N] [--test NAME] FILE`. Errors: out of memory.
fn wave_command<'a>(alloc: Global) -> Result<Command<'a>, AllocError> {
    let wave = Arg::new(alloc, "wave")
        .long("wave")
        .value_name("VCD")
        .help(
            "The file for the waves; beside it stands a file .gtkw with what GTKWave shows of them",
        )
        .required(true);
    Command::new(alloc, "wave")
        .about(ABOUT_WAVE)
        .after_help(AFTER_WAVE)
        .arg(wave)?
        .arg(steps_arg(alloc))?
        .arg(test_arg(alloc))?
        .arg(file_arg(alloc))
}

// Creates `check [--serve] FILE..`. Errors: out of memory.
fn check_command<'a>(alloc: Global) -> Result<Command<'a>, AllocError> {
    let serve = Arg::new(alloc, "serve")
        .long("serve")
        .help("Checks files for serve: the types without answers are those of a client")
        .action(ArgAction::SetTrue);
    Command::new(alloc, "check")
        .about(ABOUT_CHECK)
        .after_help(AFTER_CHECK)
        .arg(serve)?
        .arg(files_arg(alloc, "A testbench file, in TOML"))
}

// Creates `run [--trace] [--explain] [--json FILE] [--wave FILE [--steps N]] [--seed N | --seeds A-B]`. Errors: out of memory.
fn run_options<'a>(alloc: Global) -> Result<Command<'a>, AllocError> {
    Command::new(alloc, "run")
        .about(ABOUT_RUN)
        .after_help(AFTER_HELP)
        .arg(trace_arg(alloc))?
        .arg(explain_arg(alloc))?
        .arg(json_arg(alloc))?
        .arg(wave_arg(alloc))?
        .arg(steps_arg(alloc))?
        .arg(seed_arg(alloc))?
        .arg(seeds_arg(alloc)?)
}

fn explain_arg<'a>(alloc: Global) -> Arg<'a> {
    Arg::new(alloc, "explain")
        .long("explain")
        .help(
            "Says on standard error why the run ended as it did, what waits and what had no effect",
        )
        .action(ArgAction::SetTrue)
}

fn json_arg<'a>(alloc: Global) -> Arg<'a> {
    Arg::new(alloc, "json").long("json").value_name("JSON").help(
        "Also writes the log to the file JSON, an object on a line for each entry",
    )
}

fn wave_arg<'a>(alloc: Global) -> Arg<'a> {
    Arg::new(alloc, "wave").long("wave").value_name("VCD").help(
        "Also writes waves to the file VCD, and beside it a file .gtkw with what GTKWave shows of them",
    )
}

fn steps_arg<'a>(alloc: Global) -> Arg<'a> {
    Arg::new(alloc, "steps")
        .long("steps")
        .value_name("N")
        .help(
            "The number of steps that a tick of the waves has: each entry at a time is one step later (1 if omitted)",
        )
        .value_parser(value_parser!(u64))
}

fn trace_arg<'a>(alloc: Global) -> Arg<'a> {
    Arg::new(alloc, "trace")
        .long("trace")
        .help("Prints every entry of the log: phases, calls, actions, grants, time")
        .action(ArgAction::SetTrue)
}

fn seed_arg<'a>(alloc: Global) -> Arg<'a> {
    Arg::new(alloc, "seed")
        .long("seed")
        .value_name("N")
        .help("The seed of the random numbers, 0 to 2^64-1 (1 if omitted)")
        .value_parser(value_parser!(u64))
}

fn seeds_arg<'a>(alloc: Global) -> Result<Arg<'a>, AllocError> {
    Arg::new(alloc, "seeds")
        .long("seeds")
        .value_name("A-B")
        .help(
            "Runs with each seed from A to B, and prints a line for each: clean, or its status with the first ERROR or FATAL",
        )
        .conflicts_with("trace")?
        .conflicts_with("explain")?
        .conflicts_with("json")?
        .conflicts_with("wave")?
        .conflicts_with("seed")
}

fn test_arg<'a>(alloc: Global) -> Arg<'a> {
    Arg::new(alloc, "test").long("test").value_name("NAME").help(
        "Runs this test instead of the file's own, like +UVM_TESTNAME",
    )
}

fn files_arg<'a>(alloc: Global, help: &'static str) -> Arg<'a> {
    Arg::new(alloc, "file")
        .value_name("FILE")
        .help(help)
        .required(true)
        .num_args(1..)
}

fn file_arg<'a>(alloc: Global) -> Arg<'a> {
    Arg::new(alloc, "file")
        .value_name("FILE")
        .help("A testbench file, in TOML")
        .required(true)
}

/// Returns the options of `wave`. The steps are 1 if they are omitted.
pub fn wave_options<'a>(given: &'a ArgMatches<'_>) -> Options<'a> {
    Options {
        trace: false,
        explain: false,
        seed: 1,
        json: None,
        wave: given.get_str("wave"),
        steps: given.get_one("steps").unwrap_or(1),
    }
}

/// Returns the options of `run` or `serve`. The seed and the steps are 1 if they are omitted. `is_run` says whether the command is `run`.
pub fn options_of<'a>(given: &'a ArgMatches<'_>, is_run: bool) -> Options<'a> {
    let mut options = Options {
        trace: given.get_flag("trace"),
        explain: false,
        seed: given.get_one("seed").unwrap_or(1),
        json: None,
        wave: None,
        steps: 1,
    };
    if is_run {
        options.explain = given.get_flag("explain");
        options.json = given.get_str("json");
        options.wave = given.get_str("wave");
        options.steps = given.get_one("steps").unwrap_or(1);
    }
    options
}

/// Returns the seeds of `A-B`, or of `A` alone; `None` if the text is no range of seeds.
pub fn seeds_in(text: &str) -> Option<Seeds> {
    let (first, last) = text.split_once('-').unwrap_or((text, text));
    let first: u64 = first.parse().ok()?;
    let last: u64 = last.parse().ok()?;
    let count = last.checked_sub(first)?.checked_add(1)?;
    Some(Seeds { first, count })
}
