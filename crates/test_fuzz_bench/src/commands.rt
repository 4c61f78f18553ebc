//! The command line.

use clap::{Arg, ArgAction, Command, value_parser};
use std::alloc::{AllocError, Global};

const ABOUT: &str = "Runs benches that are made to break the kernel, and looks at it from outside";

const ABOUT_RANDOM: &str =
    "Runs random benches, each twice: each ends, gives back each object once, and runs the same again";

const ABOUT_COUNTED: &str = "Runs a file as script_bench does, over objects that are counted";

const ABOUT_CHECKED: &str =
    "Runs a file once for each call, which is not answered, and with objects of another type first";

/// Creates the command line: `random [--trace] FIRST COUNT`, `counted FILE` or `checked FILE`. Errors: out of memory.
pub(crate) fn command<'a>(alloc: Global) -> Result<Command<'a>, AllocError> {
    let top = with_random(alloc, top_command(alloc))?;
    let top = with_file(alloc, top, "counted", ABOUT_COUNTED)?;
    with_file(alloc, top, "checked", ABOUT_CHECKED)
}

// Creates the command `test_fuzz_bench` without its subcommands.
fn top_command<'a>(alloc: Global) -> Command<'a> {
    Command::new(alloc, "test_fuzz_bench")
        .about(ABOUT)
        .version("1.0.0")
        .subcommand_required(true)
}

// Adds the subcommand `random` after the others of a command. Errors: out of memory.
fn with_random<'a>(alloc: Global, top: Command<'a>) -> Result<Command<'a>, AllocError> {
    top.subcommand(random_command(alloc)?)
}

// Adds a subcommand that takes a file after the others of a command. Errors: out of memory.
fn with_file<'a>(
    alloc: Global,
    top: Command<'a>,
    name: &'a str,
    about: &'a str,
) -> Result<Command<'a>, AllocError> {
    top.subcommand(file_command(alloc, name, about)?)
}

fn random_command<'a>(alloc: Global) -> Result<Command<'a>, AllocError> {
    Command::new(alloc, "random")
        .about(ABOUT_RANDOM)
        .arg(trace_arg(alloc))?
        .arg(number_arg(alloc, "first", "FIRST", "The first seed"))?
        .arg(number_arg(alloc, "count", "COUNT", "How many seeds"))
}

fn trace_arg<'a>(alloc: Global) -> Arg<'a> {
    Arg::new(alloc, "trace")
        .long("trace")
        .help("Prints each script, and the transcript of its run")
        .action(ArgAction::SetTrue)
}

fn number_arg<'a>(alloc: Global, id: &'a str, value_name: &'a str, help: &'a str) -> Arg<'a> {
    Arg::new(alloc, id)
        .value_name(value_name)
        .help(help)
        .required(true)
        .value_parser(value_parser!(u64))
}

fn file_command<'a>(
    alloc: Global,
    name: &'a str,
    about: &'a str,
) -> Result<Command<'a>, AllocError> {
    let file = Arg::new(alloc, "file")
        .value_name("FILE")
        .help("A script with the answers of its objects, in TOML")
        .required(true);
    Command::new(alloc, name).about(about).arg(file)
}
