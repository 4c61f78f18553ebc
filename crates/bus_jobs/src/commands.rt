//! Reads the command line of `bus_bench`.
ghost use Rattle.std.specs.Prelude.{◌≡◌, ◌⊎◌, ℕ, List, Some, Err, IfOk, IfErr, IsErrAnd, MatchResult, OnOk, OnErr, codes, map, option_map, [], ◌∷◌, false, true};
ghost use Rattle.clap.specs.Words.{app_of, fault_of, first_of, found_of, new_app, rows_of, rule_of, subcommand_rows_of, takes, with_rule, with_subcommand};
ghost use Rattle.clap.specs.Takes.{is_given};
ghost use Rattle.clap.specs.declared.builder.command.Command.TheViews.{out-Command};
ghost use Rattle.clap.specs.declared.error.kind.ErrorKind.TheVariants.{DisplayHelp, DisplayVersion};
ghost use Rattle.bus_jobs.specs.Commands.{bus_bench_app, debug_app, file_rule, run_app, seed_rule, test_rule, top_app, trace_rule};
ghost use Rattle.bus_jobs.specs.Commands.{asked_in, has_bad_name, is_bad_test, job_named, named_job, seed_in, words_of};
ghost use Rattle.bus_jobs.specs.Commands.{AsksFor, AsksForHelp, AsksForVersion, HasFile, IsDebugOf, IsRunOf, NamesJob, ReadsSeed, ReadsTrace};
ghost use Rattle.bus_jobs.specs.Faults.{IsJobFaultOf, IsHelp, IsVersion};

use crate::jobs::{Job, JobFault, fault_by};
use crate::texts::{
    ABOUT, ABOUT_DEBUG, ABOUT_RUN, EXAMPLE_DEBUG, EXAMPLE_RUN, LONG_ABOUT, STATUSES, VERSION,
};
use clap::{Arg, ArgAction, ArgMatches, Command, value_parser};
use std::alloc::{AllocError, Global};
use std::convert::AsStr;
use uvm_glob::Name;

/// Returns the job that the arguments of the command line ask for. The first argument is the name of the program.
///
/// Errors: `Help` or `Version` if the arguments ask for that; `Refused` if the program does not accept them; `BadName` if the value of
/// `--test` is not a name and the program accepts the arguments otherwise; `Memory` if out of memory, at any point.
pub fn job<'a, S: AsStr>(alloc: Global, words: &'a [S]) -> Result<Job<'a>, JobFault>
    // The job is the one that clap's specification reads from the arguments (`named_job`). They have no fault (`fault_of`).
    ensures named { IfOk result (λ job. named_job (map S.text words.now) ≡ Some (words_of job)) }
    ensures faultless { OnOk result (fault_of bus_bench_app (map S.text words.now) ≡ []) }

    // `Help`, `Version` and `Refused` have a kind that clap's specification gives the arguments (`fault_of`). Arguments that it accepts
    // (`takes`) result in none of the three. `Refused` has neither the kind of help nor that of the version.
    ensures refused { IfErr result (IsJobFaultOf (fault_of bus_bench_app (map S.text words.now))) }
    ensures taken { takes bus_bench_app (map S.text words.now) ≡ true
        → OnErr result ((result ≡ Err JobFault.BadName) ⊎ (result ≡ Err JobFault.Memory)) }

    // If the arguments have only the kind of help, or only that of the version, that is the result, unless memory runs out.
    ensures help { fault_of bus_bench_app (map S.text words.now) ≡ DisplayHelp ∷ []
        → IsErrAnd result IsHelp }
    ensures version { fault_of bus_bench_app (map S.text words.now) ≡ DisplayVersion ∷ []
        → IsErrAnd result IsVersion }

    // `--help` or `-h` directly after the name of the program, or after `debug` or `run`, asks for help, whatever follows. `--version` or
    // `-V` there asks for the version.
    ensures plain_help { AsksForHelp (map S.text words.now) → IsErrAnd result IsHelp }
    ensures plain_version { AsksForVersion (map S.text words.now) → IsErrAnd result IsVersion }

    // `BadName` is returned only if the value of `--test` is not a name. In that case no job is returned.
    ensures bad_name { result ≡ Err JobFault.BadName
        → has_bad_name (named_job (map S.text words.now)) ≡ true }
    ensures good_name { OnOk result (has_bad_name (named_job (map S.text words.now)) ≡ false) }

    // `PROGRAM debug FILE` and `PROGRAM run FILE` are accepted, unless FILE begins with `-`. The run then has no trace, the seed 1 and
    // the script's own test. The only error is `Memory`.
    ensures plain { (file : List ℕ) → AsksFor (codes "debug") (map S.text words.now) file
        → MatchResult result (IsDebugOf file) (λ fault. fault ≡ JobFault.Memory) }
    ensures plain_run { (file : List ℕ) → AsksFor (codes "run") (map S.text words.now) file
        → MatchResult result (IsRunOf file) (λ fault. fault ≡ JobFault.Memory) }
{
    match command(alloc)?.try_get_matches_from(words) {
        Ok(matches) => job_of(&matches),
        Err(error) => Err(fault_by(alloc, error)?),
    }
}

// Returns the job that the matches name. Errors: `BadName` if the value of `--test` is not a name.
fn job_of<'a>(matches: &ArgMatches<'a>) -> Result<Job<'a>, JobFault>
    requires { NamesJob (subcommand_rows_of matches.now) }
    ensures named { IfOk result (λ job. job_named (subcommand_rows_of matches.now) ≡ Some (words_of job)) }
    ensures good_name { OnOk result (has_bad_name (job_named (subcommand_rows_of matches.now)) ≡ false) }
    ensures bad_name { OnErr result ((result ≡ Err JobFault.BadName)
        × (has_bad_name (job_named (subcommand_rows_of matches.now)) ≡ true)) }
{
    match matches.subcommand() {
        Some(("debug", debug)) => Ok(Job::Debug {
            file: file_of(debug),
        }),
        Some(("run", run)) => run_job(run),
        _ => unreachable!(),
    }
}

// Returns the job that the matches of `run` name. Errors: `BadName` if the value of `--test` is not a name.
fn run_job<'a>(matches: &ArgMatches<'a>) -> Result<Job<'a>, JobFault>
    requires file { HasFile (rows_of (found_of matches.now)) }
    requires trace { ReadsTrace (rows_of (found_of matches.now)) }
    requires seed { ReadsSeed (rows_of (found_of matches.now)) }
    ensures named { IfOk result (λ job. asked_in (codes "run") (rows_of (found_of matches.now)) ≡ Some (words_of job)) }
    ensures good_name { OnOk result (has_bad_name (asked_in (codes "run") (rows_of (found_of matches.now))) ≡ false) }
    ensures bad_name { OnErr result ((result ≡ Err JobFault.BadName)
        × (has_bad_name (asked_in (codes "run") (rows_of (found_of matches.now))) ≡ true)) }
{
    let file = file_of(matches);
    let test = test_named(matches.get_str("test"))?;
    Ok(Job::Run {
        trace: is_traced(matches),
        seed: seed_of(matches),
        test,
        file,
    })
}

// Returns the value of FILE.
fn file_of<'a>(matches: &ArgMatches<'a>) -> &'a str
    requires { HasFile (rows_of (found_of matches.now)) }
    ensures { first_of (codes "file") (rows_of (found_of matches.now)) ≡ Some result.now }
{
    let Some(file) = matches.get_str("file") else {
        unreachable!()
    };
    file
}

// Returns whether `--trace` is given.
fn is_traced(matches: &ArgMatches<'_>) -> bool
    requires { ReadsTrace (rows_of (found_of matches.now)) }
    ensures { result ≡ is_given (codes "trace") (rows_of (found_of matches.now)) }
{
    matches.get_flag("trace")
}

// Returns the value of `--seed`, or 1 if it is omitted.
fn seed_of(matches: &ArgMatches<'_>) -> u64
    requires { ReadsSeed (rows_of (found_of matches.now)) }
    ensures { result ≡ seed_in (rows_of (found_of matches.now)) }
{
    matches.get_one("seed").unwrap_or(1)
}

// Returns the name of the test, or `None` if none is given. Errors: `BadName` if it is not a name.
fn test_named(text: Option<&str>) -> Result<Option<Name>, JobFault>
    ensures name { IfOk result (λ test. test ≡ option_map (λ t. t.now) text.entry) }
    ensures good { OnOk result (is_bad_test (option_map (λ t. t.now) text.entry) ≡ false) }
    ensures bad { OnErr result ((result ≡ Err JobFault.BadName)
        × (is_bad_test (option_map (λ t. t.now) text.entry) ≡ true)) }
{
    let Some(text) = text else {
        return Ok(None);
    };
    match Name::new(text.as_bytes()) {
        Ok(name) => Ok(Some(name)),
        Err(_) => Err(JobFault::BadName),
    }
}

// Creates the whole command line. Errors: out of memory.
fn command<'a>(alloc: Global) -> Result<Command<'a>, AllocError>
    ensures { IfOk result (λ c. app_of c ≡ bus_bench_app) }
{
    let debug = debug_command(alloc)?;
    with_run(alloc, top_command(alloc).subcommand(debug)?)
}

// Adds the subcommand `run` after the other subcommands of a command. Errors: out of memory.
fn with_run<'a>(alloc: Global, top: Command<'a>) -> Result<Command<'a>, AllocError>
    ensures { IfOk result (λ c. app_of c ≡ with_subcommand (app_of top.entry) run_app.top) }
{
    top.subcommand(run_command(alloc)?)
}

// Creates `bus_bench` without its subcommands.
fn top_command<'a>(alloc: Global) -> Command<'a>
    ensures { app_of result ≡ top_app }
{
    described(alloc, "bus_bench", ABOUT, STATUSES)
        .long_about(LONG_ABOUT)
        .version(VERSION)
        .propagate_version(true)
        .subcommand_required(true)
}

// Creates `debug FILE`. Errors: out of memory.
fn debug_command<'a>(alloc: Global) -> Result<Command<'a>, AllocError>
    ensures app { IfOk result (λ c. app_of c ≡ debug_app) }
    ensures local { IfOk result (λ c. (out-Command c).has_globals ≡ false) }
{
    described(alloc, "debug", ABOUT_DEBUG, EXAMPLE_DEBUG).arg(file_arg(alloc))
}

// Creates `run [--trace] [--seed N] [--test NAME] FILE`. Errors: out of memory.
fn run_command<'a>(alloc: Global) -> Result<Command<'a>, AllocError>
    ensures app { IfOk result (λ c. app_of c ≡ run_app) }
    ensures local { IfOk result (λ c. (out-Command c).has_globals ≡ false) }
{
    run_options(alloc)?
        .arg(test_arg(alloc))?
        .arg(file_arg(alloc))
}

// Creates `run [--trace] [--seed N]`. Errors: out of memory.
fn run_options<'a>(alloc: Global) -> Result<Command<'a>, AllocError>
    ensures app { IfOk result (λ c. app_of c ≡ with_rule (with_rule (new_app (codes "run")) trace_rule) seed_rule) }
    ensures local { IfOk result (λ c. (out-Command c).has_globals ≡ false) }
{
    described(alloc, "run", ABOUT_RUN, EXAMPLE_RUN)
        .arg(trace_arg(alloc))?
        .arg(seed_arg(alloc))
}

// Creates a command. Its help begins with `purpose` and ends with `end`.
fn described<'a>(alloc: Global, name: &'a str, purpose: &'a str, end: &'a str) -> Command<'a>
    ensures app { app_of result ≡ new_app name.entry.now }
    ensures local { (out-Command result).has_globals ≡ false }
    ensures purpose { (out-Command result).about ≡ Some purpose.entry }
    ensures end { (out-Command result).after_help ≡ Some end.entry }
{
    Command::new(alloc, name).about(purpose).after_help(end)
}

// Creates the argument `FILE`.
fn file_arg<'a>(alloc: Global) -> Arg<'a>
    ensures rule { rule_of result ≡ file_rule }
    ensures local { result.global ≡ false }
{
    Arg::new(alloc, "file")
        .value_name("FILE")
        .help("The script, a TOML document")
        .required(true)
}

// Creates the argument `--trace`.
fn trace_arg<'a>(alloc: Global) -> Arg<'a>
    ensures rule { rule_of result ≡ trace_rule }
    ensures local { result.global ≡ false }
{
    Arg::new(alloc, "trace")
        .long("trace")
        .help("Prints every entry of the log: phases, calls, actions, grants, time")
        .action(ArgAction::SetTrue)
}

// Creates the argument `--seed N`.
fn seed_arg<'a>(alloc: Global) -> Arg<'a>
    ensures rule { rule_of result ≡ seed_rule }
    ensures local { result.global ≡ false }
{
    Arg::new(alloc, "seed")
        .long("seed")
        .value_name("N")
        .help("The seed of the random numbers, 0 to 2^64-1 (1 if omitted)")
        .value_parser(value_parser!(u64))
}

// Creates the argument `--test NAME`.
fn test_arg<'a>(alloc: Global) -> Arg<'a>
    ensures rule { rule_of result ≡ test_rule }
    ensures local { result.global ≡ false }
{
    Arg::new(alloc, "test").long("test").value_name("NAME").help(
        "Runs this test instead of the script's own, like +UVM_TESTNAME",
    )
}
