//! The command `run`.

ghost use Rattle.std.specs.Prelude.{◌≡◌, ◌≢◌, IfErr, IfOk, IsSome, MatchResult, Ok, Err, if◌then◌else◌, option_copied};
ghost use Rattle.bench_script.specs.Documents.{IsReadable};
ghost use Rattle.bench_run.specs.RunResults.{is_clean};
ghost use Rattle.bench_run.specs.Texts.{TookSome, TookTexts};
ghost use Rattle.bus_jobs.specs.Runs.{GivesNamed, IsBenchRun, IsBusRun, script_to_run};
ghost use Rattle.script_input.specs.Scripts.{words_of_seed};

use crate::verdicts::Verdict;
use bench_run::{RunFault, RunResult, Sink, run_script};
use bench_script::{Script, ScriptFault};
use bus_objects::BusObject;
use rand_core::{Rng, SeedableRng};
use rand_pcg::Pcg64;
use script_input::{Breakage, choose_test};
use std::alloc::{AllocError, Global};
use uvm_glob::Name;

/// Runs the script in `bytes`, with the random numbers of `Pcg64` from the seed. If `test` is given, it replaces the script's own test. After
/// each entry of the log, its line is written if `trace` is on, and the line of its report if that is displayed. After the last entry, the
/// summary of the reports is written. An object of a type that the bench does not have is declined. Each object is dropped, at the latest at
/// the end.
///
/// Returns `Clean` if the run finished and no ERROR or FATAL was counted, and `Faulty` if it ended otherwise. Returns `Refused`, with nothing
/// written, if the bytes are not a script, or the script has no such test. The reason is `Missing` if it has no test at all. Returns `Broken`
/// if the log is full, the sink refuses a text, or memory runs out. Bytes that are not UTF-8, or are too many, never run out of memory.
pub fn run_bench<S: Sink>(
    alloc: Global,
    bytes: &[u8],
    seed: u64,
    test: Option<&Name>,
    trace: bool,
    out: &mut S,
) -> Verdict
    ensures run { IsBenchRun (script_to_run bytes.now (option_copied test.entry)) (words_of_seed seed) trace (S.contents out.old) (S.contents out.new) result }
    ensures memory { result ≡ Verdict.Broken Breakage.Memory → IsReadable bytes.now }
    ensures room { result ≡ Verdict.Broken Breakage.Memory → IfOk (script_to_run bytes.now (option_copied test.entry)) (λ script. TookSome script (S.taken out.old) (S.taken out.new)) }
    ensures output { result ≡ Verdict.Broken Breakage.Output → S.refuses out.old }
{
    match script_to_run(alloc, bytes, test) {
        Ok(script) => {
            let mut words = Pcg64::seed_from_u64(seed);
            match run_objects(alloc, script, &mut words, trace, out) {
                Ok(run_result) => verdict_on(&run_result),
                Err(fault) => Verdict::Broken(Breakage::of(fault)),
            }
        }
        Err(ScriptFault::Memory) => Verdict::Broken(Breakage::Memory),
        Err(fault) => Verdict::Refused(fault),
    }
}

// Returns the verdict on a run that has ended.
fn verdict_on(run_result: &RunResult) -> Verdict
    ensures { result ≡ (if is_clean run_result.now then Verdict.Clean else Verdict.Faulty) }
{
    if run_result.is_clean() {
        Verdict::Clean
    } else {
        Verdict::Faulty
    }
}

// Returns the script to run. If `test` is given, it replaces the script's own test. Errors: the first error of the script; `UnknownType` or
// `WrongKind` if the given test is not a declared component type; `Missing` if there is no test; `Memory` (out of memory).
fn script_to_run(alloc: Global, bytes: &[u8], test: Option<&Name>) -> Result<Script, ScriptFault>
    ensures ok { IfOk result (λ script. script_to_run bytes.now (option_copied test.entry) ≡ Ok script) }
    ensures tested { IfOk result (λ script. IsSome script.test) }
    ensures err { IfErr result (λ fault. fault ≢ ScriptFault.Memory → script_to_run bytes.now (option_copied test.entry) ≡ Err fault) }
    ensures readable { MatchResult result (λ _. IsReadable bytes.now) (λ fault. fault ≡ ScriptFault.Memory → IsReadable bytes.now) }
{
    choose_test(bench_script::read(alloc, bytes)?, test)
}

// Runs a script with the objects of the bench.
fn run_objects<R: Rng, S: Sink>(
    alloc: Global,
    script: Script,
    words: &mut R,
    trace: bool,
    out: &mut S,
) -> Result<RunResult, RunFault>
    requires { IsSome script.test }
    ensures run { IsBusRun (R.stream words.old) script trace (S.contents out.old) (S.contents out.new) result }
    ensures texts { TookTexts script (S.taken out.old) (S.taken out.new) result }
    ensures output { result ≡ Err RunFault.Output → S.refuses out.old }
    ensures tested { IfErr result (λ fault. fault ≢ RunFault.NoTest) }
{
    run_script(
        alloc,
        script,
        words,
        trace,
        |type_name: &Name| -> Result<Option<BusObject>, AllocError>
            ensures { IfOk result (GivesNamed type_name.now) }
        { Ok(BusObject::of_type(type_name)) },
        out,
    )
}
