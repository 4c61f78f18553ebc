//! The run of a document.

ghost use Rattle.std.specs.Prelude.{◌≡◌, ◌≢◌, IfErr, IfNone, IfOk, IfSome, IsSome, MatchResult, Ok, Err, option_copied, option_map};
ghost use Rattle.toml.specs.View.{table_view};
ghost use Rattle.script_values.specs.Reading.{IsReading};
ghost use Rattle.bench_run.specs.Running.{HasNoCore, HasRun};
ghost use Rattle.bench_run.specs.Texts.{TookTexts};
ghost use Rattle.bench_script.specs.Documents.{IsReadable, tree_of_bytes};
ghost use Rattle.script_input.specs.Scripts.{words_of_seed};
ghost use Rattle.script_jobs.specs.Runs.{GivesNamed, HasEnded, HasNoRun, IsBenchRun, IsReported, IsScriptRun, IsTreeRun, IsVerdictOn, RanOutEarly, lost_test, own_test, refused_by, script_to_run, undeclared};

use crate::answers::ANSWERS;
use crate::benches::Bench;
use crate::objects::BenchObject;
use crate::verdicts::{Refusal, Verdict};
use bench_run::{Core, RunFault, RunResult, Sink};
use bench_script::{Reason, Script, ScriptFault, read_document, read_table};
use rand_core::{Rng, SeedableRng};
use rand_pcg::Pcg64;
use script_input::{Breakage, choose_test};
use script_objects::Answers;
use script_tables::{TypeTable, read_types};
use script_values::keys::member;
use script_values::values::name;
use std::alloc::{AllocError, Global};
use toml::Table;
use uvm_glob::Name;

/// Runs the script in a document, with the random numbers of `Pcg64` from the seed. If `test` is given, it replaces the script's own test.
/// The objects give the answers in the document. A type without answers has the object of the bus bench. After each entry of the log,
/// its line is written if `trace` is on, and the line of its report if that is displayed. After the last entry, the summary is written.
///
/// Returns `Clean` if the run finished and no ERROR or FATAL was counted, and `Faulty` if it ended otherwise. Returns `Refused`, with nothing
/// written, in these cases, in this order: the bytes, without `answers`, are not a script; the script has no such test; its answers have an
/// error; a declared type has no object. Returns `Broken` if the log is full, the sink refuses a text, or memory runs out. Bytes that are not
/// UTF-8, or are too many, never run out of memory.
pub fn run_bench<S: Sink>(
    alloc: Global,
    bytes: &[u8],
    seed: u64,
    test: Option<&Name>,
    trace: bool,
    out: &mut S,
) -> Verdict
    ensures run { IsBenchRun bytes.now (option_copied test.entry) (words_of_seed seed) trace (S.contents out.old) (S.contents out.new) result }
    ensures memory { result ≡ Verdict.Broken Breakage.Memory → IsReadable bytes.now }
    ensures room { result ≡ Verdict.Broken Breakage.Memory → RanOutEarly (tree_of_bytes bytes.now) (option_copied test.entry) (S.taken out.old) (S.taken out.new) }
    ensures output { result ≡ Verdict.Broken Breakage.Output → S.refuses out.old }
{
    let (verdict, _run) = run_to_core(alloc, bytes, seed, test, trace, out);
    verdict
}

/// A run that has ended or was aborted: its core, with the log and the state at its end, and the answers of its objects.
#[derive(Drop)]
pub struct EndedRun {
    /// The core.
    pub core: Core,
    /// The answers of the document.
    pub answers: Answers,
}

/// Runs the script in a document as `run_bench` does, and returns the run with the verdict. There is none if the document is rejected,
/// and there may be none if memory runs out.
pub fn run_to_core<S: Sink>(
    alloc: Global,
    bytes: &[u8],
    seed: u64,
    test: Option<&Name>,
    trace: bool,
    out: &mut S,
) -> (Verdict, Option<EndedRun>)
    ensures run { IsBenchRun bytes.now (option_copied test.entry) (words_of_seed seed) trace (S.contents out.old) (S.contents out.new) result.0 }
    ensures memory { result.0 ≡ Verdict.Broken Breakage.Memory → IsReadable bytes.now }
    ensures room { result.0 ≡ Verdict.Broken Breakage.Memory → RanOutEarly (tree_of_bytes bytes.now) (option_copied test.entry) (S.taken out.old) (S.taken out.new) }
    ensures output { result.0 ≡ Verdict.Broken Breakage.Output → S.refuses out.old }
    ensures ended { IfSome result.1 (HasEnded (tree_of_bytes bytes.now) (option_copied test.entry) trace (S.contents out.old) (S.contents out.new) result.0) }
    ensures kept { IfNone result.1 (HasNoRun result.0) }
{
    match read_document(alloc, bytes) {
        Ok(root) => run_tree(alloc, &root, seed, test, trace, out),
        Err(fault) => (refused(fault), None),
    }
}

// Returns the verdict on a document that is not a script: rejected, or out of memory.
pub(crate) fn refused(fault: ScriptFault) -> Verdict
    ensures { result ≡ refused_by fault }
{
    match fault {
        ScriptFault::Memory => Verdict::Broken(Breakage::Memory),
        fault => Verdict::Refused(Refusal::Script(fault)),
    }
}

// Runs the script in the tree of a document, as `run_to_core` does.
fn run_tree<S: Sink>(
    alloc: Global,
    root: &Table,
    seed: u64,
    test: Option<&Name>,
    trace: bool,
    out: &mut S,
) -> (Verdict, Option<EndedRun>)
    ensures run { IsTreeRun (table_view root.now) (option_copied test.entry) (words_of_seed seed) trace (S.contents out.old) (S.contents out.new) result.0 }
    ensures room { result.0 ≡ Verdict.Broken Breakage.Memory → RanOutEarly (Ok (table_view root.now)) (option_copied test.entry) (S.taken out.old) (S.taken out.new) }
    ensures output { result.0 ≡ Verdict.Broken Breakage.Output → S.refuses out.old }
    ensures ended { IfSome result.1 (HasEnded (Ok (table_view root.now)) (option_copied test.entry) trace (S.contents out.old) (S.contents out.new) result.0) }
    ensures kept { IfNone result.1 (HasNoRun result.0) }
{
    let bench = match Bench::of_tree(alloc, root, test) {
        Ok(bench) => bench,
        Err(verdict) => return (verdict, None),
    };
    let (script, answers) = bench.into_parts();
    let mut words = Pcg64::seed_from_u64(seed);
    let (ended, core) = run_objects(alloc, script, &answers, &mut words, trace, out);
    (verdict_on(&ended), ended_run(core, answers))
}

// Returns the run with this core, if there is one.
fn ended_run(core: Option<Core>, answers: Answers) -> Option<EndedRun>
    ensures { result ≡ option_map (λ core. record { core = core; answers = answers }) core }
{
    Some(EndedRun {
        core: core?,
        answers,
    })
}

/// Returns the verdict on an error of a script: rejected, or out of memory. For `UnknownType` the verdict names the test, if no declared type
/// has its name.
pub fn reported(alloc: Global, root: &Table, test: Option<&Name>, fault: ScriptFault) -> Verdict
    ensures { IsReported fault (lost_test (table_view root.now) (option_copied test.entry)) result }
{
    match fault {
        ScriptFault::UnknownType => unknown_type(alloc, root, test),
        fault => refused(fault),
    }
}

// Returns the verdict on a script with an unknown type. The verdict names the test, if no declared type has its name.
fn unknown_type(alloc: Global, root: &Table, test: Option<&Name>) -> Verdict
    ensures { IsReported ScriptFault.UnknownType (lost_test (table_view root.now) (option_copied test.entry)) result }
{
    match lost_test(alloc, root, test) {
        Ok(Some(name)) => Verdict::Refused(Refusal::UnknownTest(name)),
        Ok(None) => Verdict::Refused(Refusal::Script(ScriptFault::UnknownType)),
        Err(ScriptFault::Memory) => Verdict::Broken(Breakage::Memory),
        Err(_) => Verdict::Refused(Refusal::Script(ScriptFault::UnknownType)),
    }
}

// Returns the name of a test that is not a declared type: the document's own, otherwise the requested one. Errors: the error of the types,
// then that of the document's test; out of memory.
fn lost_test(alloc: Global, root: &Table, test: Option<&Name>) -> Result<Option<Name>, ScriptFault>
    ensures { IsReading (lost_test (table_view root.now) (option_copied test.entry)) result }
{
    let types = read_types(alloc, root)?;
    let own = own_test(root)?;
    match undeclared(&types, own.as_ref()) {
        Some(name) => Ok(Some(name)),
        None => Ok(undeclared(&types, test)),
    }
}

// Returns the name of the test in a document, or `None` if it has none. Errors: that of the value at `test`, if it is not a name.
fn own_test(root: &Table) -> Result<Option<Name>, Reason>
    ensures { result ≡ own_test (table_view root.now) }
{
    match member(root, "test") {
        Some(value) => Ok(Some(name(value)?)),
        None => Ok(None),
    }
}

// Returns the name, if one is given and no type has it.
fn undeclared(types: &TypeTable, name: Option<&Name>) -> Option<Name>
    ensures { result ≡ undeclared types.now (option_copied name.entry) }
{
    match name {
        Some(name) if types.find(name).is_none() => Some(*name),
        _ => None,
    }
}

// Returns the verdict on a run. Requires that its script has a test.
pub(crate) fn verdict_on(ended: &Result<RunResult, RunFault>) -> Verdict
    requires { ended.now ≢ Err RunFault.NoTest }
    ensures { IsVerdictOn ended.now result }
{
    match ended {
        Ok(run_result) if run_result.is_clean() => Verdict::Clean,
        Ok(_) => Verdict::Faulty,
        Err(fault) => Verdict::Broken(Breakage::of(*fault)),
    }
}

/// Returns the script in the tree of a document, without the key `answers`. If `test` is given, it replaces the script's own test. Errors:
/// the first error of the script; `UnknownType` or `WrongKind` if the given test is not a declared component type; `Missing` if there is no
/// test; `Memory` (out of memory).
pub fn script_to_run(
    alloc: Global,
    root: &Table,
    test: Option<&Name>,
) -> Result<Script, ScriptFault>
    ensures ok { IfOk result (λ script. script_to_run (table_view root.now) (option_copied test.entry) ≡ Ok script) }
    ensures tested { IfOk result (λ script. IsSome script.test) }
    ensures err { IfErr result (λ fault. fault ≢ ScriptFault.Memory → script_to_run (table_view root.now) (option_copied test.entry) ≡ Err fault) }
{
    choose_test(read_table(alloc, root, &[ANSWERS])?, test)
}

// Runs a script with the objects of a document, and returns the core too.
pub(crate) fn run_objects<R: Rng, S: Sink>(
    alloc: Global,
    script: Script,
    answers: &Answers,
    words: &mut R,
    trace: bool,
    out: &mut S,
) -> (Result<RunResult, RunFault>, Option<Core>)
    requires { IsSome script.test }
    ensures run { IsScriptRun answers.now (R.stream words.old) script trace (S.contents out.old) (S.contents out.new) result.0 }
    ensures texts { TookTexts script (S.taken out.old) (S.taken out.new) result.0 }
    ensures output { result.0 ≡ Err RunFault.Output → S.refuses out.old }
    ensures tested { result.0 ≢ Err RunFault.NoTest }
    ensures core { IfSome result.1 (λ core. HasRun core script trace (S.contents out.old) (S.contents out.new) result.0) }
    ensures kept { IfNone result.1 (HasNoCore result.0) }
{
    bench_run::run_to_core(
        alloc,
        script,
        words,
        trace,
        |type_name: &Name| -> Result<Option<BenchObject<'_>>, AllocError>
            ensures { IfOk result (GivesNamed answers.entry.now type_name.now) }
        { Ok(Some(BenchObject::of_type(alloc, answers, type_name)?)) },
        out,
    )
}
