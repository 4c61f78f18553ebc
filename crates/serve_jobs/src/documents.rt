//! The run of a document over a client.

ghost use Rattle.std.specs.Prelude.{◌≡◌, ◌++◌, IfErr, IfOk, IsSome, OnErr, OnOk, Ok, [], codes, if◌then◌else◌, option_copied};
ghost use Rattle.toml.specs.Data.{get_member};
ghost use Rattle.toml.specs.View.{table_view};
ghost use Rattle.bench_run.specs.RunResults.{is_clean};
ghost use Rattle.bench_script.specs.Documents.{IsReadable};
ghost use Rattle.script_input.specs.Scripts.{words_of_seed};
ghost use Rattle.script_jobs.specs.Runs.{HoldsAnswers, script_to_run, unknown_types};
ghost use Rattle.serve_dialogue.specs.Spoken.{said};
ghost use Rattle.serve_jobs.specs.Lines.{end_line, head_lines};
ghost use Rattle.serve_jobs.specs.Verdicts.{IsUnheardEnd};
ghost use Rattle.serve_jobs.specs.Served.{IsAnswersVerdict, IsRefusedBy, IsServedBench, IsServedDocument, IsServedTree, reported_as};

use crate::lines::{say_end, say_head, say_last};
use crate::verdicts::Verdict;
use bench_run::RunResult;
use bench_script::{Script, ScriptFault, read_document};
use rand_core::SeedableRng;
use rand_pcg::Pcg64;
use script_jobs::{Refusal, declared_answers, reported, script_to_run};
use script_objects::Answers;
use serve_dialogue::{Client, ServeError, serve_script};
use std::alloc::Global;
use std::io;
use toml::Table;
use uvm_glob::Name;

/// Runs the script in a document over the objects of a client, with the random numbers of `Pcg64` from the seed. If `test` is given, it
/// replaces the script's own test. Objects of types that have answers in the document are scripted; the client holds all others. The client
/// first receives the version of the protocol and the seed. At the end it receives the reason if the run stopped before its end, and then how
/// the run ended.
///
/// Returns `Clean` if the run finished and no ERROR or FATAL was counted, and `Faulty` if it ended otherwise. Returns `Refused`, with no
/// request made, in these cases, in this order: the bytes, without `answers`, are not a script; the script has no such test; its answers have
/// an error. Returns `Broken` if the run stopped before its end, or if the client refuses a text.
pub fn serve_bench<C: Client>(
    alloc: Global,
    bytes: &[u8],
    seed: u64,
    test: Option<&Name>,
    trace: bool,
    client: &mut C,
) -> Verdict
    ensures served { IsServedBench C.spoke C.ended C.line bytes.now (option_copied test.entry) seed (words_of_seed seed) trace client.old client.new result }
    ensures memory { result ≡ Verdict.Broken ServeError.Memory → IsReadable bytes.now }
    ensures output { result ≡ Verdict.Broken ServeError.Output → C.refuses client.old }
    ensures unreadable { IsUnheardEnd result → C.breaks client.old }
{
    let Ok(()) = say_head(client, seed) else {
        return Verdict::Broken(ServeError::Output);
    };
    let verdict = serve_document(alloc, bytes, seed, test, trace, client);
    if let Verdict::Broken(ServeError::Output) = &verdict {
        return verdict;
    }
    match say_last(&verdict, client) {
        Ok(()) => verdict,
        Err(_) => Verdict::Broken(ServeError::Output),
    }
}

/// Says to a client that there is no document: the version, the seed, and that the run could not begin. Errors: the writer's, if the client
/// refuses a text.
pub fn serve_nothing<C: Client>(seed: u64, client: &mut C) -> io::Result<()>
    ensures ok { OnOk result (C.spoke client.old client.new (said (head_lines seed ++ end_line (codes "broken 3")))) }
    ensures refused { OnErr result (C.refuses client.old) }
{
    say_head(client, seed)?;
    say_end(b"broken 3", client)
}

// Runs the script in a document, as `serve_bench` does, without the first and the last lines.
fn serve_document<C: Client>(
    alloc: Global,
    bytes: &[u8],
    seed: u64,
    test: Option<&Name>,
    trace: bool,
    client: &mut C,
) -> Verdict
    ensures served { IsServedDocument C.spoke C.ended C.line bytes.now (option_copied test.entry) (words_of_seed seed) trace client.old client.new result }
    ensures memory { result ≡ Verdict.Broken ServeError.Memory → IsReadable bytes.now }
    ensures output { result ≡ Verdict.Broken ServeError.Output → C.refuses client.old }
    ensures unreadable { IsUnheardEnd result → C.breaks client.old }
    ensures may_refuse { C.refuses client.new → C.refuses client.old }
{
    match read_document(alloc, bytes) {
        Ok(root) => serve_tree(alloc, &root, seed, test, trace, client),
        Err(ScriptFault::Memory) => Verdict::Broken(ServeError::Memory),
        Err(fault) => Verdict::Refused(Refusal::Script(fault)),
    }
}

// Runs the script in the tree of a document, as `serve_document` does.
fn serve_tree<C: Client>(
    alloc: Global,
    root: &Table,
    seed: u64,
    test: Option<&Name>,
    trace: bool,
    client: &mut C,
) -> Verdict
    ensures served { IsServedTree C.spoke C.ended C.line (table_view root.now) (option_copied test.entry) (words_of_seed seed) trace client.old client.new result }
    ensures output { result ≡ Verdict.Broken ServeError.Output → C.refuses client.old }
    ensures unreadable { IsUnheardEnd result → C.breaks client.old }
    ensures may_refuse { C.refuses client.new → C.refuses client.old }
{
    let script = match script_in(alloc, root, test) {
        Ok(script) => script,
        Err(verdict) => return verdict,
    };
    let answers = match answers_of(alloc, root, &script) {
        Ok(answers) => answers,
        Err(verdict) => return verdict,
    };
    let mut words = Pcg64::seed_from_u64(seed);
    match serve_script(alloc, script, &answers, &mut words, trace, client) {
        Ok(run_result) => verdict_on(&run_result),
        Err(error) => Verdict::Broken(error),
    }
}

// Returns the script in the tree of a document, without the key `answers`. Errors: the verdict, if the script is rejected; out of memory.
fn script_in(alloc: Global, root: &Table, test: Option<&Name>) -> Result<Script, Verdict>
    ensures ok { IfOk result (λ script. script_to_run (table_view root.now) (option_copied test.entry) ≡ Ok script) }
    ensures tested { IfOk result (λ script. IsSome script.test) }
    ensures err { IfErr result (IsRefusedBy (table_view root.now) (option_copied test.entry)) }
{
    match script_to_run(alloc, root, test) {
        Ok(script) => Ok(script),
        Err(fault) => Err(reported_as(reported(alloc, root, test, fault))),
    }
}

// Returns the answers in the tree of a document. Errors: the verdict, if the answers are rejected; out of memory.
fn answers_of(alloc: Global, root: &Table, script: &Script) -> Result<Answers, Verdict>
    ensures ok { IfOk result (λ answers. HoldsAnswers (get_member (codes "answers") (table_view root.now)) answers) }
    ensures known { IfOk result (λ answers. unknown_types answers script.now.types ≡ []) }
    ensures err { IfErr result (IsAnswersVerdict (get_member (codes "answers") (table_view root.now)) script.now.types) }
{
    match declared_answers(alloc, root, script) {
        Ok(answers) => Ok(answers),
        Err(verdict) => Err(reported_as(verdict)),
    }
}

// Returns the verdict on a document that is not run: rejected for the same reason, otherwise out of memory.
fn reported_as(verdict: script_jobs::Verdict) -> Verdict
    ensures { result ≡ reported_as verdict }
{
    match verdict {
        script_jobs::Verdict::Refused(refusal) => Verdict::Refused(refusal),
        _ => Verdict::Broken(ServeError::Memory),
    }
}

// Returns the verdict on a run that has ended.
fn verdict_on(run_result: &RunResult) -> Verdict
    ensures { result ≡ (if is_clean run_result.now then Verdict.Clean else Verdict.Faulty) }
{
    if run_result.is_clean() {
        Verdict::Clean
    } else {
        Verdict::Faulty
    }
}
