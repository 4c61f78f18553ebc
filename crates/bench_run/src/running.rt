//! Runs a script: performs the steps of a kernel, and makes the objects that it needs.

ghost use Rattle.std.specs.Prelude.{◌≡◌, ◌≢◌, ◌⊎◌, [], None, Err, OnErr, OnOk, IfOk, IfErr, IfNone, IfSome, IsSome, Some, true, false, if◌then◌else◌, MatchBool};
ghost use Rattle.std.specs.Io.KnownBytes.{Appends};
ghost use Rattle.bench_history.specs.Next.{IsLegal, need_in, next_of};
ghost use Rattle.bench_kernel.specs.Health.TheVariants.{Good};
ghost use Rattle.bench_history.specs.History.{is_over};
ghost use Rattle.bench_kernel.specs.Cores.{HasFewLines, IsDrawn, is_sound, last_text, word_in};
ghost use Rattle.bench_kernel.specs.Kernels.{open_need, wanted_in};
ghost use Rattle.bench_kernel.specs.Steps.{IsSameLog, IsSupplied};
ghost use Rattle.bench_run.specs.Words.{HasGiven, HasLost, HasWordsOf, may_lose, word_made};
ghost use Rattle.bench_run.specs.Lives.{AreKept, HaveLived, MayGive};
ghost use Rattle.bench_run.specs.Sinks.{TookMore};
ghost use Rattle.bench_run.specs.Texts.{TookTexts};
ghost use Rattle.bench_run.specs.Running.{Grows, HasNoCore, HasRun, HasTold, IsDeclined, IsHalted, IsRun, IsUnwritten, LeavesRun, summary_of};

use crate::faults::RunFault;
use crate::run_results::{RunResult, empty_kernel, reports_of, run_result_of};
use crate::sinks::Sink;
use bench_history::laws;
use bench_kernel::{Core, CoreFault, Kernel, Misfit, Step, Unfit, laws as custody};
use bench_script::Script;
use rand_core::Rng;
use std::alloc::{AllocError, Global};
use uvm_glob::Name;
use uvm_object::UvmObject;

/// Runs a script to its end, on the random numbers of `words`, and returns how the run ended. For each object that is needed, it calls
/// `make` with the name of the type. The object is declined if `make` returns `None`, or an object of another type. After each entry of
/// the log, the entry's line is written if `trace` is on, and the line of its report if that is displayed. After the last entry, the
/// summary of the reports is written. Each object is given back and dropped: that of a sequence once the sequence has ended, all others
/// at the end, also after an error.
///
/// The sink receives one text for each entry, which is empty if there is nothing to write, and then the summary.
///
/// Errors: `NoTest` if the script has no test, before anything else. Then, as they occur: `LogFull` if the log has as many entries as it
/// may have and the run has not ended; `Output` if the sink refuses a text, as a writer does that fails; `Memory` if memory runs out,
/// also in `make` or in an object. A log may have 1,000,000 entries in version 1 of scripts, and 8,000,000 in version 2.
///
/// After `NoTest` nothing was written. After `LogFull` the text of the whole log was written; after `Memory`, the text of the log, or all
/// but that of its newest entry. After `Output` nothing is known of what was written.
pub fn run_script<
    O: UvmObject,
    R: Rng,
    F: Fn(&Name) -> Result<Option<O>, AllocError> + Drop,
    S: Sink,
>(
    alloc: Global,
    script: Script,
    words: &mut R,
    trace: bool,
    make: F,
    out: &mut S,
) -> Result<RunResult, RunFault>
    requires { F.IsAlwaysCallable make }
    ensures run { IsRun O.view O.name O.says (MayGive F.Fn make) (R.stream words.old) (R.stream words.new) script trace (S.contents out.old) (S.contents out.new) result }
    ensures texts { TookTexts script (S.taken out.old) (S.taken out.new) result }
    ensures output { result ≡ Err RunFault.Output → S.refuses out.old }
    ensures untested { script.test ≡ None → result ≡ Err RunFault.NoTest }
    ensures tested { IsSome script.test → IfErr result (λ fault. fault ≢ RunFault.NoTest) }
{
    let (ended, _core) = run_to_core(alloc, script, words, trace, make, out);
    ended
}

/// Runs a script as `run_script` does, and returns the core too. It has the log of the run, and its state at the end. There is no core after
/// `NoTest`, and there may be none after `Memory`.
pub fn run_to_core<
    O: UvmObject,
    R: Rng,
    F: Fn(&Name) -> Result<Option<O>, AllocError> + Drop,
    S: Sink,
>(
    alloc: Global,
    script: Script,
    words: &mut R,
    trace: bool,
    make: F,
    out: &mut S,
) -> (Result<RunResult, RunFault>, Option<Core>)
    requires { F.IsAlwaysCallable make }
    ensures run { IsRun O.view O.name O.says (MayGive F.Fn make) (R.stream words.old) (R.stream words.new) script trace (S.contents out.old) (S.contents out.new) result.0 }
    ensures texts { TookTexts script (S.taken out.old) (S.taken out.new) result.0 }
    ensures output { result.0 ≡ Err RunFault.Output → S.refuses out.old }
    ensures untested { script.test ≡ None → result.0 ≡ Err RunFault.NoTest }
    ensures tested { IsSome script.test → IfErr result.0 (λ fault. fault ≢ RunFault.NoTest) }
    ensures core { IfSome result.1 (λ core. HasRun core script trace (S.contents out.old) (S.contents out.new) result.0) }
    ensures kept { IfNone result.1 (HasNoCore result.0) }
{
    let Some(_) = script.test() else {
        return (Err(RunFault::NoTest), None);
    };
    let mut kernel: Kernel<O> = match Kernel::new(alloc, script) {
        Ok(kernel) => kernel,
        Err(_) => return (Err(RunFault::Memory), None),
    };
    let ended = run_kernel(alloc, &mut kernel, words, trace, &make, out);
    // For the proof: the text that was written is that of this log, which is legal.
    let _log = kernel.log();
    (ended, Some(kernel.into_core()))
}

/// Runs a kernel as `run_script` runs a script, and gives each object back. Requires that the log of the kernel is empty, and that it has
/// not failed and was not abandoned. The kernel then still returns its log, which is that of the run, and its reports if the run has
/// ended. No random number is consumed beyond those in the log, except at most one if memory runs out.
///
/// Errors: those of `run_script`, except `NoTest`.
pub fn run_kernel<O: UvmObject, R: Rng, F: Fn(&Name) -> Result<Option<O>, AllocError>, S: Sink>(
    alloc: Global,
    kernel: &mut Kernel<O>,
    words: &mut R,
    trace: bool,
    make: &F,
    out: &mut S,
) -> Result<RunResult, RunFault>
    requires callable { F.IsAlwaysCallable make.now }
    requires good { kernel.old.core.health ≡ Good }
    requires going { kernel.old.failed ≡ false }
    requires begun { kernel.old.core.history ≡ [] }
    ensures run { LeavesRun kernel.old.core.script trace kernel.new.core.history (S.contents out.old) (S.contents out.new) result }
    ensures texts { TookTexts kernel.old.core.script (S.taken out.old) (S.taken out.new) result }
    ensures output { result ≡ Err RunFault.Output → S.refuses out.old }
    ensures sound { OnOk result (kernel.new.core.health ≡ Good) }
    ensures words { HasWordsOf (R.stream words.old) kernel.new.core.history }
    ensures left { HasGiven (may_lose result) kernel.new.core.history (R.stream words.old) (R.stream words.new) }
    ensures objects { HaveLived O.view O.name O.says (MayGive F.Fn make.now) kernel.new.core.script kernel.new.core.history }
    ensures script { kernel.new.core.script ≡ kernel.old.core.script }
    ensures back { kernel.new.held ≡ [] }
{
    let mut text = Vec::new(alloc);
    let ended = run_to_end(kernel, words, trace, make, &mut text, out);
    empty_kernel(kernel);
    ended
}

// Makes entries until the run has ended, writes the summary, and returns how the run ended. Each text is built in `text`, so that its
// memory is used again.
fn run_to_end<O: UvmObject, R: Rng, F: Fn(&Name) -> Result<Option<O>, AllocError>, S: Sink>(
    kernel: &mut Kernel<O>,
    words: &mut R,
    trace: bool,
    make: &F,
    text: &mut Vec<u8>,
    out: &mut S,
) -> Result<RunResult, RunFault>
    requires callable { F.IsAlwaysCallable make.now }
    requires good { kernel.old.core.health ≡ Good }
    requires going { kernel.old.failed ≡ false }
    requires begun { kernel.old.core.history ≡ [] }
    ensures run { LeavesRun kernel.old.core.script trace kernel.new.core.history (S.contents out.old) (S.contents out.new) result }
    ensures texts { TookTexts kernel.old.core.script (S.taken out.old) (S.taken out.new) result }
    ensures output { result ≡ Err RunFault.Output → S.refuses out.old }
    ensures sound { OnOk result (kernel.new.core.health ≡ Good) }
    ensures words { HasWordsOf (R.stream words.old) kernel.new.core.history }
    ensures left { HasGiven (may_lose result) kernel.new.core.history (R.stream words.old) (R.stream words.new) }
    ensures objects { HaveLived O.view O.name O.says (MayGive F.Fn make.now) kernel.new.core.script kernel.new.core.history }
    ensures script { kernel.new.core.script ≡ kernel.old.core.script }
{
    // For the proof: before the first entry the kernel holds no object.
    let _held = kernel.live();
    while make_entry(kernel, words, make)? {
        write_last(kernel, trace, text, out)?;
    }
    write_summary(kernel, text, out)?;
    Ok(run_result_of(kernel.core()))
}

// Makes the next entry and returns true, or returns false if the run has ended. Before that, it drops the objects of the sequences that
// have ended. Errors: `LogFull`; `Memory`. An error adds no entry.
fn make_entry<O: UvmObject, R: Rng, F: Fn(&Name) -> Result<Option<O>, AllocError>>(
    kernel: &mut Kernel<O>,
    words: &mut R,
    make: &F,
) -> Result<bool, RunFault>
    requires { F.IsAlwaysCallable make.now }
    ensures ok { IfOk result (λ made. MatchBool made (Grows kernel.old.core kernel.new.core) ((is_over kernel.old.core.history ≡ true) × HasTold kernel.old kernel.new)) }
    ensures going { IfOk result (λ made. made ≡ true → kernel.new.failed ≡ false) }
    ensures err { IfErr result (λ fault. IsHalted fault kernel.old.failed kernel.old.core) }
    ensures same { OnErr result (IsSameLog kernel.old.core kernel.new.core) }
    ensures words { IfOk result (λ made. IsDrawn R.stream (word_made made kernel.new.core.history) words.old words.new) }
    ensures lost { IfErr result (λ fault. HasLost R.stream fault words.old words.new) }
    ensures objects { OnOk result (AreKept O.view O.name O.says (MayGive F.Fn make.now) kernel.old → AreKept O.view O.name O.says (MayGive F.Fn make.now) kernel.new) }
{
    // For the proof: if an entry or an object is next, the run has not ended.
    laws::nothing_after_over();
    custody::others_make_nobody();
    loop {
        // For the proof: no component or sequence has two objects.
        let _held = kernel.live();
        match kernel.step(words) {
            Ok(Step::Back { .. }) => (),
            Ok(Step::Over) => return Ok(false),
            Ok(Step::Moved) => return Ok(true),
            Ok(Step::Need) => {
                fill(kernel, make)?;
                return Ok(true);
            }
            Err(CoreFault::LogFull) => return Err(RunFault::LogFull),
            Err(_) => return Err(RunFault::Memory),
        }
    }
}

// Supplies the object that is needed, or declines it if `make` returns none of its type. Errors: out of memory, which leaves the kernel
// unchanged. It is not inlined, so that `make_entry` does not reserve stack for an object at each entry.
#[inline(never)]
fn fill<O: UvmObject, F: Fn(&Name) -> Result<Option<O>, AllocError>>(
    kernel: &mut Kernel<O>,
    make: &F,
) -> Result<(), RunFault>
    requires callable { F.IsAlwaysCallable make.now }
    requires needed { IsSome (open_need kernel.old) }
    requires asked { open_need kernel.old ≡ need_in (next_of kernel.old.core.script kernel.old.core.history) }
    ensures ok { OnOk result (Grows kernel.old.core kernel.new.core) }
    ensures going { OnOk result (kernel.new.failed ≡ kernel.old.failed) }
    ensures err { IfErr result (λ fault. fault ≡ RunFault.Memory) }
    ensures same { OnErr result (kernel.new ≡ kernel.old) }
    ensures wordless { OnOk result (word_in kernel.new.core.history ≡ None) }
    ensures objects { OnOk result (AreKept O.view O.name O.says (MayGive F.Fn make.now) kernel.old → AreKept O.view O.name O.says (MayGive F.Fn make.now) kernel.new) }
{
    custody::made_are_new();
    let Some(need) = kernel.need() else {
        unreachable!()
    };
    let type_name = need.type_name;
    match make(&type_name) {
        Ok(Some(object)) => supply(kernel, object),
        Ok(None) => {
            kernel.decline();
            Ok(())
        }
        Err(_) => Err(RunFault::Memory),
    }
}

// Supplies the object, or declines it if it is not of the type that is needed. Errors: out of memory, which leaves the kernel unchanged.
fn supply<O: UvmObject>(kernel: &mut Kernel<O>, object: O) -> Result<(), RunFault>
    requires { IsSome (open_need kernel.old) }
    ensures ok { OnOk result (Grows kernel.old.core kernel.new.core) }
    ensures going { OnOk result (kernel.new.failed ≡ kernel.old.failed) }
    ensures err { IfErr result (λ fault. fault ≡ RunFault.Memory) }
    ensures same { OnErr result (kernel.new ≡ kernel.old) }
    ensures filled { OnOk result (IsSupplied O.view O.name O.says object kernel.old kernel.new ⊎ ((O.name object ≢ wanted_in kernel.old) × IsDeclined kernel.old kernel.new)) }
{
    match kernel.supply(object) {
        Ok(()) => Ok(()),
        Err(
            Unfit {
                why: Misfit::WrongType,
                ..
            },
        ) => {
            kernel.decline();
            Ok(())
        }
        Err(_) => Err(RunFault::Memory),
    }
}

// Writes the text of the newest entry, which it builds in `text`. Errors: `Memory`, after which nothing was written; `Output`.
fn write_last<O: UvmObject, S: Sink>(
    kernel: &Kernel<O>,
    trace: bool,
    text: &mut Vec<u8>,
    out: &mut S,
) -> Result<(), RunFault>
    ensures legal { IsLegal kernel.now.core.script kernel.now.core.history }
    ensures ok { OnOk result (Appends (S.contents out.old) (S.contents out.new) (if is_sound kernel.now.core.health then last_text trace kernel.now.core.script kernel.now.core.history else [])) }
    ensures err { IfErr result (λ fault. IsUnwritten fault (S.contents out.old) (S.contents out.new)) }
    ensures count { OnOk result (TookMore 1 (S.taken out.old) (S.taken out.new)) }
    ensures untaken { result ≡ Err RunFault.Memory → S.taken out.new ≡ S.taken out.old }
    ensures output { result ≡ Err RunFault.Output → S.refuses out.old }
    ensures steady { S.refuses out.new → S.refuses out.old }
    ensures lost { result ≡ Err RunFault.Memory → last_text trace kernel.now.core.script kernel.now.core.history ≢ [] }
    ensures lines { OnOk result (is_sound kernel.now.core.health ≡ true → HasFewLines trace kernel.now.core.script kernel.now.core.history) }
{
    // For the proof: the entry is the last of a legal log.
    let _log = kernel.log();
    text.clear();
    if kernel.core().last_text(trace, text).is_err() {
        return Err(RunFault::Memory);
    }
    write_text(text.as_slice(), out)
}

// Writes the summary of the reports, which it builds in `text`. Errors: `Memory`, after which nothing was written; `Output`.
fn write_summary<O: UvmObject, S: Sink>(
    kernel: &Kernel<O>,
    text: &mut Vec<u8>,
    out: &mut S,
) -> Result<(), RunFault>
    requires { is_sound kernel.now.core.health ≡ true }
    ensures ok { OnOk result (Appends (S.contents out.old) (S.contents out.new) (summary_of kernel.now.core.script kernel.now.core.history)) }
    ensures err { IfErr result (λ fault. IsUnwritten fault (S.contents out.old) (S.contents out.new)) }
    ensures count { OnOk result (TookMore 1 (S.taken out.old) (S.taken out.new)) }
    ensures untaken { result ≡ Err RunFault.Memory → S.taken out.new ≡ S.taken out.old }
    ensures output { result ≡ Err RunFault.Output → S.refuses out.old }
    ensures steady { S.refuses out.new → S.refuses out.old }
{
    text.clear();
    if reports_of(kernel.core()).summary(text).is_err() {
        return Err(RunFault::Memory);
    }
    write_text(text.as_slice(), out)
}

fn write_text<S: Sink>(text: &[u8], out: &mut S) -> Result<(), RunFault>
    ensures ok { OnOk result (Appends (S.contents out.old) (S.contents out.new) text.now) }
    ensures err { IfErr result (λ fault. fault ≡ RunFault.Output) }
    ensures count { OnOk result (TookMore 1 (S.taken out.old) (S.taken out.new)) }
    ensures output { OnErr result (S.refuses out.old) }
    ensures steady { S.refuses out.new → S.refuses out.old }
{
    match out.put(text) {
        Ok(()) => Ok(()),
        Err(_) => Err(RunFault::Output),
    }
}
