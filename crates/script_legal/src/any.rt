//! The judgement on a transcript of a document, whatever the objects answer.

ghost use Rattle.std.specs.Prelude.{◌≡◌, IfOk, option_copied};
ghost use Rattle.script_legal.specs.LogTexts.{HasLogText, IsBegun};

use crate::repeats::{AnyJudgement, Unshown, repeat};
use bench_core::Core;
use bench_script::{ScriptFault, read_document};
use script_input::Breakage;
use script_jobs::{Refusal, Verdict, reported, script_to_run};
use std::alloc::Global;
use uvm_glob::Name;

/// Judges whether a text is the transcript of a legal run of the script of a document with a trace, whatever its objects answer and whatever its
/// random numbers are. Also returns the core that has repeated it, up to the line that differs. If `test` is given, it replaces the script's own
/// test. Errors: the verdict of `run_bench` if the script is rejected; out of memory.
pub fn judge_any(
    alloc: Global,
    bytes: &[u8],
    test: Option<&Name>,
    text: &[u8],
) -> Result<(AnyJudgement, Core), Verdict>
    ensures { IfOk result (λ judged. judged.0 ≡ AnyJudgement.Legal → HasLogText bytes.now (option_copied test.entry) text.now judged.1) }
{
    let first = judge_by(alloc, bytes, test, false, text)?;
    if !matches!(first.0, AnyJudgement::Unknown(_, Unshown::Verbosity, _)) {
        return Ok(first);
    }
    let second = judge_by(alloc, bytes, test, true, text)?;
    match second.0 {
        AnyJudgement::Legal => Ok(second),
        _ => Ok(first),
    }
}

// Judges a text as `judge_any` does, if `issues` says what is supposed of an INFO that is not displayed.
fn judge_by(
    alloc: Global,
    bytes: &[u8],
    test: Option<&Name>,
    issues: bool,
    text: &[u8],
) -> Result<(AnyJudgement, Core), Verdict>
    ensures { IfOk result (λ judged. judged.0 ≡ AnyJudgement.Legal → HasLogText bytes.now (option_copied test.entry) text.now judged.1) }
{
    let mut core = core_of(alloc, bytes, test)?;
    match repeat(alloc, &mut core, issues, text) {
        Ok(judgement) => Ok((judgement, core)),
        Err(_) => Err(Verdict::Broken(Breakage::Memory)),
    }
}

// Returns the core of the script of a document, without an entry. Errors: as those of `judge_any`.
fn core_of(alloc: Global, bytes: &[u8], test: Option<&Name>) -> Result<Core, Verdict>
    ensures core { IfOk result (λ core. IsBegun bytes.now (option_copied test.entry) core) }
{
    let root = match read_document(alloc, bytes) {
        Ok(root) => root,
        Err(ScriptFault::Memory) => return Err(Verdict::Broken(Breakage::Memory)),
        Err(fault) => return Err(Verdict::Refused(Refusal::Script(fault))),
    };
    let script = match script_to_run(alloc, &root, test) {
        Ok(script) => script,
        Err(fault) => return Err(reported(alloc, &root, test, fault)),
    };
    match Core::new(alloc, script) {
        Ok(core) => Ok(core),
        Err(_) => Err(Verdict::Broken(Breakage::Memory)),
    }
}
