//! The result of a run, and how a kernel is emptied.

ghost use Rattle.std.specs.Prelude.{◌≡◌, [], Some, true};
ghost use Rattle.uvm_glob.specs.Lists.{newest};
ghost use Rattle.uvm_object.specs.declared.entries.Entry.TheVariants.{Over};
ghost use Rattle.uvm_report.specs.Commands.{quit_limit};
ghost use Rattle.uvm_report.specs.Observed as reports;
ghost use Rattle.uvm_report.specs.Observed.{limit_of};
ghost use Rattle.bench_history.specs.History.{is_over};
ghost use Rattle.bench_history.specs.Reports.{report_commands};
ghost use Rattle.bench_kernel.specs.Cores.{is_sound};
ghost use Rattle.bench_kernel.specs.Kernels.{abandoned, is_done};
ghost use Rattle.bench_run.specs.RunResults.{exit_status, is_clean};
ghost use Rattle.bench_run.specs.Running.{IsRunResult, log_counts};

use crate::faults::RunFault;
use bench_kernel::{Core, Kernel};
use uvm_object::{Entry, Reason, UvmObject};
use uvm_report::{Reports, Severity};

/// The result of a run that has ended.
#[derive(Clone, Copy, PartialEq, Eq)]
pub struct RunResult {
    /// The reason why it ended.
    pub reason: Reason,
    /// The number of reports that were issued with the severity ERROR, after changes of severity (IEEE 1800.2-2020, Clause 6).
    pub errors: u64,
    /// The number of reports that were issued with the severity FATAL, after changes of severity.
    pub fatals: u64,
}

impl RunResult {
    /// Returns whether the run went through all phases, and no report was counted as ERROR or FATAL.
    pub fn is_clean(&self) -> bool
        ensures { result ≡ is_clean self.now }
    {
        matches!(self.reason, Reason::Finished) && self.errors == 0 && self.fatals == 0
    }
}

/// Returns the result of a run that has ended. Requires that its core has not run out of memory.
pub fn run_result_of(core: &Core) -> RunResult
    requires over { is_over core.now.history ≡ true }
    requires sound { is_sound core.now.health ≡ true }
    ensures { IsRunResult result core.now.script core.now.history }
{
    let reports = reports_of(core);
    RunResult {
        reason: why_over(core),
        errors: reports.count_of(Severity::Error),
        fatals: reports.count_of(Severity::Fatal),
    }
}

// Returns why the run ended.
fn why_over(core: &Core) -> Reason
    requires { is_over core.now.history ≡ true }
    ensures { newest core.now.history ≡ Some (Over result) }
{
    match core.log().last() {
        Some(Entry::Over(reason)) => *reason,
        _ => unreachable!(),
    }
}

/// Returns the report server of a core that has not run out of memory (IEEE 1800.2-2020, Clause 6).
pub fn reports_of(core: &Core) -> &Reports
    requires { is_sound core.now.health ≡ true }
    ensures limit { limit_of result.now ≡ quit_limit (report_commands core.now.script core.now.history) }
    ensures counts { reports.counts_of result.now ≡ log_counts core.now.script core.now.history }
{
    match core.reports() {
        Some(reports) => reports,
        None => unreachable!(),
    }
}

/// Returns the exit status of a program that ran a script: 0 if the result is clean, 1 if the run ended otherwise, 2 if the script has no
/// test, and 3 after any other error.
pub fn exit_status(ended: &Result<RunResult, RunFault>) -> u8
    ensures { result ≡ exit_status ended.now }
{
    match ended {
        Ok(run_result) if run_result.is_clean() => 0,
        Ok(_) => 1,
        Err(RunFault::NoTest) => 2,
        Err(_) => 3,
    }
}

/// Abandons a kernel in any state, and drops each object that it holds. `Kernel::finish` may then end it. Allocates no memory.
pub fn empty_kernel<O: UvmObject>(kernel: &mut Kernel<O>)
    ensures { kernel.new ≡ record (abandoned kernel.old) { held = [] } }
{
    kernel.abandon();
    give_all_back(kernel);
}

// Drops each object that the kernel holds. Requires that the run has ended or the kernel has failed.
fn give_all_back<O: UvmObject>(kernel: &mut Kernel<O>)
    requires { is_done kernel.old ≡ true }
    ensures { kernel.new ≡ record kernel.old { held = [] } }
{
    while let Some((_, _)) = kernel.give_back() {}
}
