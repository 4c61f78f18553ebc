//! An example that cites a law: what a legal log states of a sequence that locks its sequencer. It does not depend on how the kernel works.
#![tactic(auto)]

ghost use Rattle.bench_history.specs.Next.{IsLegal};
ghost use Rattle.example_law.specs.Bursts.{BurstIsAlone};

use bench_core::laws;
use bench_script::Script;
use uvm_object::Log;

/// Law: while a sequence of the type `seq_burst` holds a sequencer, each item granted there goes to it or a descendant of it (IEEE
/// 1800.2-2020, Clause 15). The log must be legal for the script, as `Core::log` and `Kernel::log` state of theirs. The function has no
/// run-time effect: call it where a proof needs the law.
pub fn burst_is_alone(script: &Script, log: &Log)
    ensures { IsLegal script.now log.now.entries → BurstIsAlone log.now.entries }
{
    laws::lock_excludes();
}
