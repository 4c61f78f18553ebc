//! Tests of runs over a sink that never refuses a text: the contract then excludes `RunFault::Output`.

ghost use Rattle.std.specs.Prelude.{◌≡◌, ◌≢◌, Err, IsSome};

use crate::runs::script;
use bench_script::Script;
use rand_pcg::Pcg32;
use std::alloc::Global;
use std::io;
use test_runs::{RunFault, RunResult, Sink, make_idle, run_script};

// A sink that takes each text and counts the texts.
#[derive(Drop)]
struct Tally {
    texts: u64,
}

impl Sink for Tally {
    ghost use Rattle.std.specs.Prelude.{None};

    ghost contents = { λ _. None };

    ghost taken = { λ _. None };

    ghost refuses = { λ _. ⊥ };

    fn put(&mut self, _text: &[u8]) -> io::Result<()> {
        self.texts = self.texts.saturating_add(1);
        Ok(())
    }
}

// Runs a script over objects that answer each call with no actions. Errors: those of `run_script`, except `Output`.
fn run_counted(alloc: Global, script: Script, tally: &mut Tally) -> Result<RunResult, RunFault>
    requires { IsSome script.test }
    ensures { result ≢ Err RunFault.Output }
{
    let mut words = Pcg32::new(1, 1);
    run_script(alloc, script, &mut words, false, make_idle, tally)
}

// Returns the number of texts that a clean run writes to its sink.
fn texts_of_a_run(alloc: Global) -> Option<u64> {
    let script = script(alloc)?;
    let mut tally = Tally { texts: 0 };
    match run_counted(alloc, script, &mut tally) {
        Ok(run_result) if run_result.is_clean() => Some(tally.texts),
        _ => None,
    }
}

// Without a trace, most of the texts are empty.
#[test]
fn sink_takes_a_text_for_each_entry_and_the_summary(rt: HostRuntime) {
    assert!(rt; texts_of_a_run(rt.alloc()) == Some(30));
}
