//! Laws of all runs of documents (`specs/Laws.antt`). These functions have no run-time effect: call one where a proof needs its `ensures`.

ghost use Rattle.script_jobs.specs.Laws.{BenchRunsAreRuns, RunsAreDetermined};

use crate::objects::BenchObject;
use bench_run::laws as runs;
use bus_objects::laws as bus;
use script_objects::laws as answers;

/// States a law: the document, the test, the random numbers and the trace option determine the verdict and the output. The law holds for
/// every run, except if an entry of `answers` has an error, memory runs out, or a write fails.
pub fn runs_are_determined()
    ensures { RunsAreDetermined }
{
    answers::tables_tell_types();
    answers::answers_are_functions();
    bus::objects_are_functions();
    runs::ends_are_determined::<BenchObject<'_>>();
}

/// States a law: a run of a bench that was read is a run of its document, as `run_bench` makes it.
pub fn bench_runs_are_runs()
    ensures { BenchRunsAreRuns }
{}
