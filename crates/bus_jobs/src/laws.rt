//! Laws of all runs of the bus bench (`specs/Laws.antt`). These functions have no run-time effect: call one where a proof needs its
//! `ensures`.

ghost use Rattle.bus_jobs.specs.Laws.{RunsAreDetermined};

use bench_run::laws as runs;
use bus_objects::{BusObject, laws as objects};

/// States a law: the script, the test, the random numbers and the trace option determine the verdict and the output. The law holds for every
/// run, except if memory runs out or a write fails.
pub fn runs_are_determined()
    ensures { RunsAreDetermined }
{
    objects::objects_are_functions();
    runs::ends_are_determined::<BusObject>();
}
