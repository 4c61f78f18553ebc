//! Laws of all runs. These functions have no run-time effect: their contracts are the laws (`specs/Laws.antt`).

ghost use Rattle.bench_run.specs.Laws.{EndsAreDetermined, RunsAreFunctions};

use bench_history::laws as history;
use bench_kernel::laws as custody;
use uvm_object::UvmObject;

/// Law: if each object is a function of its calls, the log of a run that has ended or has a full log is determined. It follows from the
/// script, the random numbers, and the object that is given for each type name.
pub fn runs_are_functions<O: UvmObject>()
    ensures { RunsAreFunctions O.view O.name O.says }
{
    history::nothing_after_over();
    custody::nobody_is_made_twice();
}

/// Law: if each object is a function of its calls, the result of a run and all that it writes are determined. They follow from the script,
/// the random numbers, the object that is given for each type name, and whether tracing is on. The law covers runs that end or stop with
/// `LogFull`, on sinks whose contents are known.
pub fn ends_are_determined<O: UvmObject>()
    ensures { EndsAreDetermined O.view O.name O.says }
{
    runs_are_functions::<O>();
}
