//! Whether a phase takes time.

ghost use Rattle.std.specs.Prelude.{◌≡◌};
ghost use Rattle.bench_history.specs.History.{in_task};

use uvm_phase::Phase;

/// Returns whether a phase is given and takes time (IEEE 1800.2-2020, Clause 9).
pub fn in_task(phase: Option<Phase>) -> bool
    ensures { result ≡ in_task phase }
{
    match phase {
        Some(phase) => phase.is_task(),
        None => false,
    }
}
