//! The maximum number of entries of a log.

ghost use Rattle.std.specs.Prelude.{◌≡◌};
ghost use Rattle.bench_history.specs.Limits.{log_limit};

use bench_script::Script;

const ENTRIES_OF_VERSION_1: u32 = 1_000_000;

const ENTRIES_OF_VERSION_2: u32 = 8_000_000;

/// Returns the maximum number of entries in the log of a script: 1,000,000 for script version 1, 8,000,000 for version 2. Allocates nothing.
#[tactic(auto, unfolding(crate::specs::Limits::log_limit))]
pub fn log_limit(script: &Script) -> u32
    ensures { result ≡ log_limit script.now }
{
    if script.version() == 2 {
        ENTRIES_OF_VERSION_2
    } else {
        ENTRIES_OF_VERSION_1
    }
}
