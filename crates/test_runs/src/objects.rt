//! The objects of the tests, except those whose answers are data.

use std::alloc::{AllocError, Global};
use uvm_glob::Name;
use uvm_object::{Act, Acts, Call, UvmObject};
use uvm_phase::Phase;

/// An object that answers each call with no actions.
#[derive(Drop)]
pub struct Idle {
    /// The name of its type.
    pub type_name: Name,
}

impl UvmObject for Idle {
    ghost use Rattle.std.specs.Prelude.{◌≡◌, []};

    ghost view = { λ _. [] };

    ghost name = { λ idle. idle.type_name };

    ghost says = { λ _ before _ acts after. (acts ≡ []) × (after ≡ before) };

    fn type_name(&self) -> &Name {
        &self.type_name
    }

    fn hear(&mut self, alloc: Global, _call: &Call) -> Result<Acts, AllocError> {
        Ok(Acts::new(alloc))
    }
}

/// An object that gives no answer: it runs out of memory at each call.
#[derive(Drop)]
pub struct Mute {
    /// The name of its type.
    pub type_name: Name,
}

impl UvmObject for Mute {
    ghost use Rattle.std.specs.Prelude.{◌≡◌, []};

    ghost view = { λ _. [] };

    ghost name = { λ mute. mute.type_name };

    ghost says = { λ _ before _ _ after. after ≡ before };

    fn type_name(&self) -> &Name {
        &self.type_name
    }

    fn hear(&mut self, _alloc: Global, _call: &Call) -> Result<Acts, AllocError> {
        Err(AllocError)
    }
}

/// An object that begins `waits` waits of 0 ticks in the run phase, and another one after each wait.
#[derive(Drop)]
pub struct Spinner {
    /// The name of its type.
    pub type_name: Name,
    /// The number of waits that the object begins in the run phase.
    pub waits: usize,
}

impl UvmObject for Spinner {
    ghost use Rattle.std.specs.Prelude.{◌≡◌, []};

    ghost view = { λ _. [] };

    ghost name = { λ spinner. spinner.type_name };

    ghost says = { λ _ before _ _ after. after ≡ before };

    fn type_name(&self) -> &Name {
        &self.type_name
    }

    fn hear(&mut self, alloc: Global, call: &Call) -> Result<Acts, AllocError> {
        match call {
            Call::Phase(Phase::Run) => waits(alloc, self.waits),
            Call::Wake { .. } => waits(alloc, 1),
            _ => Ok(Acts::new(alloc)),
        }
    }
}

// Returns an answer with `count` waits of 0 ticks. Errors: out of memory.
fn waits(alloc: Global, count: usize) -> Result<Acts, AllocError> {
    let mut acts = Acts::new(alloc);
    for _ in 0..count {
        if acts.push(Act::Wait { ticks: 0, tag: 1 }).is_err() {
            return Err(AllocError);
        }
    }
    Ok(acts)
}
