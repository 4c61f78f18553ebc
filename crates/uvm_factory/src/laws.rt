//! Laws of the definitions. These functions have no run-time effect: call one where a proof needs its `ensures`.

ghost use Rattle.uvm_factory.specs.Steps.{MadeIsEnd};
ghost use Rattle.uvm_factory.specs.Overrides.{NoneGivenNoStep, StepsAreGiven, StepsAreGivenInOrder, StepsReplace};

/// States that `made` returns the last type of a chain of overrides. It returns no type if the chain has more steps than allowed.
#[tactic(auto, using(crate::proofs::Ends::made_is_end))]
pub fn made_is_end()
    ensures { MadeIsEnd }
{}

/// States that the override that applies to a type leads to the type that replaces it.
#[tactic(auto, using(crate::proofs::Given::steps_replace))]
pub fn steps_replace()
    ensures { StepsReplace }
{}

/// States that no override applies to a type if none is given.
#[tactic(auto, using(crate::proofs::Given::none_given_no_step))]
pub fn none_given_no_step()
    ensures { NoneGivenNoStep }
{}

/// States how one more override changes the override that applies to a type: as `override_type` and `override_inst` ensure.
#[tactic(auto, using(crate::proofs::Given::steps_are_given))]
pub fn steps_are_given()
    ensures { StepsAreGiven }
{}

/// States the same for a list of overrides in the order in which they were given, for use in a loop over the list.
#[tactic(auto, using(crate::proofs::Given::steps_are_given_in_order))]
pub fn steps_are_given_in_order()
    ensures { StepsAreGivenInOrder }
{}
