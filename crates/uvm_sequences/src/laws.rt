//! Laws of sequences. These functions do nothing at run time; their contracts are the laws.

ghost use Rattle.uvm_sequences.specs.Laws.{AncestorsByParents, AncestorsStay, LiveIsStarted, StepsChangeAlone};

/// States that the ancestors of a sequence are its parent and the ancestors of its parent, active or ended.
pub fn ancestors_by_parents()
    ensures { AncestorsByParents }
{}

/// States that the ancestors of a sequence that was started stay the same when another sequence is started.
#[tactic(auto, using(crate::proofs::Unders::ancestors_stay))]
pub fn ancestors_stay()
    ensures { AncestorsStay }
{}

/// States that each active sequence was started.
pub fn live_is_started()
    ensures { LiveIsStarted }
{}

/// States that a sequence that moves to another step or ends leaves the steps of all others.
pub fn steps_change_alone()
    ensures { StepsChangeAlone }
{}
