//! Laws of the lines of actions. The functions do nothing at run time: a proof calls one for its `ensures`.

ghost use Rattle.script_answer_acts.specs.Laws.{LinesAreWords, LinesTellActs, NamesComeBack, ForwardsAreNoActs, ForwardsReadSo};

/// States that two actions that have the same line are the same action. Both actions must be valid, as each action is whose parts fit their
/// types. Neither may change the severity for the id `none`, whose line is that of the change for all ids.
pub fn lines_tell_acts()
    ensures { LinesTellActs }
{}

/// States that the line of an action with an item is the text of its forward action with the item in place of `*`.
#[tactic(auto, using(crate::proofs::Passing::forwards_read_so))]
pub fn forwards_read_so()
    ensures { ForwardsReadSo }
{}

/// States that the text of a forward action with `*` in place of the item is the line of no action.
#[tactic(auto, using(crate::proofs::Passing::forwards_are_no_acts))]
pub fn forwards_are_no_acts()
    ensures { ForwardsAreNoActs }
{}

/// States that splitting the line of an action at its blanks gives the words of the action.
pub fn lines_are_words()
    ensures { LinesAreWords }
{}

/// States that splitting the text of a path gives the names of the path.
pub fn names_come_back()
    ensures { NamesComeBack }
{}
