//! Laws of scripted answers. These functions have no run-time effect: call one where a proof needs its `ensures`.

ghost use Rattle.script_objects.specs.Laws.{AnswersAreFunctions, TablesTellTypes};

use script_answers::laws as lines;

/// States that a scripted object is a function of its calls. For given rules, exactly one answer and one next view are allowed at each view
/// and call.
#[tactic(auto, using(crate::proofs::Functions::answers_are_functions))]
pub fn answers_are_functions()
    ensures { AnswersAreFunctions }
{}

/// States that a table of answers determines the types and their rules. So a document determines what its objects answer.
pub fn tables_tell_types()
    ensures { TablesTellTypes }
{
    lines::answer_acts_tell();
}
