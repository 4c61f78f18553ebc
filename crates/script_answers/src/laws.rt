//! Laws of the texts of answer actions. The functions do nothing at run time: a proof calls one for its `ensures`.

ghost use Rattle.script_answers.specs.Laws.{AnswerActsTell};

use script_answer_acts::laws as acts;

/// States that two answer actions that have the same text are the same, also if they pass on an item.
pub fn answer_acts_tell()
    ensures { AnswerActsTell }
{
    acts::lines_tell_acts();
    acts::forwards_are_no_acts();
}
