//! Laws of the lines of actions and the texts of answers. The functions do nothing at run time: a proof calls one for its `ensures`.

ghost use Rattle.serve_answers.specs.Laws.{AnswersTell, LinesAreShown, ReadingIsDetermined};

use script_answer_acts::laws::lines_tell_acts;

/// States that the line of an action that can be read has only blanks and printable ASCII characters.
pub fn lines_are_shown()
    ensures { LinesAreShown }
{}

/// States that an answer determines its actions: no text begins with the texts of two answers.
pub fn answers_tell()
    ensures { AnswersTell }
{
    lines_tell_acts();
}

/// States that a text that is read as an action is not rejected with `NoAct`. No text begins with the row of an action and also with the
/// row of no action.
pub fn reading_is_determined()
    ensures { ReadingIsDetermined }
{}
