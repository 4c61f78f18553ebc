//! Laws of the lines of calls. The functions do nothing at run time.

ghost use Rattle.script_answers.specs.CallLaws.{CallsHaveWords};

use script_answer_acts::part_laws::parts_have_no_blanks;

/// States that splitting the line of a call at its blanks gives the words of the call.
pub fn calls_have_words()
    ensures { CallsHaveWords }
{
    parts_have_no_blanks();
}
