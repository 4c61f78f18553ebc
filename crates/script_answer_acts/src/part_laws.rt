//! Laws of the texts that the lines of actions consist of. The functions do nothing at run time.

ghost use Rattle.script_answer_acts.specs.PartLaws.{PartsHaveNoBlanks};

/// States that the text of a name, a number, an integer or an item has no blank.
pub fn parts_have_no_blanks()
    ensures { PartsHaveNoBlanks }
{}
