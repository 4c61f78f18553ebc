//! Laws of the bus objects. These functions have no run-time effect: call one where a proof needs its `ensures`.

ghost use Rattle.bus_objects.specs.Laws.{ItemsShowThemselves, LastWrittenIsFound, MemoriesShowThemselves, ObjectsAreFunctions, ScoresShowThemselves};

/// States that after a write, its data is the word at its address, and every other word stays. After a read, all words stay.
#[tactic(auto, using(crate::proofs::LastWritten::last_written_is_found))]
pub fn last_written_is_found()
    ensures { LastWrittenIsFound }
{}

/// States that the view of a memory determines its ticks, its kept item and its words.
#[tactic(auto, using(crate::proofs::Shown::memories_show_themselves))]
pub fn memories_show_themselves()
    ensures { MemoriesShowThemselves }
{}

/// States that the view of a scoreboard determines its two numbers and its words.
#[tactic(auto, using(crate::proofs::Shown::scores_show_themselves))]
pub fn scores_show_themselves()
    ensures { ScoresShowThemselves }
{}

/// States that the view of a slow driver determines the item that it keeps.
#[tactic(auto, using(crate::proofs::Shown::items_show_themselves))]
pub fn items_show_themselves()
    ensures { ItemsShowThemselves }
{}

/// States that each object is a function of its calls. At each view and call, its relation allows exactly one answer and one next view.
#[tactic(auto, using(crate::proofs::Functions::objects_are_functions))]
pub fn objects_are_functions()
    ensures { ObjectsAreFunctions }
{}
