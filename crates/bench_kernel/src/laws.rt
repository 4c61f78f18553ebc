//! Laws of legal logs on which the holding of objects rests, and what they state of the components and sequences that are made. These
//! functions have no run-time effect: their contracts are the laws (`specs/Laws.antt`).

ghost use Rattle.bench_kernel.specs.Laws.{LogLaws, MadeAreNew, NobodyIsMadeTwice, OthersMakeNobody};

use bench_history::laws;

// Law: all laws of `LogLaws` hold.
pub(crate) fn hold()
    ensures { LogLaws }
{
    laws::nothing_after_over();
    laws::machine_entries_are_silent();
    laws::nodes_stay();
    laws::needs_are_wanted();
    laws::made_objects_are_new();
    laws::new_nodes_are_unasked();
    laws::new_sequences_are_unasked();
    laws::components_are_nodes();
    laws::living_lived();
    laws::leavers_lived();
}

/// Law: a component or sequence that is made is new. The log adds it with the name of the type that was needed, and it was not called
/// before.
pub fn made_are_new()
    ensures { MadeAreNew }
{
    hold();
}

/// Law: an entry for which no object was needed makes no component and starts no sequence.
pub fn others_make_nobody()
    ensures { OthersMakeNobody }
{
    hold();
}

/// Law: no component or sequence is made twice. No number of a node or of a sequence is used again, on any sequencer.
pub fn nobody_is_made_twice()
    ensures { NobodyIsMadeTwice }
{
    hold();
}
