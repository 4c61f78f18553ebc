//! Laws of the errors of scripts. These functions have no run-time effect: their contracts are the laws (`specs/Laws.antt`).

ghost use Rattle.script_check.specs.Laws.{ErrorsAreInRows, KeysAreJudged};

/// Law: each error of an array of tables is that of the array as a whole, or is in the row at its place. The rows before that row are read. Of the
/// keys of the row, the one at fault is the first that is wrong, and each key is judged alone. The exception is `KindsDiffer`: it concerns
/// `orig` and `new`, and is at `new`.
#[tactic(auto, using(crate::proofs::Placed::errors_are_in_rows))]
pub fn errors_are_in_rows()
    ensures { ErrorsAreInRows }
{}

/// Law: the keys that are judged are those that a row can have, in their order.
#[tactic(auto, using(crate::proofs::Placed::keys_are_judged))]
pub fn keys_are_judged()
    ensures { KeysAreJudged }
{}
