//! The value and the precedence of a setting, and the choice between two settings.

ghost use Rattle.std.specs.Prelude.{◌≡◌, []};
ghost use Rattle.uvm_glob.specs.Paths.{path_text};
ghost use Rattle.uvm_config.specs.ChosenValue.{answer_after};

use std::marker::Model;
use uvm_glob::{Glob, Path};

// The value that a setting gives its field, and its precedence; the standard calls it a resource. Contracts see it as an
// `Answer`.
#[derive(Clone, Copy)]
pub(crate) struct Resource {
    /// The precedence; of the settings that match, the one with the greatest precedence applies.
    pub precedence: u16,
    /// The value of the field.
    pub value: i64,
}

impl Model for Resource {
    ghost use Rattle.uvm_config.specs.ChosenValue.{Answer};

    ghost Value = { Answer };

    ghost view = { λ r. record { precedence = r.precedence; value = r.value } };

    ghost inverse = { λ a. record { precedence = a.precedence; value = a.value } };
}

// Returns the one of two settings that applies at a path: `later`, or the one that applied so far (`before`), which was set
// earlier.
#[tactic(auto, unfolding(crate::specs::ChosenValue::answer_after))]
pub(crate) fn stronger(
    scope: &Glob,
    later: Resource,
    path: &Path,
    before: Option<Resource>,
) -> Option<Resource>
    ensures { result ≡ answer_after scope.now [] later.precedence later.value (path_text path.now) [] before }
{
    match before {
        Some(earlier) if earlier.precedence > later.precedence => before,
        _ if scope.matches(path) => Some(later),
        _ => before,
    }
}
