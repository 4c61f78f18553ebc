//! The overrides of one type.

ghost use Rattle.std.specs.Prelude.{◌≡◌, ℕ, List, [], None, OnOk, OnErr};
ghost use Rattle.uvm_glob.specs.Paths.{path_text};
ghost use Rattle.uvm_factory.specs.Steps.{after_override};
ghost use Rattle.uvm_factory.specs.Standing.{standing_step, after_own, placed_at, step_among};

use crate::overrides::{Override, OverrideStep};
use crate::types::TypeId;
use indexmap::IndexMap;
use std::alloc::{AllocError, Global};
use std::collections::HashMap;
use std::marker::Model;
use uvm_glob::{Glob, Path};

/// The overrides of one type. Contracts see them as a `Standing`.
#[derive(Drop)]
pub(crate) struct TypeOverrides {
    // The type that replaces it by the type override in force, if one was given.
    by_type: Option<TypeId>,
    // The types that replace it by instance overrides, by scope, in the order in which they were given. Of those with the same
    // scope, only the first is kept.
    instances: IndexMap<Glob, TypeId>,
}

impl Model for TypeOverrides {
    ghost use Rattle.uvm_factory.specs.Standing.{Standing};

    ghost Value = { Standing };

    ghost view = { λ t. record { by_type = t.by_type; instances = t.instances.entries } };
}

impl TypeOverrides {
    /// Creates an empty set of overrides.
    #[tactic(auto, unfolding(crate::specs::Standing::standing_step))]
    pub fn new(alloc: Global) -> TypeOverrides
        ensures { (text : List ℕ) → standing_step result text ≡ None }
    {
        TypeOverrides {
            by_type: None,
            instances: IndexMap::new(alloc),
        }
    }

    /// Adds an override of the type. Errors: out of memory. An error changes nothing.
    #[tactic(auto, unfolding(crate::specs::Standing::standing_step))]
    pub fn add(&mut self, given: Override) -> Result<(), AllocError>
        ensures steps { OnOk result ((text : List ℕ) → standing_step self.new text ≡ after_own given text (standing_step self.old text)) }
        ensures unchanged { OnErr result (self.new ≡ self.old) }
    {
        match given {
            Override::Instance { new, scope, .. } => {
                // An earlier override with the same scope always takes precedence.
                if self.instances.contains_key(&scope) {
                    return Ok(());
                }
                self.instances.insert(scope, new)?;
            }
            Override::Whole { new, replace, .. } => {
                if replace || self.by_type.is_none() {
                    self.by_type = Some(new);
                }
            }
        }
        Ok(())
    }

    /// Returns the override that applies to the type at a path, if there is one.
    #[tactic(auto, unfolding(crate::specs::Standing::standing_step))]
    pub fn step(&self, path: &Path) -> Option<OverrideStep>
        ensures { result ≡ standing_step self.now (path_text path.now) }
    {
        match first_matching(&self.instances, path) {
            Some(new) => Some(OverrideStep::ByInstance(new)),
            None => self.by_type.map(|by_type| OverrideStep::ByType(by_type)),
        }
    }
}

// Returns the new type of the first instance override that applies at a path.
fn first_matching(instances: &IndexMap<Glob, TypeId>, path: &Path) -> Option<TypeId>
    ensures { result ≡ placed_at instances.now.entries (path_text path.now) }
{
    for (scope, new) in instances {
        if scope.matches(path) {
            return Some(*new);
        }
    }
    None
}

/// Adds an override to those of its type. Errors: out of memory. An error changes nothing.
pub(crate) fn add(
    standings: &mut HashMap<TypeId, TypeOverrides>,
    alloc: Global,
    given: Override,
) -> Result<(), AllocError>
    ensures steps { OnOk result ((type_id : ℕ) (text : List ℕ) →
        step_among standings.new.entries type_id text
        ≡ after_override given type_id text (step_among standings.old.entries type_id text)) }
    ensures unchanged { OnErr result (standings.new.entries ≡ standings.old.entries) }
{
    let original = given.original();
    match standings.get_mut(&original) {
        Some(standing) => standing.add(given),
        None => {
            let mut standing = TypeOverrides::new(alloc);
            standing.add(given)?;
            standings.insert(original, standing)?;
            Ok(())
        }
    }
}
