//! The settings of one field.

ghost use Rattle.std.specs.Prelude.{◌≡◌, ◌∷◌, ◌++◌, ℕ, List, [], OnOk, OnErr, nat_eq};
ghost use Rattle.std.specs.Cmp.Lexicographic.{pointwise};
ghost use Rattle.indexmap.specs.IndexMap.{get, shift_remove_entry};
ghost use Rattle.uvm_glob.specs.Paths.{path_text};
ghost use Rattle.uvm_config.specs.ChosenValue.{answer_after, gives_way};
ghost use Rattle.uvm_config.specs.Fields.{answer_among, field_answer};

use crate::resources::{Resource, stronger};
use indexmap::IndexMap;
use std::alloc::{AllocError, Global};
use std::collections::HashMap;
use std::marker::Model;
use uvm_glob::{Glob, Name, Path};

/// The settings of one field that can apply, in the order in which they were set. Of the settings with the same scope, only the
/// one with the greatest precedence is kept, and of equal ones the last. Contracts see them as a list.
#[derive(Drop)]
pub(crate) struct FieldSettings {
    // The precedence and the value of each scope.
    settings: IndexMap<Glob, Resource>,
}

impl Model for FieldSettings {
    ghost use Rattle.std.specs.Prelude.{List, map};
    ghost use Rattle.uvm_config.specs.Fields.{FieldSetting, field_setting};

    ghost Value = { List FieldSetting };

    ghost view = { λ f. map field_setting f.settings.entries };
}

impl FieldSettings {
    /// Creates an empty list of settings.
    pub fn new(alloc: Global) -> FieldSettings
        ensures { result ≡ [] }
    {
        FieldSettings {
            settings: IndexMap::new(alloc),
        }
    }

    /// Adds a setting, which replaces the one with the same scope. Changes nothing if that one has a greater precedence. Errors:
    /// out of memory. An error changes nothing.
    pub fn add(&mut self, scope: Glob, resource: Resource) -> Result<(), AllocError>
        ensures answers { OnOk result ((text : List ℕ) →
            field_answer self.new text
            ≡ answer_after scope [] resource.precedence resource.value text [] (field_answer self.old text)) }
        ensures unchanged { OnErr result (self.new ≡ self.old) }
    {
        if !gives_way(&self.settings, &scope, resource) {
            return Ok(());
        }
        put_last(&mut self.settings, scope, resource)
    }

    /// Returns the precedence and the value of the setting that applies at a path, if there is one.
    pub fn strongest(&self, path: &Path) -> Option<Resource>
        ensures { result ≡ field_answer self.now (path_text path.now) }
    {
        let mut strongest = None;
        for (scope, resource) in self.settings.iter() {
            strongest = stronger(scope, *resource, path, strongest);
        }
        strongest
    }
}

/// Adds a setting to those of its field. Errors: out of memory. An error changes nothing.
pub(crate) fn add(
    fields: &mut HashMap<Name, FieldSettings>,
    alloc: Global,
    field: Name,
    scope: Glob,
    resource: Resource,
) -> Result<(), AllocError>
    ensures answers { OnOk result ((text asked : List ℕ) →
        answer_among fields.new.entries text asked
        ≡ answer_after scope field resource.precedence resource.value text asked (answer_among fields.old.entries text asked)) }
    ensures unchanged { OnErr result (fields.new.entries ≡ fields.old.entries) }
{
    match fields.get_mut(&field) {
        Some(settings) => settings.add(scope, resource),
        None => {
            let mut settings = FieldSettings::new(alloc);
            settings.add(scope, resource)?;
            fields.insert(field, settings)?;
            Ok(())
        }
    }
}

// Returns whether no setting with the scope has a greater precedence than `later`.
fn gives_way(settings: &IndexMap<Glob, Resource>, scope: &Glob, later: Resource) -> bool
    ensures { result ≡ gives_way later.precedence (get (pointwise nat_eq) settings.now scope.now) }
{
    match settings.get(scope) {
        Some(earlier) => earlier.precedence <= later.precedence,
        None => true,
    }
}

// Adds a setting after the others and removes the one with the same scope. Errors: out of memory. An error changes nothing.
#[tactic(auto, using(crate::proofs::Put::goes_last))]
fn put_last(
    settings: &mut IndexMap<Glob, Resource>,
    scope: Glob,
    resource: Resource,
) -> Result<(), AllocError>
    ensures ok { OnOk result (settings.new.entries ≡ shift_remove_entry (pointwise nat_eq scope) settings.old.entries ++ (scope, resource) ∷ []) }
    ensures unchanged { OnErr result (settings.new.entries ≡ settings.old.entries) }
{
    settings.reserve(1)?;
    settings.shift_remove(&scope);
    settings.insert(scope, resource)?;
    Ok(())
}
