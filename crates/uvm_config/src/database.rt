//! The configuration database.

ghost use Rattle.std.specs.Prelude.{◌≡◌, ◌+◌, ◌≤◌, ◌↔◌, ℕ, List, None, OnOk, OnErr, nat_le};
ghost use Rattle.uvm_glob.specs.Limits.{most_names};
ghost use Rattle.uvm_glob.specs.Paths.{path_text};
ghost use Rattle.uvm_config.specs.Answers.{most_settings};
ghost use Rattle.uvm_config.specs.ChosenValue.{answer_after, precedence_of};
ghost use Rattle.uvm_config.specs.Representation.{answer_at, value_at, accepted, IsSame};

use crate::faults::ConfigFault;
use crate::fields::{self, FieldSettings};
use crate::resources::Resource;
use std::alloc::Global;
use std::collections::HashMap;
use std::marker::Model;
use uvm_glob::{Glob, Name, Path};

/// The settings of fields at the paths that scopes match, as in uvm_config_db (IEEE 1800.2-2020, Annex C). Contracts see the
/// precedence and the value of the setting that applies at each path and field, and the number of accepted settings.
pub struct Settings {
    // The settings of each field that can apply.
    fields: HashMap<Name, FieldSettings>,
    // The number of accepted settings.
    count: usize,
    // The allocator of the lists.
    alloc: Global,
}

// (Written by hand: crates that use the settings then need no proof about the drop of their fields.)
impl Drop for Settings {
    fn drop(self) {
        let Settings {
            fields: _,
            count: _,
            alloc: _,
        } = self;
    }
}

impl Model for Settings {
    ghost use Rattle.uvm_config.specs.Representation.{Representation};

    ghost Value = { Representation };

    ghost view = { λ s. record { fields = s.fields.entries; count = s.count } };
}

// The precedence of a setting that is made while the build phase does not run (`uvm_resource_base::default_precedence`).
const DEFAULT_PRECEDENCE: u16 = 1000;

impl Settings {
    /// The maximum number of accepted settings.
    pub const MAX_SETS: usize = 65_536;

    /// Creates an empty database.
    #[tactic(auto, unfolding(crate::specs::Representation::answer_at, crate::specs::Representation::accepted, crate::specs::Answers::strongest_answer))]
    pub fn new(alloc: Global) -> Settings
        ensures answers { (path : List (List ℕ)) (asked : List ℕ) → answer_at result path asked ≡ None }
        ensures accepted { accepted result ≡ 0 }
    {
        Settings {
            fields: HashMap::new(alloc),
            count: 0,
            alloc,
        }
    }

    /// Sets a field at the paths that the scope matches. The setter is a component at `depth`, at most 32 (0 for the top, 1 for
    /// its children). `building` states whether the build phase runs: the precedence is then 1000 minus the depth, and otherwise
    /// 1000. The setting with the greatest precedence applies, and of equal ones the last. Errors: `Full` if `MAX_SETS` settings
    /// were accepted; out of memory (`Memory`). An error changes nothing.
    #[tactic(auto, unfolding(crate::specs::Representation::answer_at, crate::specs::Representation::accepted))]
    pub fn set(
        &mut self,
        depth: u8,
        building: bool,
        scope: Glob,
        field: Name,
        value: i64,
    ) -> Result<(), ConfigFault>
        requires { depth ≤ most_names }
        ensures answers { OnOk result ((path : List (List ℕ)) (asked : List ℕ) →
            answer_at self.new path asked
            ≡ answer_after scope field (precedence_of building depth) value (path_text path) asked (answer_at self.old path asked)) }
        ensures accepted { OnOk result (accepted self.new ≡ accepted self.old + 1) }
        ensures full { (result ≡ Err ConfigFault.Full) ↔ (most_settings ≤ accepted self.old) }
        ensures unchanged { OnErr result (IsSame self.old self.new) }
    {
        if self.is_full() {
            return Err(ConfigFault::Full);
        }
        let precedence = precedence_of(building, depth);
        let resource = Resource { precedence, value };
        fields::add(&mut self.fields, self.alloc, field, scope, resource)?;
        self.count += 1;
        Ok(())
    }

    /// Returns the value of a field at a path, if a setting applies there. Does not allocate.
    #[tactic(auto, unfolding(crate::specs::Representation::answer_at))]
    pub fn get(&self, path: &Path, field: &Name) -> Option<i64>
        ensures { result ≡ value_at self.now path.now field.now }
    {
        Some(self.fields.get(field)?.strongest(path)?.value)
    }

    /// Returns whether `MAX_SETS` settings were accepted, so that no more are.
    #[tactic(auto, unfolding(crate::specs::Representation::accepted))]
    pub fn is_full(&self) -> bool
        ensures { result ≡ nat_le most_settings (accepted self.now) }
    {
        self.count >= Settings::MAX_SETS
    }
}

// Returns the precedence of a setting by a component at a depth.
#[tactic(auto, unfolding(crate::specs::ChosenValue::precedence_of))]
fn precedence_of(building: bool, depth: u8) -> u16
    requires { depth ≤ most_names }
    ensures { result ≡ precedence_of building depth }
{
    if building {
        DEFAULT_PRECEDENCE - u16::from(depth)
    } else {
        DEFAULT_PRECEDENCE
    }
}
