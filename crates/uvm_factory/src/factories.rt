//! The factory.

ghost use Rattle.std.specs.Prelude.{◌≡◌, ◌∷◌, ◌++◌, ℕ, List, [], length, None, Some, OnOk, OnErr, IfOk, IfErr, option_map, option_copied, slice_get};
ghost use Rattle.std.specs.Prelude.{nat_eq};
ghost use Rattle.std.specs.Cmp.Lexicographic.{pointwise};
ghost use Rattle.indexmap.specs.IndexMap.{get};
ghost use Rattle.uvm_glob.specs.Paths.{path_text};
ghost use Rattle.uvm_factory.specs.Faults.{refusal, type_named, register_fault, override_fault};
ghost use Rattle.uvm_factory.specs.Representation.{Representation, types_of, step_at, next_at, resolved, IsSame};
ghost use Rattle.uvm_factory.specs.Steps.{original_of, new_of, after_instance, after_type, after_override};

use crate::faults::{FactoryFault, Unmade};
use crate::overrides::{Override, OverrideStep};
use crate::standing::{self, TypeOverrides};
use crate::types::{Kind, TypeId};
use indexmap::IndexMap;
use std::alloc::{AllocError, Global};
use std::collections::HashMap;
use std::marker::Model;
use uvm_glob::{Glob, Name, Path};

/// The registered types and their overrides (IEEE 1800.2-2020, Clause 8). Contracts see the names and kinds of
/// the types in the order of registration. They also see the override that applies to each type at each path.
pub struct Factory {
    // The types in the order of registration.
    types: IndexMap<Name, Kind>,
    // The overrides of each type that has any.
    standings: HashMap<TypeId, TypeOverrides>,
    // The allocator of the overrides.
    alloc: Global,
}

// (Written by hand: crates that use a factory then need no proof about the drop of its fields.)
impl Drop for Factory {
    fn drop(self) {
        let Factory {
            types: _,
            standings: _,
            alloc: _,
        } = self;
    }
}

impl Model for Factory {
    ghost use Rattle.std.specs.Prelude.{◌≡◌, ◌≤◌, length, nat_eq};
    ghost use Rattle.std.specs.Cmp.Lexicographic.{pointwise};
    ghost use Rattle.indexmap.specs.IndexMap.{IsUnique};
    ghost use Rattle.uvm_factory.specs.Faults.{most_types};
    ghost use Rattle.uvm_factory.specs.Representation.{Representation};

    ghost Value = { Representation };

    ghost view = { λ f. record { types = f.types.entries; standings = f.standings.entries } };

    ghost invariant = { λ f. length f.types.entries ≤ most_types };
}

impl Factory {
    /// The maximum number of types of a factory.
    pub const MAX_TYPES: usize = 1024;

    /// Creates a factory with no types.
    #[tactic(auto, unfolding(crate::specs::Representation::types_of, crate::specs::Representation::step_at))]
    pub fn new(alloc: Global) -> Factory
        ensures types { types_of result ≡ [] }
        ensures steps { (type_id : ℕ) (path : List (List ℕ)) → step_at result type_id path ≡ None }
    {
        Factory {
            types: IndexMap::new(alloc),
            standings: HashMap::new(alloc),
            alloc,
        }
    }

    /// Registers a type (Clause 8) and returns its identifier. Errors: `Known` if a type has this name; `Full` if `MAX_TYPES`
    /// types are registered; out of memory (`Memory`). An error changes nothing.
    #[tactic(auto, unfolding(crate::specs::Representation::types_of, crate::specs::Representation::step_at))]
    pub fn register(&mut self, type_name: Name, kind: Kind) -> Result<TypeId, FactoryFault>
        ensures ok { IfOk result (λ id. (register_fault (types_of self.old) type_name ≡ None) × (id ≡ length (types_of self.old))) }
        ensures types { OnOk result (types_of self.new ≡ types_of self.old ++ (type_name, kind) ∷ []) }
        ensures steps { OnOk result ((type_id : ℕ) (path : List (List ℕ)) → step_at self.new type_id path ≡ step_at self.old type_id path) }
        ensures err { IfErr result (λ fault. register_fault (types_of self.old) type_name ≡ refusal fault) }
        ensures unchanged { OnErr result (IsSame self.old self.new) }
    {
        if self.types.get_index_of(&type_name).is_some() {
            return Err(FactoryFault::Known);
        }
        let place = self.types.len();
        if place >= Factory::MAX_TYPES {
            return Err(FactoryFault::Full);
        }
        add_type(&mut self.types, type_name, kind)?;
        Ok(TypeId::new(place as u16))
    }

    /// Replaces a type by another of its kind at every path. An instance override that matches takes precedence, whichever was
    /// given first (Clause 8). Without `replace`, an existing type override of the type stays in force. Errors: `NoType` if one
    /// of the types is not registered; `KindDiffers` if their kinds differ; out of memory (`Memory`). An error changes nothing.
    #[tactic(auto, unfolding(crate::specs::Representation::types_of))]
    pub fn override_type(
        &mut self,
        original: TypeId,
        new: TypeId,
        replace: bool,
    ) -> Result<(), FactoryFault>
        ensures ok { OnOk result (override_fault (types_of self.old) original new ≡ None) }
        ensures steps { OnOk result ((type_id : ℕ) (path : List (List ℕ)) →
            step_at self.new type_id path ≡ after_type original new replace type_id (step_at self.old type_id path)) }
        ensures types { OnOk result (types_of self.new ≡ types_of self.old) }
        ensures err { IfErr result (λ fault. override_fault (types_of self.old) original new ≡ refusal fault) }
        ensures unchanged { OnErr result (IsSame self.old self.new) }
    {
        self.add(Override::Whole {
            original,
            new,
            replace,
        })
    }

    /// Replaces a type by another of its kind at the paths that the glob matches. It takes precedence over every type override.
    /// If several instance overrides match, the first one given takes precedence (Clause 8). Errors: `NoType` if one of the types
    /// is not registered; `KindDiffers` if their kinds differ; out of memory (`Memory`). An error changes nothing.
    #[tactic(auto, unfolding(crate::specs::Representation::types_of))]
    pub fn override_inst(
        &mut self,
        original: TypeId,
        new: TypeId,
        scope: Glob,
    ) -> Result<(), FactoryFault>
        ensures ok { OnOk result (override_fault (types_of self.old) original new ≡ None) }
        ensures steps { OnOk result ((type_id : ℕ) (path : List (List ℕ)) →
            step_at self.new type_id path ≡ after_instance original new scope type_id (path_text path) (step_at self.old type_id path)) }
        ensures types { OnOk result (types_of self.new ≡ types_of self.old) }
        ensures err { IfErr result (λ fault. override_fault (types_of self.old) original new ≡ refusal fault) }
        ensures unchanged { OnErr result (IsSame self.old self.new) }
    {
        self.add(Override::Instance {
            original,
            new,
            scope,
        })
    }

    /// Returns the type to create when `asked` is requested at a path: the type at which the overrides end (Clause 8). At each
    /// step an instance override that matches takes precedence over a type override, and the first one given over later ones.
    /// Errors: `NoType` if the type is not registered; `Loop` if the overrides form a loop. Does not allocate.
    #[tactic(auto, using(crate::proofs::Rows::rows), unfolding(crate::specs::Representation::types_of))]
    pub fn resolve(&self, asked: TypeId, path: &Path) -> Result<TypeId, Unmade>
        ensures { result ≡ resolved self.now path.now asked }
    {
        if asked.place() >= self.types.len() {
            return Err(Unmade::NoType);
        }
        let mut type_id = asked;
        let mut left = self.types.len();
        while let Some(next) = self.next(type_id, path) {
            if left == 0 {
                return Err(Unmade::Loop);
            }
            left -= 1;
            type_id = next;
        }
        Ok(type_id)
    }

    /// Returns the override that applies to a type at a path, if there is one. Does not allocate.
    #[tactic(auto, unfolding(crate::specs::Representation::step_at))]
    pub fn step(&self, type_id: TypeId, path: &Path) -> Option<OverrideStep>
        ensures { result ≡ step_at self.now type_id path.now }
    {
        self.standings.get(&type_id)?.step(path)
    }

    /// Returns the type with this name, if one is registered. Does not allocate.
    #[tactic(auto, unfolding(crate::specs::Representation::types_of))]
    pub fn find(&self, type_name: &Name) -> Option<TypeId>
        ensures { result ≡ type_named (types_of self.now) type_name.now }
    {
        match self.types.get_index_of(type_name) {
            Some(place) => Some(TypeId::new(place as u16)),
            None => None,
        }
    }

    /// Returns the name of a type, if it is registered. Does not allocate.
    #[tactic(auto, unfolding(crate::specs::Representation::types_of))]
    pub fn name_of(&self, type_id: TypeId) -> Option<&Name>
        ensures { option_copied result ≡ option_map (λ t. t.0) (slice_get (types_of self.now) type_id) }
    {
        match self.types.get_index(type_id.place()) {
            Some((type_name, _)) => Some(type_name),
            None => None,
        }
    }

    /// Returns the kind of a type, if it is registered. Does not allocate.
    #[tactic(auto, unfolding(crate::specs::Representation::types_of))]
    pub fn kind_of(&self, type_id: TypeId) -> Option<Kind>
        ensures { result ≡ option_map (λ t. t.1) (slice_get (types_of self.now) type_id) }
    {
        match self.types.get_index(type_id.place()) {
            Some((_, kind)) => Some(*kind),
            None => None,
        }
    }

    // Adds an override. Errors: `NoType` if one of its types is not registered; `KindDiffers` if their kinds differ; out of
    // memory (`Memory`). An error changes nothing.
    #[tactic(auto, unfolding(crate::specs::Representation::types_of, crate::specs::Representation::step_at))]
    fn add(&mut self, given: Override) -> Result<(), FactoryFault>
        ensures ok { OnOk result (override_fault (types_of self.old) (original_of given) (new_of given) ≡ None) }
        ensures steps { OnOk result ((type_id : ℕ) (path : List (List ℕ)) →
            step_at self.new type_id path ≡ after_override given type_id (path_text path) (step_at self.old type_id path)) }
        ensures types { OnOk result (types_of self.new ≡ types_of self.old) }
        ensures err { IfErr result (λ fault. override_fault (types_of self.old) (original_of given) (new_of given) ≡ refusal fault) }
        ensures unchanged { OnErr result (IsSame self.old self.new) }
    {
        if let Some(fault) = self.override_fault(given.original(), given.new_type()) {
            return Err(fault);
        }
        standing::add(&mut self.standings, self.alloc, given)?;
        Ok(())
    }

    // Returns why a type cannot be overridden by another: `NoType`, then `KindDiffers`; `None` if it can.
    #[tactic(auto, unfolding(crate::specs::Representation::types_of))]
    fn override_fault(&self, original: TypeId, new: TypeId) -> Option<FactoryFault>
        ensures { result ≡ override_fault (types_of self.now) original new }
    {
        match (self.kind_of(original), self.kind_of(new)) {
            (Some(original), Some(new)) if original == new => None,
            (Some(_), Some(_)) => Some(FactoryFault::KindDiffers),
            _ => Some(FactoryFault::NoType),
        }
    }

    // Returns the type that replaces a type at a path, if it is a different type.
    fn next(&self, type_id: TypeId, path: &Path) -> Option<TypeId>
        ensures { result ≡ next_at self.now path.now type_id }
    {
        let new = self.step(type_id, path)?.new_type();
        if new == type_id { None } else { Some(new) }
    }
}

// Adds a type after the others. Errors: out of memory. An error changes nothing.
fn add_type(types: &mut IndexMap<Name, Kind>, type_name: Name, kind: Kind) -> Result<(), AllocError>
    requires { get (pointwise nat_eq) types.old type_name ≡ None }
    ensures ok { OnOk result (types.new.entries ≡ types.old.entries ++ (type_name, kind) ∷ []) }
    ensures err { OnErr result (types.new.entries ≡ types.old.entries) }
{
    types.insert(type_name, kind)?;
    Ok(())
}
