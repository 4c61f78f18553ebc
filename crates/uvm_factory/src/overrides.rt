//! Overrides, and their results for a type.

ghost use Rattle.std.specs.Prelude.{◌≡◌, IfOk};
ghost use Rattle.uvm_factory.specs.Steps.{type_in, original_of, new_of};

use crate::types::TypeId;
use std::alloc::AllocError;
use uvm_glob::Glob;

/// An override of a type by another (IEEE 1800.2-2020, Clause 8).
#[derive(Drop)]
pub enum Override {
    /// An instance override: it applies at the paths that the glob matches.
    Instance {
        /// The type that is replaced.
        original: TypeId,
        /// The type that replaces it.
        new: TypeId,
        /// The glob of the paths at which the override applies. It matches whole paths.
        scope: Glob,
    },
    /// A type override: it applies at every path.
    Whole {
        /// The type that is replaced.
        original: TypeId,
        /// The type that replaces it.
        new: TypeId,
        /// Whether it replaces an earlier type override of the type; otherwise the earlier one stays in force.
        replace: bool,
    },
}

/// The override that applies to a type at a path.
#[derive(Clone, Copy, PartialEq, Eq)]
pub enum OverrideStep {
    /// An instance override, with the type that replaces it.
    ByInstance(TypeId),
    /// A type override, with the type that replaces it.
    ByType(TypeId),
}

impl OverrideStep {
    /// The type that replaces it.
    pub fn new_type(self) -> TypeId
        ensures { result ≡ type_in self }
    {
        match self {
            OverrideStep::ByInstance(new) | OverrideStep::ByType(new) => new,
        }
    }
}

impl Override {
    /// Returns an equal override. Errors: out of memory.
    pub fn copy(&self) -> Result<Override, AllocError>
        ensures { IfOk result (λ o. o ≡ self.now) }
    {
        Ok(match self {
            Override::Instance {
                original,
                new,
                scope,
            } => Override::Instance {
                original: *original,
                new: *new,
                scope: scope.copy()?,
            },
            Override::Whole {
                original,
                new,
                replace,
            } => Override::Whole {
                original: *original,
                new: *new,
                replace: *replace,
            },
        })
    }

    // The type that is replaced.
    pub(crate) fn original(&self) -> TypeId
        ensures { result ≡ original_of self.now }
    {
        match self {
            Override::Instance { original, .. } | Override::Whole { original, .. } => *original,
        }
    }

    // The type that replaces it.
    pub(crate) fn new_type(&self) -> TypeId
        ensures { result ≡ new_of self.now }
    {
        match self {
            Override::Instance { new, .. } | Override::Whole { new, .. } => *new,
        }
    }
}
