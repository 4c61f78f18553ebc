//! The types of a factory and their kinds.

ghost use Rattle.std.specs.Prelude.{◌≡◌};

use std::marker::Model;

/// The kind of the objects of a type. Only a type of the same kind can override a type.
#[derive(Clone, Copy, PartialEq, Eq)]
pub enum Kind {
    /// Components, which are part of the component tree of a testbench.
    Component,
    /// Sequences, which are not part of the component tree.
    Sequence,
}

/// The identifier of a type in a factory: its place in the order of registration, from 0. A factory returns it from `register`.
/// An identifier from another factory refers to the type at the same place.
#[derive(Clone, Copy, PartialEq, Eq, Hash)]
pub struct TypeId {
    place: u16,
}

impl Model for TypeId {
    ghost use Rattle.std.specs.Prelude.{ℕ};

    ghost Value = { ℕ };

    ghost view = { λ id. id.place };

    ghost inverse = { λ n. record { place = n } };
}

impl TypeId {
    /// Creates the identifier of the type at a place, from 0, even if a factory has no type there.
    pub fn new(place: u16) -> TypeId
        ensures { result ≡ place }
    {
        TypeId { place }
    }

    /// Returns the place, from 0.
    pub fn place(self) -> usize
        ensures { result ≡ self }
    {
        usize::from(self.place)
    }
}
