//! The answers of all types.

ghost use Rattle.std.specs.Prelude.{◌≡◌, [], option_copied};
ghost use Rattle.script_objects.specs.Answers.{rules_named};

use crate::rules::Rule;
use std::alloc::Global;
use std::marker::Model;
use uvm_glob::Name;

/// The rules of one type.
#[derive(Drop)]
pub struct TypeRules {
    type_name: Name,
    // The rules, sorted: those whose key fixes more bytes of a line come first.
    rules: Vec<Rule>,
}

impl Model for TypeRules {
    ghost use Rattle.script_objects.specs.Answers.{TypeValue};

    ghost Value = { TypeValue };

    ghost view = { λ rules. record { type_name = rules.type_name; rules = rules.rules.items } };
}

impl TypeRules {
    // Creates the rules of a type.
    pub(crate) fn of(type_name: Name, rules: Vec<Rule>) -> TypeRules
        ensures name { result.type_name ≡ type_name }
        ensures rules { result.rules ≡ rules.items }
    {
        TypeRules { type_name, rules }
    }

    /// Returns the name of the type.
    pub fn type_name(&self) -> &Name
        ensures { result.now ≡ self.now.type_name }
    {
        &self.type_name
    }

    /// Returns the rules, those whose key fixes more bytes of a line first.
    pub fn rules(&self) -> &[Rule]
        ensures { result.now ≡ self.now.rules }
    {
        self.rules.as_slice()
    }
}

/// The answers of all types.
#[derive(Drop)]
pub struct Answers {
    types: Vec<TypeRules>,
}

impl Model for Answers {
    ghost use Rattle.std.specs.Prelude.{List};
    ghost use Rattle.script_objects.specs.Answers.{TypeValue};

    ghost Value = { List TypeValue };

    ghost view = { λ answers. answers.types.items };
}

impl Answers {
    /// Creates an empty set of answers: no type has any. Allocates no memory.
    pub fn new(alloc: Global) -> Answers
        ensures { result ≡ [] }
    {
        Answers {
            types: Vec::new(alloc),
        }
    }

    // Creates the answers of these types.
    pub(crate) fn of(types: Vec<TypeRules>) -> Answers
        ensures { result ≡ types.items }
    {
        Answers { types }
    }

    /// Returns the types that have answers, each with its rules.
    pub fn types(&self) -> &[TypeRules]
        ensures { result.now ≡ self.now }
    {
        self.types.as_slice()
    }

    /// Returns the rules of a type. Returns `None` if the type has no table of answers, and no rules if its table is empty.
    pub fn of_type(&self, type_name: &Name) -> Option<&[Rule]>
        ensures { option_copied result ≡ rules_named self.now type_name.now }
    {
        for rules in &self.types {
            if rules.type_name == *type_name {
                return Some(rules.rules.as_slice());
            }
        }
        None
    }
}
