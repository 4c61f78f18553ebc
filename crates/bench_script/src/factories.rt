//! The factory of a script.

ghost use Rattle.std.specs.Prelude.{◌≡◌, List, [], ℕ, None, IfOk, OnOk};
ghost use Rattle.uvm_glob.specs.Paths.{path_text};
ghost use Rattle.uvm_factory.specs.Faults.{refusal};
ghost use Rattle.uvm_factory.specs.Steps.{after_override};
ghost use Rattle.uvm_factory.specs.Observed.{types_of, step_at};
ghost use Rattle.script_tables.specs.Rows.{CanRegister, CanOverride};
ghost use Rattle.bench_script.specs.Factories.{IsFactoryOf};

use crate::scripts::Script;
use std::alloc::{AllocError, Global};
use uvm_factory::{Factory, FactoryFault, Kind, Override, laws};
use uvm_glob::Name;

/// Creates the factory with the types and the overrides of a script (IEEE 1800.2-2020, Clause 8). Errors: out of memory. (It is
/// not a method of `Script`: otherwise each library that keeps a script would be compiled with all that a factory keeps.)
pub fn factory_of(alloc: Global, script: &Script) -> Result<Factory, AllocError>
    ensures { IfOk result (IsFactoryOf script.now) }
{
    laws::none_given_no_step();
    laws::steps_are_given_in_order();
    let mut factory = Factory::new(alloc);
    register_all(&mut factory, script.types())?;
    let overrides = script.overrides();
    for given in overrides {
        apply(&mut factory, given)?;
    }
    Ok(factory)
}

// Registers types, each of which must be one that can be registered after those before it. Errors: out of memory.
fn register_all(factory: &mut Factory, types: &[(Name, Kind)]) -> Result<(), AllocError>
    requires none { types_of factory.old ≡ [] }
    requires sound { CanRegister [] types.now }
    ensures types { OnOk result (types_of factory.new ≡ types.now) }
    ensures steps { OnOk result ((type_id : ℕ) (path : List (List ℕ)) → step_at factory.new type_id path ≡ step_at factory.old type_id path) }
{
    for (name, kind) in types {
        match factory.register(*name, *kind) {
            Ok(_) => (),
            Err(fault) => return Err(want_of_memory(fault)),
        }
    }
    Ok(())
}

// Adds an override between types of one kind to the factory. Errors: out of memory.
fn apply(factory: &mut Factory, given: &Override) -> Result<(), AllocError>
    requires { CanOverride (types_of factory.old) given.now }
    ensures types { OnOk result (types_of factory.new ≡ types_of factory.old) }
    ensures steps { OnOk result ((type_id : ℕ) (path : List (List ℕ)) →
        step_at factory.new type_id path ≡ after_override given.now type_id (path_text path) (step_at factory.old type_id path)) }
{
    let applied = match given {
        Override::Instance {
            original,
            new,
            scope,
        } => factory.override_inst(*original, *new, scope.copy()?),
        Override::Whole {
            original,
            new,
            replace,
        } => factory.override_type(*original, *new, *replace),
    };
    match applied {
        Ok(()) => Ok(()),
        Err(fault) => Err(want_of_memory(fault)),
    }
}

// Returns the error of a call of the factory that can fail only if it is out of memory.
fn want_of_memory(_fault: FactoryFault) -> AllocError
    requires { refusal _fault ≡ None }
{
    AllocError
}
