//! The actions that override types (IEEE 1800.2-2020, Clause 8).

ghost use Rattle.std.specs.Prelude.{◌≡◌, ℕ, ◌∷◌, ◌++◌, [], List, None, Some, OnOk, IfOk};
ghost use Rattle.uvm_factory.specs.declared.overrides.Override.{Override};
ghost use Rattle.uvm_factory.specs.declared.overrides.Override.TheVariants.{Instance, Whole};
ghost use Rattle.uvm_factory.specs.Faults.{Types, type_named};
ghost use Rattle.uvm_factory.specs.Observed.{types_of};
ghost use Rattle.uvm_acts.specs.declared.acts.Act.TheVariants.{OverrideType, OverrideInst};
ghost use Rattle.bench_history.specs.History.{kind_of, with_override};
ghost use Rattle.bench_history.specs.Refusals.{overriding_refusal};
ghost use Rattle.world_state.specs.ReportsMatch.{CanReport};
ghost use Rattle.world_services.specs.ActResults.{IsActResult};
ghost use Rattle.world_services.specs.Services.{IsFactory};

use std::alloc::{AllocError, Global};
use uvm_factory::{Factory, laws};
use uvm_glob::{Glob, Name};
use uvm_object::Fatal;
use world_services::act_results::{ActResult, done, refused};
use world_services::nodes::scope_under;
use world_services::services::Services;

/// Overrides a type everywhere, or refuses it with `InvalidType`. Errors: out of memory.
pub fn override_type(
    services: &mut Services,
    alloc: Global,
    original: &Name,
    new: &Name,
    replace: bool,
) -> Result<ActResult, AllocError>
    requires { CanReport services.old.report_state }
    ensures { IfOk result (λ act_result. (place : ℕ) → IsActResult (OverrideType original.now new.now replace) act_result place services.old services.new) }
{
    if let Some(fatal) = overriding_refusal(&services.factory, original, new) {
        return refused(services, alloc, fatal);
    }
    override_everywhere(&mut services.factory, original, new, replace)?;
    Ok(done(services))
}

/// Overrides a type at the paths that a glob matches under the performer's, or refuses it with `InvalidType`. Errors: out of memory.
pub fn override_inst(
    services: &mut Services,
    alloc: Global,
    original: &Name,
    new: &Name,
    glob: &Glob,
) -> Result<ActResult, AllocError>
    requires { CanReport services.old.report_state }
    ensures { IfOk result (λ act_result. (place : ℕ) → IsActResult (OverrideInst original.now new.now glob.now) act_result place services.old services.new) }
{
    if let Some(fatal) = overriding_refusal(&services.factory, original, new) {
        return refused(services, alloc, fatal);
    }
    let node = services.answer.performer.node();
    let scope = scope_under(alloc, &services.tree, node, glob)?;
    override_within(&mut services.factory, original, new, scope)?;
    Ok(done(services))
}

// Overrides a type, which is not refused. Errors: out of memory.
#[tactic(auto, unfolding(bench_history::specs::Refusals::overriding_refusal))]
fn override_everywhere(
    factory: &mut Factory,
    original: &Name,
    new: &Name,
    replace: bool,
) -> Result<(), AllocError>
    requires { overriding_refusal (types_of factory.old) original.now new.now ≡ None }
    ensures { OnOk result ((types : Types) (overrides : List Override) → IsFactory types overrides factory.old →
        IsFactory types (with_override (type_named types original.now) (type_named types new.now) (λ o n. Whole o n replace) overrides) factory.new) }
{
    laws::steps_are_given();
    let (Some(original), Some(new)) = (factory.find(original), factory.find(new)) else {
        unreachable!()
    };
    match factory.override_type(original, new, replace) {
        Ok(()) => Ok(()),
        Err(_) => Err(AllocError),
    }
}

// Overrides a type at the paths that a glob matches, which is not refused. Errors: out of memory.
#[tactic(auto, unfolding(bench_history::specs::Refusals::overriding_refusal))]
fn override_within(
    factory: &mut Factory,
    original: &Name,
    new: &Name,
    scope: Glob,
) -> Result<(), AllocError>
    requires { overriding_refusal (types_of factory.old) original.now new.now ≡ None }
    ensures { OnOk result ((types : Types) (overrides : List Override) → IsFactory types overrides factory.old →
        IsFactory types (with_override (type_named types original.now) (type_named types new.now) (λ o n. Instance o n scope) overrides) factory.new) }
{
    laws::steps_are_given();
    let (Some(original), Some(new)) = (factory.find(original), factory.find(new)) else {
        unreachable!()
    };
    match factory.override_inst(original, new, scope) {
        Ok(()) => Ok(()),
        Err(_) => Err(AllocError),
    }
}

// Returns why a type is not overridden by another, if so: `InvalidType` if one of them is unknown or their kinds differ.
#[tactic(auto, unfolding(bench_history::specs::Refusals::overriding_refusal))]
fn overriding_refusal(factory: &Factory, original: &Name, new: &Name) -> Option<Fatal>
    ensures { result ≡ overriding_refusal (types_of factory.now) original.now new.now }
{
    let (Some(original), Some(new)) = (factory.find(original), factory.find(new)) else {
        return Some(Fatal::InvalidType);
    };
    match (factory.kind_of(original), factory.kind_of(new)) {
        (Some(original), Some(new)) if original == new => None,
        _ => Some(Fatal::InvalidType),
    }
}
