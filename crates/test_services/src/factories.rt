//! Examples of the results of a factory, and checks that each call succeeds if memory is available. For the definitions, proofs/
//! states which type is made if one override leads to another, and why types are rejected.

use crate::texts::is_printed;
use OverrideStep::{ByInstance, ByType};
use std::alloc::Global;
use std::process::Abort;
use std::test::Fail;
use uvm_factory::{Factory, FactoryFault, Kind, OverrideStep, TypeId, Unmade};
use uvm_glob::{Glob, Name, Path, PathFault};

// Registers the types 0 to 3: the components A, B and C, and the sequence S.
fn register_letters(factory: &mut Factory) -> Result<(), Fail> {
    for name in [b"A", b"B", b"C"] {
        register(factory, name.as_slice(), Kind::Component)?;
    }
    register(factory, b"S", Kind::Sequence)
}

fn register(factory: &mut Factory, name: &[u8], kind: Kind) -> Result<(), Fail> {
    let name = Name::new(name)?;
    let _ = factory.register(name, kind)?;
    Ok(())
}

#[test]
fn an_overriding_type_is_looked_up_again(rt: HostRuntime) -> Result<(), Fail> {
    let mut factory = Factory::new(rt.alloc());
    override_in_turn(rt.alloc(), &mut factory)?;
    resolve(&rt, rt.alloc(), &factory);
    Ok(())
}

// Overrides A by B everywhere, and B by C below the test.
fn override_in_turn(alloc: Global, factory: &mut Factory) -> Result<(), Fail> {
    register_letters(factory)?;
    let scope = Glob::new(alloc, b"uvm_test_top.*")?;
    factory.override_inst(TypeId::new(1), TypeId::new(2), scope)?;
    Ok(factory.override_type(TypeId::new(0), TypeId::new(1), false)?)
}

fn resolve<R: Abort>(rt: &R, alloc: Global, factory: &Factory) {
    let (a, b, c) = (TypeId::new(0), TypeId::new(1), TypeId::new(2));
    assert!(rt; told(alloc, factory, a, b"uvm_test_top.x") == Ok((Ok(c), Some(ByType(b)))));
    assert!(rt; told(alloc, factory, b, b"uvm_test_top.x") == Ok((Ok(c), Some(ByInstance(c)))));
    assert!(rt; told(alloc, factory, a, b"uvm_test_top") == Ok((Ok(b), Some(ByType(b)))));
    assert!(rt; ByInstance(c).new_type() == c);
}

// Returns the type that is made for a type at a path, and the override step there. Errors: those of the path.
fn told(
    alloc: Global,
    factory: &Factory,
    type_id: TypeId,
    path: &[u8],
) -> Result<(Result<TypeId, Unmade>, Option<OverrideStep>), PathFault> {
    let path = Path::parse(alloc, path)?;
    Ok((
        factory.resolve(type_id, &path),
        factory.step(type_id, &path),
    ))
}

#[test]
fn types_are_found_by_name_and_number(rt: HostRuntime) -> Result<(), Fail> {
    let name = Name::new(b"S")?;
    let mut factory = Factory::new(rt.alloc());
    register_letters(&mut factory)?;
    assert!(rt; is_found(&factory, &name, TypeId::new(3), Kind::Sequence));
    Ok(())
}

fn is_found(factory: &Factory, name: &Name, type_id: TypeId, kind: Kind) -> bool {
    factory.find(name) == Some(type_id)
        && factory.kind_of(type_id) == Some(kind)
        && is_named(factory, type_id, name)
}

fn is_named(factory: &Factory, type_id: TypeId, name: &Name) -> bool {
    match factory.name_of(type_id) {
        Some(found) => *found == *name,
        None => false,
    }
}

#[test]
fn one_type_too_many_is_refused(rt: HostRuntime) -> Result<(), Fail> {
    let mut factory = Factory::new(rt.alloc());
    fill(&rt, rt.alloc(), &mut factory)
}

// Registers `Factory::MAX_TYPES` components, type0 and so on. Then a known name fails with `Known`, and a new one with `Full`.
fn fill<R: Abort>(rt: &R, alloc: Global, factory: &mut Factory) -> Result<(), Fail> {
    for place in 0..Factory::MAX_TYPES {
        factory.register(numbered(alloc, place)?, Kind::Component)?;
    }
    let (known, another) = (numbered(alloc, 7)?, numbered(alloc, Factory::MAX_TYPES)?);
    assert!(rt; factory.register(known, Kind::Sequence) == Err(FactoryFault::Known));
    assert!(rt; factory.register(another, Kind::Sequence) == Err(FactoryFault::Full));
    Ok(())
}

fn numbered(alloc: Global, place: usize) -> Result<Name, Fail> {
    let text = format!(in alloc; "type{place}")?;
    Ok(Name::new(text.as_bytes())?)
}

#[test]
fn a_refusal_for_memory_changes_no_type_and_no_step(rt: HostRuntime) -> Result<(), Fail> {
    let mut factory = Factory::new(rt.alloc());
    override_again(&rt, rt.alloc(), &mut factory)
}

// Registers and overrides 12 types, more than the maps have capacity for at first, and checks each. The factory has what it
// accepted. After an out-of-memory error nothing has changed.
fn override_again<R: Abort>(rt: &R, alloc: Global, factory: &mut Factory) -> Result<(), Fail> {
    for place in 0..12 {
        let name = numbered(alloc, usize::from(place))?;
        let registered = factory.register(name, Kind::Component);
        assert!(rt; factory.find(&name) == registered.ok());
        if registered.is_err() {
            let _ = factory.register(name, Kind::Component)?;
        }
        assert!(rt; factory.find(&name) == Some(TypeId::new(place)));
        assert!(rt; is_overridden_or_unchanged(alloc, factory, TypeId::new(place))?);
    }
    Ok(())
}

// Overrides a type everywhere by type 0. Returns whether the override applies, or memory ran out and none applies.
fn is_overridden_or_unchanged(
    alloc: Global,
    factory: &mut Factory,
    type_id: TypeId,
) -> Result<bool, Fail> {
    let scope = Glob::new(alloc, b"*")?;
    let given = factory.override_inst(type_id, TypeId::new(0), scope);
    let step = told(alloc, factory, type_id, b"x")?.1;
    Ok(match given {
        Ok(()) => step == Some(ByInstance(TypeId::new(0))),
        Err(fault) => fault == FactoryFault::Memory && step == None,
    })
}

#[test]
fn faults_are_printed(rt: HostRuntime) -> Result<(), Fail> {
    assert!(rt; is_printed(rt.alloc(), &FactoryFault::Known, "type known")?);
    Ok(())
}

#[test]
fn why_nothing_is_made_is_printed(rt: HostRuntime) -> Result<(), Fail> {
    assert!(rt; is_printed(rt.alloc(), &Unmade::Loop, "override loop")?);
    Ok(())
}
