//! Tests of a world before its first entry.

ghost use Rattle.std.specs.Prelude.{◌≡◌, true, IfSome, IsSome};
ghost use Rattle.world_views.specs.Worlds.{IsMaking};

use bench_history::{EventTarget, RunStage};
use bench_script::{Script, read};
use std::alloc::Global;
use std::mem::size_of;
use uvm_glob::Name;
use uvm_object::{Act, EventCall, Fatal};
use uvm_phase::{Due, Phase};
use uvm_tree::NodeId;
use world_views::{World, next, refusals, services, status};

const SCRIPT: &[u8] = b"version = 1\ntest = \"t\"\n[[type]]\nname = \"t\"\nkind = \"component\"\n";

const SCRIPT_OF_VERSION_2: &[u8] =
    b"version = 2\ntest = \"t\"\n[[type]]\nname = \"t\"\nkind = \"component\"\n";

#[test]
fn a_new_world_is_to_create_the_test(rt: HostRuntime) {
    assert!(rt; begins(rt.alloc(), SCRIPT, 1_000_000));
    assert!(rt; begins(rt.alloc(), SCRIPT_OF_VERSION_2, 8_000_000));
}

#[test]
fn events_are_small(rt: HostRuntime) {
    let size = size_of::<Due<EventTarget, EventCall>>();
    assert!(rt; size <= 48, "{size} bytes");
}

// Returns whether the world of a script has the expected first state, and a log limit of `limit` entries.
fn begins(alloc: Global, text: &[u8], limit: usize) -> bool {
    match read(alloc, text) {
        Ok(script) if script.test().is_some() => world_begins(alloc, script, limit),
        _ => false,
    }
}

// Returns whether the world has the expected first state and log limit. No other function owns a world.
fn world_begins(alloc: Global, script: Script, limit: usize) -> bool
    requires { IsSome script.test }
{
    match World::new(alloc, script) {
        Ok(world) => world.log().limit() == limit && is_right(&world),
        Err(_) => false,
    }
}

fn is_right(world: &World) -> bool
    requires { world.now.sound ≡ true }
{
    is_new(world)
        && lends_services(world)
        && creates_the_test(world)
        && refuses_unknown_types(world)
}

// Returns whether the log is empty, the run has not begun, and one action of the root is left.
fn is_new(world: &World) -> bool
    requires { world.now.sound ≡ true }
{
    world.sound()
        && world.log().is_empty()
        && !world.is_full()
        && status::stage(world) == RunStage::Before
        && status::phase(world).is_none()
        && status::reason(world).is_none()
        && !status::exit_asked(world)
        && status::newest_fate(world).is_none()
        && status::performer(world).node() == NodeId::TOP
        && status::acts_left(world) == 1
        && next::next_call(world, Phase::Build).is_none()
}

// Returns whether the factory has the type of the test, and the other services are in their first state.
fn lends_services(world: &World) -> bool
    requires { world.now.sound ≡ true }
{
    match Name::new(b"t") {
        Ok(test) => services::factory(world).find(&test).is_some() && begins_with_nothing(world),
        Err(_) => false,
    }
}

fn begins_with_nothing(world: &World) -> bool
    requires { world.now.sound ≡ true }
{
    !services::settings(world).is_full()
        && services::agenda(world).first().is_none()
        && services::reports(world).quit_count() == 0
}

// Returns whether the next action creates the test.
fn creates_the_test(world: &World) -> bool
    requires { world.now.sound ≡ true }
{
    let Some(act) = world.next_act() else {
        return false;
    };
    match act.get() {
        Act::Create { type_name, name } => {
            type_name.as_bytes() == b"t".as_slice() && name.as_bytes() == b"uvm_test_top".as_slice()
        }
        _ => false,
    }
}

// Returns whether the creation of the test would be accepted, and the creation of a component of an unknown type rejected.
fn refuses_unknown_types(world: &World) -> bool
    requires { world.now.sound ≡ true }
{
    match (creation(b"t"), creation(b"u")) {
        (Some(known), Some(unknown)) => {
            is_refused(world, &known, None) && is_refused(world, &unknown, Some(Fatal::InvalidType))
        }
        _ => false,
    }
}

// Returns whether a creation by the root would be rejected with `why`, or accepted if `why` is `None`.
fn is_refused(world: &World, act: &Act, why: Option<Fatal>) -> bool
    requires sound { world.now.sound ≡ true }
    requires makes { IsMaking act.now }
{
    let top = status::performer(world);
    refusals::refusal(world, &top, act) == Ok(why)
}

// Returns the creation of the test with this type.
fn creation(type_name: &[u8]) -> Option<Act>
    ensures { IfSome result IsMaking }
{
    let type_name = Name::new(type_name).ok()?;
    let name = Name::new(b"uvm_test_top").ok()?;
    Some(Act::Create { type_name, name })
}
