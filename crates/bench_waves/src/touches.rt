//! Which variables an entry may have changed.

ghost use Rattle.std.specs.Prelude.{◌≡◌, true};

use crate::scopes::Scope;
use bench_core::{World, services, status};
use std::alloc::AllocError;
use uvm_glob::Name;
use uvm_object::{Act, Entry, Who};
use uvm_tree::NodeId;

// Replaces `places` by those of the variables that the newest entry may have changed. Errors: out of memory.
pub(crate) fn find_touched(
    scope: &Scope<'_>,
    world: &World,
    places: &mut Vec<usize>,
) -> Result<(), AllocError>
    requires { world.now.sound ≡ true }
{
    places.clear();
    let Some(entry) = world.log().last() else {
        return Ok(());
    };
    push_by_kind(scope, world, entry, places)?;
    if status::newest_fate(world).is_some() {
        scope.push_run(places)?;
    }
    for who in world.leaving() {
        scope.push_node(who.node(), places)?;
    }
    Ok(())
}

// Appends the places of the variables that an entry may have changed by its kind. Errors: out of memory.
fn push_by_kind(
    scope: &Scope<'_>,
    world: &World,
    entry: &Entry,
    places: &mut Vec<usize>,
) -> Result<(), AllocError>
    requires { world.now.sound ≡ true }
{
    match entry {
        Entry::Begin(_) | Entry::End(_) => scope.push_all(places),
        Entry::Heard {
            who: Who::Node(node),
            ..
        } => scope.push_node(*node, places),
        Entry::Did { who, act, .. } => push_by_act(scope, world, who, act.act().get(), places),
        Entry::Locked { sequencer, .. } | Entry::Granted { sequencer, .. } => {
            scope.push_node(*sequencer, places)
        }
        Entry::Passed { fifo, .. } => scope.push_node(*fifo, places),
        Entry::Drained { node, .. } => {
            scope.push_run(places)?;
            scope.push_node(*node, places)
        }
        _ => Ok(()),
    }
}

// Appends the places of the variables that an action may have changed. Errors: out of memory.
fn push_by_act(
    scope: &Scope<'_>,
    world: &World,
    who: &Who,
    act: &Act,
    places: &mut Vec<usize>,
) -> Result<(), AllocError>
    requires { world.now.sound ≡ true }
{
    match act {
        Act::RaiseObjection { .. } | Act::DropObjection { .. } => {
            scope.push_run(places)?;
            scope.push_node(who.node(), places)
        }
        Act::Put { port, .. }
        | Act::TryPut { port, .. }
        | Act::Take { port }
        | Act::TryTake { port }
        | Act::Peek { port }
        | Act::Write { port, .. }
        | Act::Ask { port, .. }
        | Act::ItemDone { port, .. } => push_reached(scope, world, who.node(), port, places),
        Act::Request { .. }
        | Act::Lock
        | Act::Grab
        | Act::Unlock
        | Act::Send { .. }
        | Act::EndStep => scope.push_node(who.node(), places),
        _ => Ok(()),
    }
}

// Appends the places of the variables of what a port reaches. Errors: out of memory.
fn push_reached(
    scope: &Scope<'_>,
    world: &World,
    node: NodeId,
    port: &Name,
    places: &mut Vec<usize>,
) -> Result<(), AllocError>
    requires { world.now.sound ≡ true }
{
    let Some(port) = services::tree(world).child(node, port) else {
        return Ok(());
    };
    for reached in services::wiring(world).resolve(port) {
        scope.push_node(*reached, places)?;
    }
    Ok(())
}
