//! Why a creation or a start of an object would be rejected.

ghost use Rattle.std.specs.Prelude.{◌≡◌, IfOk, OnErr, true};
ghost use Rattle.bench_history.specs.Effects.{permitted_effect, refusal_in, effect_of};
ghost use Rattle.bench_world.specs.Worlds.{IsMaking};
ghost use Rattle.uvm_acts.specs.declared.acts.Act.TheVariants.{Create};
ghost use Rattle.world_sequencing.specs.SequencesMatch.{IsStart};
ghost use Rattle.world_services.specs.Creations.{IsUnmade, MayRunOutFor};

use bench_world::World;
use std::alloc::AllocError;
use uvm_glob::Name;
use uvm_object::{Act, Fatal, Who};
use world_acts_sequencers::starts::what_is_started;
use world_services::act_results::is_open_to;
use world_services::creations::{CreationError, what_is_created};

/// Returns why a creation or a start by `performer` would be refused if it were performed now, or `None`. A missing object is not a reason: it
/// shows only when the object is needed. Requires a consistent world. Errors: out of memory; it comes before the refusals of a loop of overrides
/// and, for a start, of its path, and after all others.
pub fn refusal(world: &World, performer: &Who, act: &Act) -> Result<Option<Fatal>, AllocError>
    requires sound { world.now.sound ≡ true }
    requires makes { IsMaking act.now }
    ensures ok { IfOk result (λ refusal. refusal ≡ refusal_in (effect_of world.now.script world.now.history performer.now act.now)) }
    ensures err { OnErr result (MayRunOutFor act.now (refusal_in (effect_of world.now.script world.now.history performer.now act.now))) }
{
    if !is_open_to(act, performer) {
        return Ok(Some(Fatal::NotOpen));
    }
    let unmade = match act {
        Act::Create { type_name, name } => creation_error(world, performer, type_name, name),
        Act::Start { .. } => unstarted(world, performer, act),
        _ => unreachable!(),
    };
    match unmade {
        None => Ok(None),
        Some(CreationError::Refused(fatal)) => Ok(Some(fatal)),
        Some(CreationError::Memory) => Err(AllocError),
    }
}

// Returns why a creation would be rejected, or `None`; or that memory ran out.
fn creation_error(
    world: &World,
    performer: &Who,
    type_name: &Name,
    name: &Name,
) -> Option<CreationError>
    requires { world.now.sound ≡ true }
    ensures { IsUnmade (Create type_name.now name.now) (refusal_in (permitted_effect world.now.script world.now.history performer.now (Create type_name.now name.now))) result }
{
    what_is_created(world.services(), performer, type_name, name).err()
}

// Returns why a start would be rejected, or `None`; or that memory ran out.
fn unstarted(world: &World, performer: &Who, act: &Act) -> Option<CreationError>
    requires sound { world.now.sound ≡ true }
    requires starts { IsStart act.now }
    ensures { IsUnmade act.now (refusal_in (permitted_effect world.now.script world.now.history performer.now act.now)) result }
{
    let Act::Start {
        type_name,
        name,
        on,
        priority,
    } = act
    else {
        unreachable!()
    };
    let services = world.services();
    what_is_started(
        services,
        world.alloc(),
        performer,
        type_name,
        name,
        on,
        *priority,
    )
    .err()
}
