//! Decides which object the creation of a component needs, or why it is refused.

ghost use Rattle.std.specs.Prelude.{◌≡◌, ◌<◌, ◌∷◌, ◌++◌, [], List, None, Some, IfOk, IfErr, IfSome, length, option_map};
ghost use Rattle.uvm_factory.specs.declared.overrides.Override.{Override};
ghost use Rattle.uvm_factory.specs.declared.types.Kind.TheVariants.{Component};
ghost use Rattle.uvm_factory.specs.Faults.{Types, type_named};
ghost use Rattle.uvm_factory.specs.Observed.{types_of};
ghost use Rattle.uvm_factory.specs.Overrides.{made_type};
ghost use Rattle.uvm_glob.specs.Paths.{path_text};
ghost use Rattle.uvm_tree.specs.Nodes.{path_at};
ghost use Rattle.uvm_object.specs.declared.entries.Outcome.TheVariants.{Made};
ghost use Rattle.bench_history.specs.History.{type_name_or};
ghost use Rattle.bench_history.specs.Effects.{Needs, creation_effect};
ghost use Rattle.bench_history.specs.Refusals.{named_of_kind, child_refusal, creation_refusal};
ghost use Rattle.world_services.specs.Services.{IsFactory};
ghost use Rattle.world_services.specs.Creations.{IsCreationError, creation_in};

use crate::services::Services;
use bench_history::Need;
use uvm_factory::{Factory, Kind, TypeId, laws};
use uvm_glob::{Name, Path};
use uvm_object::{Fatal, Who};
use uvm_tree::{NodeId, Tree, TreeFault};

/// Why a component is not created, or a sequence not started.
#[derive(Clone, Copy, PartialEq, Eq)]
pub enum CreationError {
    /// The action is refused.
    Refused(Fatal),
    /// Out of memory.
    Memory,
}

/// Returns which object the creation of a component needs. Errors: `Refused`, with `CreatedAfterBuild`, `InvalidType` if no component type
/// has this name, or the refusal of the name; out of memory; `Refused`, with `OverrideLoop`.
#[tactic(auto, unfolding(bench_history::specs::Refusals::creation_refusal))]
pub fn what_is_created(
    services: &Services,
    performer: &Who,
    type_name: &Name,
    name: &Name,
) -> Result<Need, CreationError>
    ensures ok { IfOk result (λ need. (types : Types) (overrides : List Override) → IsFactory types overrides services.now.factory →
        creation_effect (creation_in types overrides services.now performer.now type_name.now name.now) ≡ Needs need (Made need.type_name)) }
    ensures err { IfErr result (λ fault. (types : Types) (overrides : List Override) → IsFactory types overrides services.now.factory →
        IsCreationError (creation_refusal (creation_in types overrides services.now performer.now type_name.now name.now)) fault) }
{
    if services.built {
        return Err(CreationError::Refused(Fatal::CreatedAfterBuild));
    }
    let Some(type_id) = component_named(&services.factory, type_name) else {
        return Err(CreationError::Refused(Fatal::InvalidType));
    };
    let parent = performer.node();
    if let Some(fatal) = child_refusal(&services.tree, parent, name) {
        return Err(CreationError::Refused(fatal));
    }
    let Some(path) = child_path(&services.tree, parent, name) else {
        return Err(CreationError::Memory);
    };
    match made_name(&services.factory, type_id, type_name, &path) {
        Some(type_name) => Ok(Need {
            kind: Kind::Component,
            type_name,
            path,
        }),
        None => Err(CreationError::Refused(Fatal::OverrideLoop)),
    }
}

// Returns the component type of a name, if there is one.
fn component_named(factory: &Factory, name: &Name) -> Option<TypeId>
    ensures named { result ≡ named_of_kind Component (types_of factory.now) name.now }
    ensures known { IfSome result (λ type_id. type_named (types_of factory.now) name.now ≡ Some type_id) }
    ensures within { IfSome result (λ type_id. type_id < length (types_of factory.now)) }
{
    let type_id = factory.find(name)?;
    match factory.kind_of(type_id) {
        Some(Kind::Component) => Some(type_id),
        _ => None,
    }
}

/// Returns why a node can have no new child of this name, if so: `ChildTaken` or `TreeLimit`.
#[tactic(auto, unfolding(uvm_tree::specs::Nodes::add_fault))]
pub fn child_refusal(tree: &Tree, parent: NodeId, name: &Name) -> Option<Fatal>
    ensures refusal { result ≡ child_refusal tree.now.nodes parent name.now }
{
    match tree.fault(parent, name) {
        None => None,
        Some(TreeFault::NameTaken) => Some(Fatal::ChildTaken),
        Some(_) => Some(Fatal::TreeLimit),
    }
}

// Returns the path of a child; `None` if out of memory.
fn child_path(tree: &Tree, parent: NodeId, name: &Name) -> Option<Path>
    requires { child_refusal tree.now.nodes parent name.now ≡ None }
    ensures { IfSome result (λ path. path ≡ path_at tree.now.nodes parent ++ name.now ∷ []) }
{
    match tree.path(parent)?.child(name) {
        Ok(path) => Some(path),
        Err(_) => None,
    }
}

/// Returns the name of the type that is created at a path instead of `type_id`; `None` if the overrides form a loop.
pub fn made_name(factory: &Factory, type_id: TypeId, asked: &Name, path: &Path) -> Option<Name>
    ensures { (types : Types) (overrides : List Override) → IsFactory types overrides factory.now → type_named types asked.now ≡ Some type_id → type_id < length types →
        option_map (λ made. type_name_or types made asked.now) (made_type overrides (length types) (path_text path.now) type_id) ≡ result }
{
    // Each override step leads to the type that replaces the earlier one.
    laws::steps_replace();
    let made = factory.resolve(type_id, path).ok()?;
    match factory.name_of(made) {
        Some(name) => Some(*name),
        None => Some(*asked),
    }
}
