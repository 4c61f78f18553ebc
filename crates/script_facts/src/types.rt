//! The types of the objects of a run, by the overrides that were given before each was made.

use crate::worlds::State;
use bench_script::factory_of;
use std::alloc::{AllocError, Global};
use std::collections::HashMap;
use uvm_factory::{Factory, FactoryFault, Override, TypeId};
use uvm_glob::{Glob, Name, Path};
use uvm_object::{Act, Entry, Log, Outcome, StoredAct, Who};
use uvm_sequences::{SeqId, Sequences};
use uvm_tree::{NodeId, Tree};

// A step from a type to the type that overrides it.
#[derive(Clone, Copy, PartialEq, Eq, Hash, Drop)]
struct Step {
    from: TypeId,
    to: TypeId,
}

// The greatest number of requested types that are kept with the types that were made.
const MOST_KNOWN: usize = 8;

// A type that was requested, and the type that was made.
#[derive(Clone, Copy, Drop)]
struct Known {
    asked: Name,
    made: Name,
}

/// The factory, as it is at an entry of the log, and the overrides of the script that have led to an object.
#[derive(Drop)]
pub struct Types<'a> {
    alloc: Global,
    factory: Factory,
    // The number of types.
    count: usize,
    // The types that have an override.
    originals: Vec<TypeId>,
    // Whether an override is for some paths only.
    has_instance: bool,
    // The types of some sequences, if no override is for some paths only and none was added since.
    known: Vec<Known>,
    // For the overrides of the script, whether they have led to a type that was made.
    rows: HashMap<Step, bool>,
    // The number of those that have not.
    left: usize,
    // The places of the accepted actions whose overrides the factory lacks.
    pending: Vec<usize>,
    // The components and the sequences at the end of the run.
    tree: &'a Tree,
    sequences: &'a Sequences,
}

impl<'a> Types<'a> {
    /// Returns the types before the first entry. Errors: out of memory.
    pub(crate) fn of_run(alloc: Global, world: &State<'a>) -> Result<Types<'a>, AllocError> {
        let mut types = Types {
            alloc,
            factory: factory_of(alloc, world.script())?,
            count: world.script().types().len(),
            originals: Vec::new(alloc),
            has_instance: false,
            known: Vec::new(alloc),
            rows: HashMap::new(alloc),
            left: 0,
            pending: Vec::new(alloc),
            tree: world.tree(),
            sequences: world.sequences(),
        };
        for row in world.script().overrides() {
            types.add_row(row)?;
        }
        types.left = types.rows.len();
        Ok(types)
    }

    // Adds an override of the script. Errors: out of memory.
    fn add_row(&mut self, row: &Override) -> Result<(), AllocError> {
        let (from, to) = match row {
            Override::Instance { original, new, .. } | Override::Whole { original, new, .. } => {
                (*original, *new)
            }
        };
        self.has_instance = self.has_instance || matches!(row, Override::Instance { .. });
        self.add_original(from)?;
        match self.rows.insert(Step { from, to }, false) {
            Ok(_) => Ok(()),
            Err(_) => Err(AllocError),
        }
    }

    // Adds a type that has an override. Errors: out of memory.
    fn add_original(&mut self, from: TypeId) -> Result<(), AllocError> {
        self.known.clear();
        if !self.originals.contains(&from) {
            self.originals.push(from)?;
        }
        Ok(())
    }

    /// Gathers which overrides of the script have led to an object of a run. Errors: out of memory.
    pub(crate) fn followed(
        alloc: Global,
        world: &State<'a>,
        log: &Log,
    ) -> Result<Types<'a>, AllocError> {
        let mut types = Types::of_run(alloc, world)?;
        for (place, entry) in log.iter().enumerate() {
            if types.left == 0 {
                break;
            }
            if let Entry::Did { who, outcome, act } = entry {
                match outcome.get() {
                    Outcome::Made(_) => types.add_component(log, who, act)?,
                    Outcome::Started(id) => {
                        let _made = types.of_sequence(log, id, act)?;
                    }
                    Outcome::Done => types.keep(place)?,
                    _ => {}
                }
            }
        }
        Ok(types)
    }

    /// Returns whether an override of a type by another has led to an object.
    pub fn has_led(&self, from: TypeId, to: TypeId) -> bool {
        matches!(self.rows.get(&Step { from, to }), Some(true))
    }

    // Keeps the place of an accepted action, which may give an override. Errors: out of memory.
    pub(crate) fn keep(&mut self, place: usize) -> Result<(), AllocError> {
        self.pending.push(place)?;
        Ok(())
    }

    // Adds the overrides of the actions that were kept. Errors: out of memory.
    fn catch_up(&mut self, log: &Log) -> Result<(), AllocError> {
        for at in 0..self.pending.len() {
            let place = self.pending.get(at).copied().unwrap_or(usize::MAX);
            if let Some(Entry::Did { who, act, .. }) = log.get(place) {
                self.add_override(who, act.act().get())?;
            }
        }
        self.pending.clear();
        Ok(())
    }

    // Adds the override of an accepted action; changes nothing for another action. Errors: out of memory.
    fn add_override(&mut self, who: &Who, act: &Act) -> Result<(), AllocError> {
        match act {
            Act::OverrideType {
                original,
                new,
                replace,
            } => match (self.factory.find(original), self.factory.find(new)) {
                (Some(from), Some(to)) => {
                    self.add_original(from)?;
                    accepted(self.factory.override_type(from, to, *replace))
                }
                _ => Ok(()),
            },
            Act::OverrideInst {
                original,
                new,
                glob,
            } => match (self.factory.find(original), self.factory.find(new)) {
                (Some(from), Some(to)) => self.add_at(who.node(), from, to, glob),
                _ => Ok(()),
            },
            _ => Ok(()),
        }
    }

    // Adds an instance override below a node. Errors: out of memory.
    fn add_at(
        &mut self,
        node: NodeId,
        from: TypeId,
        to: TypeId,
        glob: &Glob,
    ) -> Result<(), AllocError> {
        let Some(path) = self.tree.path(node) else {
            return Ok(());
        };
        let scope = Glob::under(self.alloc, path, glob)?;
        self.has_instance = true;
        self.add_original(from)?;
        accepted(self.factory.override_inst(from, to, scope))
    }

    // Notes which overrides led to a component, which an action created. Errors: out of memory.
    fn add_component(&mut self, log: &Log, who: &Who, act: &StoredAct) -> Result<(), AllocError> {
        self.catch_up(log)?;
        let lent = act.act();
        let Act::Create { type_name, name } = lent.get() else {
            return Ok(());
        };
        let Some(type_id) = self.overridden(type_name) else {
            return Ok(());
        };
        if let Some(child) = self.child(who, name) {
            if let Some(path) = self.tree.path(child) {
                let _made = self.made_at(path, type_id);
            }
        }
        Ok(())
    }

    // Returns the type of a sequence, which an action started, and notes which overrides led to it. Errors: out of memory.
    pub(crate) fn of_sequence(
        &mut self,
        log: &Log,
        id: SeqId,
        act: &StoredAct,
    ) -> Result<Option<Name>, AllocError> {
        self.catch_up(log)?;
        let lent = act.act();
        let Act::Start { type_name, .. } = lent.get() else {
            return Ok(None);
        };
        for known in &self.known {
            if known.asked == *type_name {
                return Ok(Some(known.made));
            }
        }
        let made = self.of_request(id, type_name)?;
        if !self.has_instance && self.known.len() < MOST_KNOWN {
            let asked = *type_name;
            self.known.push(Known { asked, made })?;
        }
        Ok(Some(made))
    }

    // Returns the type that is made for a sequence that was requested as one of a type. Errors: out of memory.
    fn of_request(&mut self, id: SeqId, asked: &Name) -> Result<Name, AllocError> {
        let Some(type_id) = self.overridden(asked) else {
            return Ok(*asked);
        };
        match self.made_for(id, type_id)? {
            Some(made) => Ok(self.factory.name_of(made).copied().unwrap_or(*asked)),
            None => Ok(*asked),
        }
    }

    // Returns the type that is made for a sequence, if its path is known. The names in the path count only for overrides of some paths.
    // Errors: out of memory.
    fn made_for(&mut self, id: SeqId, asked: TypeId) -> Result<Option<TypeId>, AllocError> {
        let Some(home) = self.sequences.home(id) else {
            return Ok(None);
        };
        let Some(path) = self.tree.path(home) else {
            return Ok(None);
        };
        if !self.has_instance {
            return Ok(Some(self.made_at(path, asked)));
        }
        match self.path_below(path, id)? {
            Some(path) => Ok(Some(self.made_at(&path, asked))),
            None => Ok(None),
        }
    }

    // Returns the child of a component with a name.
    pub(crate) fn child(&self, who: &Who, name: &Name) -> Option<NodeId> {
        self.tree.child(who.node(), name)
    }

    // Returns a type, if it has an override.
    fn overridden(&self, type_name: &Name) -> Option<TypeId> {
        let type_id = self.factory.find(type_name)?;
        if self.originals.contains(&type_id) {
            Some(type_id)
        } else {
            None
        }
    }

    // Returns the path of a sequence below that of its sequencer, which the overrides match. Errors: out of memory.
    fn path_below(&self, home: &Path, id: SeqId) -> Result<Option<Path>, AllocError> {
        let mut path = home.copy()?;
        for name in &self.sequences.names(self.alloc, id)? {
            path = match path.child(name) {
                Ok(path) => path,
                Err(_) => return Ok(None),
            };
        }
        Ok(Some(path))
    }

    // Returns the type that is made at a path, and notes the overrides that led to it.
    fn made_at(&mut self, path: &Path, asked: TypeId) -> TypeId {
        let mut type_id = asked;
        for _step in 0..self.count {
            let Some(step) = self.factory.step(type_id, path) else {
                break;
            };
            let to = step.new_type();
            self.note(Step { from: type_id, to });
            if to == type_id {
                break;
            }
            type_id = to;
        }
        type_id
    }

    // Notes that an override has led to an object.
    fn note(&mut self, step: Step) {
        if let Some(has_led) = self.rows.get_mut(&step) {
            if !*has_led {
                *has_led = true;
                self.left = self.left.saturating_sub(1);
            }
        }
    }
}

// Returns an error if memory ran out.
fn accepted(added: Result<(), FactoryFault>) -> Result<(), AllocError> {
    match added {
        Err(FactoryFault::Memory) => Err(AllocError),
        _ => Ok(()),
    }
}
