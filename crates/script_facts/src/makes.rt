//! The types of the objects of a run, gathered in one pass over the log when a line first tells one.

use crate::facts::Facts;
use crate::records::{kept, place_of};
use crate::types::Types;
use std::alloc::{AllocError, Global};
use std::collections::HashMap;
use uvm_glob::Name;
use uvm_object::{Act, Entry, Log, Outcome, StoredAct, Who};
use uvm_tree::NodeId;

/// The types of the objects of a run.
#[derive(Drop)]
pub struct Makes {
    // The place in `made` of the type of each component.
    components: HashMap<NodeId, usize>,
    // That of each sequence, in the order of their numbers.
    sequences: Vec<usize>,
    /// The types of which objects were made, each once.
    pub made: Vec<Name>,
    // The place of each in `made`.
    places: HashMap<Name, usize>,
    // The place in `made` of the type of the last object.
    last: usize,
}

impl Makes {
    // Gathers the types of the objects. `types` are those before the first entry. Errors: out of memory.
    fn of_log(alloc: Global, log: &Log, types: &mut Types<'_>) -> Result<Makes, AllocError> {
        let mut makes = Makes {
            components: HashMap::new(alloc),
            sequences: Vec::new(alloc),
            made: Vec::new(alloc),
            places: HashMap::new(alloc),
            last: 0,
        };
        for (place, entry) in log.iter().enumerate() {
            if let Entry::Did { who, outcome, act } = entry {
                match outcome.get() {
                    Outcome::Made(made) => makes.add_component(types, who, made, act)?,
                    Outcome::Started(id) => {
                        if let Some(made) = types.of_sequence(log, id, act)? {
                            let made = makes.place(made)?;
                            makes.sequences.push(made)?;
                        }
                    }
                    Outcome::Done => types.keep(place)?,
                    _ => {}
                }
            }
        }
        Ok(makes)
    }

    // Adds a component of a type. Errors: out of memory.
    fn add_component(
        &mut self,
        types: &Types<'_>,
        who: &Who,
        made: Name,
        act: &StoredAct,
    ) -> Result<(), AllocError> {
        let lent = act.act();
        let Act::Create { name, .. } = lent.get() else {
            return Ok(());
        };
        let Some(child) = types.child(who, name) else {
            return Ok(());
        };
        let made = self.place(made)?;
        kept(self.components.insert(child, made))
    }

    // Returns the place in `made` of a type of which an object was made. Errors: out of memory.
    fn place(&mut self, type_name: Name) -> Result<usize, AllocError> {
        if self.made.get(self.last) != Some(&type_name) {
            self.last = self.found(type_name)?;
        }
        Ok(self.last)
    }

    // Returns the place of a type in `made`, and adds it if it is new. Errors: out of memory.
    fn found(&mut self, type_name: Name) -> Result<usize, AllocError> {
        let known = self.places.get(&type_name).copied();
        if let Some(place) = known {
            return Ok(place);
        }
        let place = self.made.len();
        kept(self.places.insert(type_name, place))?;
        self.made.push(type_name)?;
        Ok(place)
    }

    /// Returns the place in `made` of the type of an object, if it was made.
    pub fn place_of(&self, who: &Who) -> Option<usize> {
        match who {
            Who::Node(node) => self.components.get(node).copied(),
            Who::Sequence { id, .. } => self.sequences.get(place_of(*id)).copied(),
        }
    }

    /// Returns the type of an object, if it was made.
    pub fn type_of(&self, who: &Who) -> Option<&Name> {
        self.made.get(self.place_of(who)?)
    }

    /// Returns whether an object of a type was made.
    pub fn has_made(&self, type_name: &Name) -> bool {
        self.places.get(type_name).is_some()
    }
}

impl<'a> Facts<'a> {
    /// Returns the types of the objects. Errors: out of memory.
    pub fn makes(&self) -> Result<&Makes, AllocError> {
        self.makes.get_or_try_init(|| {
            let mut types = Types::of_run(self.alloc, &self.world)?;
            Makes::of_log(self.alloc, self.core.log(), &mut types)
        })
    }

    /// Gathers which overrides of the script have led to an object. Errors: out of memory.
    pub fn followed(&self) -> Result<Types<'a>, AllocError> {
        Types::followed(self.alloc, &self.world, self.core.log())
    }
}
