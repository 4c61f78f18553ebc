//! The scripted objects of a run, by component and sequence.

ghost use Rattle.std.specs.Prelude.{if◌then◌else◌, ◌≡◌, IfOk, MatchOption, None, OnErr, OnOk, Some, is_some, option_map};
ghost use Rattle.script_objects.specs.Answers.{rules_named};
ghost use Rattle.script_objects.specs.Scripted.{new_of};
ghost use Rattle.std.specs.HashMap.{get};
ghost use Rattle.uvm_acts.specs.declared.acts.Who.{Who};
ghost use Rattle.uvm_acts.specs.contracts.acts.WhoPartialEq.TheImpl as who_eq;
ghost use Rattle.script_objects.specs.Seats.{ChangesAt, acts_by, object_after, object_of};

use crate::{Answers, Rule, Scripted};
use std::alloc::{AllocError, Global};
use std::collections::HashMap;
use std::marker::Model;
use uvm_glob::Name;
use uvm_object::{Acts, Call, Who};

/// The scripted objects of a run, one for each component and each sequence whose type has answers. They are kept until the run ends.
#[derive(Drop)]
pub struct ScriptedSeats<'a> {
    answers: &'a Answers,
    objects: HashMap<Who, Scripted<'a>>,
}

impl<'a> Model for ScriptedSeats<'a> {
    ghost use Rattle.script_objects.specs.Seats.{SeatsValue};

    ghost Value = { SeatsValue };

    ghost view = { λ s. record { answers = s.answers.now; held = s.objects.entries } };
}

impl<'a> ScriptedSeats<'a> {
    /// Creates an empty set of objects, with the answers of all types. Allocates no memory.
    pub fn new(alloc: Global, answers: &'a Answers) -> ScriptedSeats<'a>
        ensures answers { result.answers ≡ answers.now }
        ensures objects { (who : Who) → object_of result who ≡ None }
    {
        ScriptedSeats {
            answers,
            objects: HashMap::new(alloc),
        }
    }

    /// Returns whether a type has answers.
    pub fn has_type(&self, type_name: &Name) -> bool
        ensures { result ≡ is_some (rules_named self.now.answers type_name.now) }
    {
        self.answers.of_type(type_name).is_some()
    }

    /// Returns whether a component or a sequence has a scripted object.
    pub fn holds(&self, who: &Who) -> bool
        ensures { result ≡ is_some (object_of self.now who.now) }
    {
        self.objects.contains_key(who)
    }

    /// Adds a new object of a type for a component or a sequence, in place of an earlier one. Does nothing if the type has no answers.
    /// Errors: out of memory. An error changes nothing.
    pub fn insert(&mut self, alloc: Global, who: Who, type_name: &Name) -> Result<(), AllocError>
        ensures ok { OnOk result (MatchOption (rules_named self.old.answers type_name.now) (self.new ≡ self.old) (λ rules. ChangesAt who (Some (new_of type_name.now rules)) self.old self.new)) }
        ensures err { OnErr result (self.new ≡ self.old) }
    {
        match self.answers.of_type(type_name) {
            Some(rules) => self.insert_new(alloc, who, type_name, rules),
            None => Ok(()),
        }
    }

    // Adds a new object with the rules of its type. Errors: out of memory. An error changes nothing.
    fn insert_new(
        &mut self,
        alloc: Global,
        who: Who,
        type_name: &Name,
        rules: &'a [Rule],
    ) -> Result<(), AllocError>
        ensures ok { OnOk result (ChangesAt who (Some (new_of type_name.now rules.now)) self.old self.new) }
        ensures err { OnErr result (self.new ≡ self.old) }
    {
        let object = Scripted::new(alloc, type_name, rules)?;
        insert_at(&mut self.objects, who, object)
    }

    /// Returns the actions that the object of a component or a sequence answers to a call. Returns `None` if there is no object. Errors:
    /// out of memory.
    pub fn hear(
        &mut self,
        alloc: Global,
        who: &Who,
        call: &Call,
    ) -> Result<Option<Acts>, AllocError>
        ensures acts { IfOk result (λ acts. acts ≡ option_map (acts_by call.now) (object_of self.old who.now)) }
        ensures after { OnOk result (ChangesAt who.now (option_map (object_after call.now) (object_of self.old who.now)) self.old self.new) }
    {
        hear_at(&mut self.objects, alloc, who, call)
    }
}

// Adds an object for a component or a sequence. Errors: out of memory. An error changes nothing.
fn insert_at<'a>(
    objects: &mut HashMap<Who, Scripted<'a>>,
    who: Who,
    object: Scripted<'a>,
) -> Result<(), AllocError>
    ensures ok { OnOk result ((other : Who) → get (who_eq.ghosts).eq objects.new other ≡ (if (who_eq.ghosts).eq who other then Some object.entry else get (who_eq.ghosts).eq objects.old other)) }
    ensures err { OnErr result (objects.new.entries ≡ objects.old.entries) }
{
    objects.insert(who, object)?;
    Ok(())
}

// Returns the actions that the object of a component or a sequence answers to a call. Returns `None` if there is no object. Errors: out of
// memory.
fn hear_at(
    objects: &mut HashMap<Who, Scripted<'_>>,
    alloc: Global,
    who: &Who,
    call: &Call,
) -> Result<Option<Acts>, AllocError>
    ensures acts { IfOk result (λ acts. acts ≡ option_map (acts_by call.now) (get (who_eq.ghosts).eq objects.old who.now)) }
    ensures after { OnOk result ((other : Who) → get (who_eq.ghosts).eq objects.new other ≡ (if (who_eq.ghosts).eq who.now other then option_map (object_after call.now) (get (who_eq.ghosts).eq objects.old who.now) else get (who_eq.ghosts).eq objects.old other)) }
{
    match objects.get_mut(who) {
        Some(object) => answer_of(object, alloc, call),
        None => Ok(None),
    }
}

// Returns the actions that an object answers to a call. Errors: out of memory.
#[tactic(auto, using(crate::proofs::Answering::acts_said, crate::proofs::Answering::object_said))]
fn answer_of(
    object: &mut Scripted<'_>,
    alloc: Global,
    call: &Call,
) -> Result<Option<Acts>, AllocError>
    ensures acts { IfOk result (λ acts. acts ≡ Some (acts_by call.now object.old)) }
    ensures after { OnOk result (object.new ≡ object_after call.now object.old) }
{
    Ok(Some(object.answer_call(alloc, call)?))
}
