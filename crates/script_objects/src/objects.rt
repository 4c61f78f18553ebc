//! Scripted objects: their answers come from a document.

ghost use Rattle.std.specs.Prelude.{◌≡◌, ◌<◌, length, map, option_map, slice_get, IfOk, IfSome, OnErr};
ghost use Rattle.script_answers.specs.AnswerActs.{act_with};
ghost use Rattle.script_objects.specs.Rules.{answers_to};
ghost use Rattle.script_objects.specs.Scripted.{ScriptedSays, new_of};

use crate::rules::Rule;
use script_answers::{AnswerAct, item_in};
use std::alloc::{AllocError, Global};
use std::marker::Model;
use uvm_glob::Name;
use uvm_lines::call_text;
use uvm_object::{Acts, Call, UvmObject};
use uvm_tlm::Item;

/// An object whose answers come from a document. It returns the answer of the first of its rules that has one for the call. It returns no
/// actions if no rule has one.
///
/// View: the number of answers that each of its rules has given, initially 0 and at most 2^64 - 1.
#[derive(Drop)]
pub struct Scripted<'a> {
    type_name: Name,
    rules: &'a [Rule],
    // The number of answers that each rule has given.
    used: Vec<usize>,
}

impl<'a> Model for Scripted<'a> {
    ghost use Rattle.script_objects.specs.Scripted.{ScriptedValue};

    ghost Value = { ScriptedValue };

    ghost view = { λ scripted. record { type_name = scripted.type_name; rules = scripted.rules.now; used = scripted.used.items } };
}

impl<'a> Scripted<'a> {
    /// Creates an object of a type, with the rules of the type. No rule has given an answer. Errors: out of memory.
    pub fn new(
        alloc: Global,
        type_name: &Name,
        rules: &'a [Rule],
    ) -> Result<Scripted<'a>, AllocError>
        ensures { IfOk result (λ scripted. scripted ≡ new_of type_name.now rules.now) }
    {
        Ok(Scripted {
            type_name: *type_name,
            rules,
            used: vec![in alloc; 0; rules.len()]?,
        })
    }

    /// Returns the number of answers that each of its rules has given.
    pub fn counts(&self) -> &[usize]
        ensures { result.now ≡ self.now.used }
    {
        self.used.as_slice()
    }

    /// Returns the actions that the object answers to a call, and counts the answer of its rule. Errors: out of memory. An error changes
    /// nothing.
    pub fn answer_call(&mut self, alloc: Global, call: &Call) -> Result<Acts, AllocError>
        ensures said { IfOk result (λ acts. ScriptedSays self.old.rules self.old.used call.now acts self.new.used) }
        ensures same { self.new ≡ record self.old { used = self.new.used } }
        ensures err { OnErr result (self.new ≡ self.old) }
    {
        let line = call_text(alloc, call)?;
        let item = item_in(call);
        match self.answer(line.as_slice(), item.is_some()) {
            Some((place, answer)) => {
                let acts = acts_of(alloc, answer, item)?;
                self.used[place] = self.used[place].saturating_add(1);
                Ok(acts)
            }
            None => Ok(Acts::new(alloc)),
        }
    }

    // Returns the place and the answer of the first rule that has an answer to a call. `line` is the line of the call; `has_item` says
    // whether the call has an item.
    fn answer(&self, line: &[u8], has_item: bool) -> Option<(usize, &'a [AnswerAct])>
        ensures found { option_map (λ found. (found.0, found.1.now)) result ≡ slice_get (answers_to self.now.rules self.now.used line.now has_item) 0 }
        ensures place { IfSome result (λ found. found.0 < length self.now.used) }
    {
        for (place, rule) in self.rules.iter().enumerate() {
            let used = *self.used.get(place)?;
            if let Some(answer) = rule.answer(line, used, has_item) {
                return Some((place, answer));
            }
        }
        None
    }
}

impl UvmObject for Scripted<'_> {
    ghost use Rattle.script_objects.specs.Scripted.{ScriptedSays};

    ghost view = { λ scripted. scripted.used };

    ghost name = { λ scripted. scripted.type_name };

    ghost says = { λ scripted. ScriptedSays scripted.rules };

    fn type_name(&self) -> &Name {
        &self.type_name
    }

    fn hear(&mut self, alloc: Global, call: &Call) -> Result<Acts, AllocError> {
        self.answer_call(alloc, call)
    }
}

// Returns the actions of an answer, with the item of the call in place of each `*`. Errors: out of memory.
fn acts_of(alloc: Global, answer: &[AnswerAct], item: Option<Item>) -> Result<Acts, AllocError>
    ensures { IfOk result (λ acts. acts ≡ map (act_with item) answer.now) }
{
    let mut acts = Acts::new(alloc);
    for answer_act in answer {
        acts.push(answer_act.act_with(item)?)?;
    }
    Ok(acts)
}
