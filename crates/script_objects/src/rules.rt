//! The rules of scripted answers.

ghost use Rattle.std.specs.Prelude.{◌≡◌, option_copied};
ghost use Rattle.script_answers.specs.Keys.{is_for};
ghost use Rattle.script_objects.specs.Rules.{answer_of, needs_item};

use script_answers::{AnswerAct, Key};
use std::marker::Model;

/// The answers of a type to the calls of one key.
#[derive(Drop)]
pub struct Rule {
    // The key: the calls that the rule answers.
    pub(crate) key: Key,
    // Whether each answer is given once, in order. Otherwise there is one answer, which is given each time.
    pub(crate) once: bool,
    // The answers.
    pub(crate) answers: Vec<Vec<AnswerAct>>,
}

impl Model for Rule {
    ghost use Rattle.std.specs.Prelude.{map};
    ghost use Rattle.script_objects.specs.Rules.{RuleValue};

    ghost Value = { RuleValue };

    ghost view = { λ rule. record { key = rule.key; once = rule.once; answers = map (λ answer. answer.items) rule.answers.items } };
}

impl Rule {
    /// Returns the key: the line of a call as in the transcript, or its first words followed by `*`.
    pub fn key(&self) -> &[u8]
        ensures { result.now ≡ self.now.key }
    {
        self.key.as_bytes()
    }

    /// Returns whether the key matches the call with this line.
    pub fn is_for(&self, line: &[u8]) -> bool
        ensures { result ≡ is_for self.now.key line.now }
    {
        self.key.is_for(line)
    }

    // Returns the answer to the call with this line, if the rule has one that can be given. `used` is the number of answers that the rule
    // has given; `has_item` says whether the call has an item.
    pub(crate) fn answer(&self, line: &[u8], used: usize, has_item: bool) -> Option<&[AnswerAct]>
        ensures { option_copied result ≡ answer_of self.now line.now used has_item }
    {
        if !self.key.is_for(line) {
            return None;
        }
        let answer = self.answers.get(if self.once { used } else { 0 })?;
        let answer = answer.as_slice();
        if has_item || !needs_item(answer) {
            Some(answer)
        } else {
            None
        }
    }
}

// Returns whether an answer passes on the item of the call.
pub(crate) fn needs_item(answer: &[AnswerAct]) -> bool
    ensures { result ≡ needs_item answer.now }
{
    answer.iter().any(|answer_act| answer_act.passes())
}
