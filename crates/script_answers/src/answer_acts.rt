//! The actions of an answer, and how they are read.

ghost use Rattle.std.specs.Prelude.{◌≡◌, ◌⊎◌, ◌++◌, IfErr, IfNone, IfOk, IfSome, codes};
ghost use Rattle.script_answer_acts.specs.Lines.{act_line};
ghost use Rattle.script_answer_acts.specs.ForwardActs.{HasName, forward_act_stem};
ghost use Rattle.script_answers.specs.Reading.{CanBeSaid};
ghost use Rattle.script_answers.specs.AnswerActs.{CanBe, IsAlone, IsNoLine, IsNoPassing, IsNoAnswerAct, act_with, passes, answer_act_line};

use crate::acts::act_of;
use crate::faults::LineFault;
use crate::forward_acts::forward_act_of;
use crate::types::acts_fit_types;
use script_answer_acts::laws::lines_are_words;
use script_answer_acts::{ForwardAct, act_line, acts_are_sound};
use std::alloc::{AllocError, Global};
use uvm_object::Act;
use uvm_tlm::Item;

/// An action of an answer.
#[derive(Drop)]
pub enum AnswerAct {
    /// An action that is given completely.
    Says(Act),
    /// An action that passes on the item of the call.
    Passes(ForwardAct),
}

// The end of the text of a forward action, in place of the item of the call.
const HEARD: &str = " *";

impl AnswerAct {
    /// Reads an answer action: the text of an action in a transcript, and for a report also its verbosity and text. A `*` in place of an
    /// item is the item of the call. Errors: `NoAct` if the text is that of no answer action; `Memory` if out of memory.
    pub fn read(alloc: Global, line: &str) -> Result<AnswerAct, LineFault>
        ensures line { IfOk result (λ answer_act. answer_act_line answer_act ≡ line.now) }
        ensures alone { IfOk result IsAlone }
        ensures can { IfOk result CanBe }
        ensures err { IfErr result (λ fault. (fault ≡ LineFault.Memory) ⊎ ((fault ≡ LineFault.NoAct) × IsNoAnswerAct line.now)) }
    {
        if let Some(forward_act) = passing_of(line) {
            return Ok(AnswerAct::Passes(forward_act));
        }
        Ok(AnswerAct::Says(exact_act(alloc, line)?))
    }

    /// Returns whether the action passes on the item of the call.
    pub fn passes(&self) -> bool
        ensures { result ≡ passes self.now }
    {
        matches!(self, AnswerAct::Passes(_))
    }

    /// Returns the action, with `heard`, the item of the call, in place of `*`. Uses four zeros if the call has no item. Errors: out of
    /// memory.
    pub fn act_with(&self, heard: Option<Item>) -> Result<Act, AllocError>
        ensures { IfOk result (λ act. act ≡ act_with heard self.now) }
    {
        match self {
            AnswerAct::Says(act) => act.copy(),
            AnswerAct::Passes(forward_act) => Ok(forward_act.act(heard.unwrap_or(Item([0; 4])))),
        }
    }
}

// Returns the forward action with this text. Returns `None` if the text is that of no forward action.
fn passing_of(line: &str) -> Option<ForwardAct>
    ensures text { IfSome result (λ passing. forward_act_stem passing ++ codes " *" ≡ line.now) }
    ensures named { IfSome result HasName }
    ensures none { IfNone result (IsNoPassing line.now) }
{
    forward_act_of(line.strip_suffix(HEARD)?)
}

// Returns the action whose line is exactly this text. Errors: `NoAct` if it is the line of no action; `Memory` if out of memory.
fn exact_act(alloc: Global, line: &str) -> Result<Act, LineFault>
    ensures line { IfOk result (λ act. act_line act ≡ line.now) }
    ensures alone { IfOk result (λ act. IsAlone (AnswerAct.Says act)) }
    ensures can { IfOk result CanBeSaid }
    ensures err { IfErr result (λ fault. (fault ≡ LineFault.Memory) ⊎ ((fault ≡ LineFault.NoAct) × IsNoLine line.now)) }
{
    lines_are_words();
    let act = match act_of(alloc, line) {
        Ok(act) => act,
        Err(LineFault::Memory) => return Err(LineFault::Memory),
        Err(_) => return Err(LineFault::NoAct),
    };
    let text = act_line(alloc, &act)?;
    if text.as_slice() == line.as_bytes() {
        acts_are_sound(&act);
        acts_fit_types(&act);
        Ok(act)
    } else {
        Err(LineFault::NoAct)
    }
}
