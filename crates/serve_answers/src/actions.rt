//! Reads the action of a line.

ghost use Rattle.std.specs.Prelude.{◌≡◌, ◌⊎◌, IfErr, IfOk};
ghost use Rattle.script_answer_acts.specs.Lines.{act_line};
ghost use Rattle.script_answers.specs.Reading.{CanBeSaid};
ghost use Rattle.script_answers.specs.AnswerActs.{IsNoLine};

use crate::laws::lines_are_shown;
use script_answer_acts::laws::forwards_are_no_acts;
use script_answers::{AnswerAct, LineFault};
use std::alloc::Global;
use std::str;
use uvm_object::Act;

/// Returns the action of a line.
///
/// Errors: `NoAct` if it is the line of no action; `Memory` if out of memory.
pub(crate) fn action_in(alloc: Global, line: &[u8]) -> Result<Act, LineFault>
    ensures ok { IfOk result (λ act. act_line act ≡ line.now) }
    ensures can { IfOk result CanBeSaid }
    ensures err { IfErr result (λ fault. (fault ≡ LineFault.Memory) ⊎ ((fault ≡ LineFault.NoAct) × IsNoLine line.now)) }
{
    lines_are_shown();
    forwards_are_no_acts();
    let Ok(text) = str::from_utf8(line) else {
        return Err(LineFault::NoAct);
    };
    match AnswerAct::read(alloc, text) {
        Ok(AnswerAct::Says(act)) => Ok(act),
        Ok(AnswerAct::Passes(_)) => Err(LineFault::NoAct),
        Err(fault) => Err(fault),
    }
}
