//! The reasons why answers are rejected.

ghost use Rattle.std.specs.Prelude.{◌≡◌, None, Some, option_map};
ghost use Rattle.script_objects.specs.FirstFaults.{named_fault};

use script_answers::LineFault;
use std::error::Error;
use std::fmt;

/// The reason why an answer of a document is rejected.
#[derive(Clone, Copy, Debug, PartialEq, Eq)]
pub enum AnswerFault {
    /// A key of a type that is not a name.
    BadName,
    /// A value of a type that is not a table.
    NotTable,
    /// A value of a call that is neither an array of strings nor an array of arrays of strings.
    NoList,
    /// A key that is neither a call as in the transcript, nor the first words of a call followed by `*`.
    NoCall,
    /// A text that is not an action, or is spelled differently from the transcript.
    NoAct,
    /// An action with a `*` in place of its item, at a key whose calls never carry an item.
    NoItem,
    /// Out of memory.
    Memory,
}

/// The reason why the answers of a document are rejected, and the place. The place is a type, one of its calls, or an action for the call.
#[derive(Clone, Copy, Drop)]
pub struct FaultyAnswer<'a> {
    /// The reason.
    pub fault: AnswerFault,
    /// The key of the type.
    pub type_name: &'a str,
    /// The key of the call, if the call or an answer to it is at fault.
    pub call: Option<&'a str>,
    /// The text of the action, if the action is at fault.
    pub act: Option<&'a str>,
}

impl AnswerFault {
    // Creates this fault at a type.
    pub(crate) fn at_type(self, type_name: &str) -> FaultyAnswer<'_>
        ensures { named_fault result ≡ record { fault = self; type_name = type_name.now; call = None; act = None } }
    {
        FaultyAnswer {
            fault: self,
            type_name,
            call: None,
            act: None,
        }
    }

    // Creates this fault at a call of a type, or at an action that answers the call.
    pub(crate) fn at_call<'a>(
        self,
        type_name: &'a str,
        call: &'a str,
        act: Option<&'a str>,
    ) -> FaultyAnswer<'a>
        ensures { named_fault result ≡ record { fault = self; type_name = type_name.now; call = Some call.now; act = option_map (λ act. act.now) act.entry } }
    {
        FaultyAnswer {
            fault: self,
            type_name,
            call: Some(call),
            act,
        }
    }
}

impl fmt::Display for AnswerFault {
    ghost use Rattle.std.specs.Prelude.{Some};
    ghost use Rattle.script_objects.specs.Faults.{fault_text};

    ghost output = { λ fault. Some (fault_text fault) };

    fn fmt<W: fmt::Write>(&self, f: &mut fmt::Formatter<W>) -> fmt::Result {
        f.write_str(match self {
            AnswerFault::BadName => "not a name",
            AnswerFault::NotTable => "not a table",
            AnswerFault::NoList => "expected an array of action strings",
            AnswerFault::NoCall => "not a call",
            AnswerFault::NoAct => "not an action",
            AnswerFault::NoItem => "'*' needs a call that carries an item",
            AnswerFault::Memory => "memory",
        })
    }
}

impl Error for AnswerFault {}

/// Writes the place, the reason, and the text of the action if the action is at fault. Example:
/// `answers.driver."wake 1": not an action: creat c b`.
impl fmt::Display for FaultyAnswer<'_> {
    ghost use Rattle.std.specs.Prelude.{Some};
    ghost use Rattle.script_objects.specs.Faults.{faulty_text};

    ghost output = { λ fault. Some (faulty_text fault) };

    fn fmt<W: fmt::Write>(&self, f: &mut fmt::Formatter<W>) -> fmt::Result {
        write!(f, "answers.{}", self.type_name)?;
        if let Some(call) = self.call {
            write!(f, ".\"{call}\"")?;
        }
        write!(f, ": {}", self.fault)?;
        match self.act {
            Some(act) => write!(f, ": {act}"),
            None => Ok(()),
        }
    }
}

impl From<LineFault> for AnswerFault {
    ghost use Rattle.std.specs.Prelude.{◌≡◌};
    ghost use Rattle.script_objects.specs.Faults.{fault_of};

    ghost from_gives = { λ fault given. given ≡ fault_of fault };

    fn from(fault: LineFault) -> AnswerFault {
        match fault {
            LineFault::NoCall => AnswerFault::NoCall,
            LineFault::NoAct => AnswerFault::NoAct,
            LineFault::Memory => AnswerFault::Memory,
        }
    }
}
