//! Why a script is rejected, and where.

ghost use Rattle.std.specs.Prelude.{◌≡◌, None};
ghost use Rattle.script_values.specs.Places.{at_place, fault_of, in_column, in_row};

use crate::faults::ScriptFault;
use crate::places::{Column, Place, TableArray};
use std::alloc::{AllocError, AllocFailed};
use thiserror::Error;
use uvm_glob::PathFault;

/// Why a value, a row or a document is rejected. Each reason is a case of one fault of `ScriptFault`.
#[derive(Clone, Copy, Debug, PartialEq, Eq, Error)]
pub enum Reason {
    /// The bytes are not UTF-8.
    #[error("the bytes are not UTF-8")]
    NotText,
    /// The text is not TOML.
    #[error("the text is not TOML")]
    NotToml,
    /// The file has more than 1,048,576 bytes.
    #[error("more than 1,048,576 bytes")]
    TooLong,
    /// A key that is not allowed there.
    #[error("a key that is not allowed there")]
    UnknownKey,
    /// A required key is missing.
    #[error("the key is missing")]
    Missing,
    /// The value is not a table.
    #[error("not a table")]
    NotTable,
    /// The value is not an array.
    #[error("not an array")]
    NotArray,
    /// The value is not a string.
    #[error("not a string")]
    NotString,
    /// The element at this index of the array is not a string.
    #[error("element {0} is not a string")]
    NotStringAt(usize),
    /// The value is not an integer.
    #[error("not an integer")]
    NotInteger,
    /// The value is not a Boolean.
    #[error("not a Boolean")]
    NotBoolean,
    /// The new type of an override is of another kind than the original type.
    #[error("the two types are of different kinds")]
    KindsDiffer,
    /// The test is a sequence type.
    #[error("a sequence type, but tests are components")]
    SequenceTest,
    /// The integer is not from 0 to this.
    #[error("not from 0 to {0}")]
    NotInRange(u64),
    /// The array has more tables than this.
    #[error("more than {0} tables")]
    TooManyRows(usize),
    /// The string is not the name of a kind of type.
    #[error("not a kind of type")]
    NotKind,
    /// The string is not the name of a severity.
    #[error("not a severity")]
    NotSeverity,
    /// The string at this index of the array is not the name of an action.
    #[error("element {0} is not an action")]
    NotAction(usize),
    /// The string is not the name of a phase that takes time.
    #[error("not a phase that takes time")]
    NotTaskPhase,
    /// The string is not a name.
    #[error("not a name")]
    BadName(PathFault),
    /// The string is not a glob.
    #[error("not a glob")]
    BadGlob(PathFault),
    /// The string is not a path.
    #[error("not a path")]
    BadPath(PathFault),
    /// A type before has the name.
    #[error("a type has this name")]
    NameTaken,
    /// No type of the script has the name.
    #[error("no type has this name")]
    UnknownType,
    /// The version is neither 1 nor 2.
    #[error("the version is neither 1 nor 2")]
    Version,
    /// Out of memory; the script itself may be correct.
    #[error("out of memory")]
    Memory,
}

impl Reason {
    /// Returns the fault that this reason is a case of.
    pub fn fault(self) -> ScriptFault
        ensures { result ≡ fault_of self }
    {
        match self {
            Reason::NotText => ScriptFault::NotText,
            Reason::NotToml => ScriptFault::NotToml,
            Reason::TooLong => ScriptFault::TooLong,
            Reason::UnknownKey => ScriptFault::UnknownKey,
            Reason::Missing => ScriptFault::Missing,
            Reason::NotTable
            | Reason::NotArray
            | Reason::NotString
            | Reason::NotStringAt(_)
            | Reason::NotInteger
            | Reason::NotBoolean
            | Reason::KindsDiffer
            | Reason::SequenceTest => ScriptFault::WrongKind,
            Reason::NotInRange(_)
            | Reason::TooManyRows(_)
            | Reason::NotKind
            | Reason::NotSeverity
            | Reason::NotAction(_)
            | Reason::NotTaskPhase => ScriptFault::OutOfRange,
            Reason::BadName(_) | Reason::BadGlob(_) | Reason::BadPath(_) | Reason::NameTaken =>
                ScriptFault::BadName,
            Reason::UnknownType => ScriptFault::UnknownType,
            Reason::Version => ScriptFault::Version,
            Reason::Memory => ScriptFault::Memory,
        }
    }
}

/// Why a row is rejected, and at which of its keys.
#[derive(Clone, Copy, Debug, PartialEq, Eq)]
pub struct FaultyRow {
    /// The reason.
    pub reason: Reason,
    /// The key, or `None` if the row as a whole is at fault.
    pub column: Option<Column>,
}

/// Why a script is rejected, and where.
#[derive(Clone, Copy, Debug, PartialEq, Eq)]
pub struct FaultyScript {
    /// The reason.
    pub reason: Reason,
    /// The place. If memory ran out, this is the document.
    pub place: Place,
}

impl FaultyRow {
    // Creates the error of a row as a whole.
    pub(crate) fn whole(reason: Reason) -> FaultyRow
        ensures { result ≡ record { reason = reason; column = None } }
    {
        FaultyRow {
            reason,
            column: None,
        }
    }
}

impl FaultyScript {
    // Creates the error of an array as a whole.
    pub(crate) fn at_array(reason: Reason, array: TableArray) -> FaultyScript
        ensures { result ≡ record { reason = reason; place = Place.Array array } }
    {
        FaultyScript {
            reason,
            place: Place::Array(array),
        }
    }
}

/// Returns the result of reading a key of a row. Errors: the reason, at this key.
pub fn in_column<T: Drop>(read: Result<T, Reason>, column: Column) -> Result<T, FaultyRow>
    ensures { result ≡ in_column column read }
{
    match read {
        Ok(value) => Ok(value),
        Err(reason) => Err(FaultyRow {
            reason,
            column: Some(column),
        }),
    }
}

/// Returns the result of reading a row. Errors: the reason, at this row of the array, counted from 0, or at a key of the row.
pub fn in_row<T: Drop>(
    read: Result<T, FaultyRow>,
    array: TableArray,
    row: usize,
) -> Result<T, FaultyScript>
    ensures { result ≡ in_row array row read }
{
    match read {
        Ok(value) => Ok(value),
        Err(faulty) => Err(FaultyScript {
            reason: faulty.reason,
            place: match faulty.column {
                Some(column) => Place::Cell(array, row, column),
                None => Place::Row(array, row),
            },
        }),
    }
}

/// Returns the result of reading a key, an array as a whole or the document as a whole. Errors: the reason, at this place.
pub fn at_place<T: Drop>(read: Result<T, Reason>, place: Place) -> Result<T, FaultyScript>
    ensures { result ≡ at_place place read }
{
    match read {
        Ok(value) => Ok(value),
        Err(reason) => Err(FaultyScript { reason, place }),
    }
}

impl<T: Drop> From<AllocFailed<T>> for Reason {
    ghost use Rattle.script_values.specs.declared.reasons.Reason.TheVariants.{Memory};

    ghost from_gives = { λ _ reason. reason ≡ Memory };

    fn from(_: AllocFailed<T>) -> Reason {
        Reason::Memory
    }
}

impl From<AllocError> for FaultyScript {
    ghost use Rattle.script_values.specs.Places.{out_of_memory};

    ghost from_gives = { λ _ faulty. faulty ≡ out_of_memory };

    fn from(_: AllocError) -> FaultyScript {
        FaultyScript {
            reason: Reason::Memory,
            place: Place::Document,
        }
    }
}

impl<T: Drop> From<AllocFailed<T>> for FaultyScript {
    ghost use Rattle.script_values.specs.Places.{out_of_memory};

    ghost from_gives = { λ _ faulty. faulty ≡ out_of_memory };

    fn from(_: AllocFailed<T>) -> FaultyScript {
        FaultyScript {
            reason: Reason::Memory,
            place: Place::Document,
        }
    }
}

impl From<Reason> for ScriptFault {
    ghost use Rattle.script_values.specs.Places.{fault_of};

    ghost from_gives = { λ reason fault. fault ≡ fault_of reason };

    fn from(reason: Reason) -> ScriptFault {
        reason.fault()
    }
}

impl From<FaultyScript> for ScriptFault {
    ghost use Rattle.script_values.specs.Places.{fault_of};

    ghost from_gives = { λ faulty fault. fault ≡ fault_of faulty.reason };

    fn from(faulty: FaultyScript) -> ScriptFault {
        faulty.reason.fault()
    }
}
