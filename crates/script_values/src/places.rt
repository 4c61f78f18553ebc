//! The places of a script: its document, the keys of the document, its arrays of tables, their rows and the keys of the rows.

ghost use Rattle.std.specs.Prelude.{◌≡◌};
ghost use Rattle.script_values.specs.Places.{array_text, column_text, columns_of, key_text};

use std::fmt;

/// A key of the document whose value is not an array.
#[derive(Clone, Copy, Debug, PartialEq, Eq)]
pub enum RootKey {
    /// `version`.
    Version,
    /// `test`.
    Test,
    /// `time_limit`.
    TimeLimit,
    /// `quit_limit`.
    QuitLimit,
    /// `runtime`.
    Runtime,
}

impl RootKey {
    /// Returns the key as a script spells it.
    pub fn text(self) -> &'static str
        ensures { result.now ≡ key_text self }
    {
        match self {
            RootKey::Version => "version",
            RootKey::Test => "test",
            RootKey::TimeLimit => "time_limit",
            RootKey::QuitLimit => "quit_limit",
            RootKey::Runtime => "runtime",
        }
    }
}

/// An array of tables of a script.
#[derive(Clone, Copy, Debug, PartialEq, Eq)]
pub enum TableArray {
    /// `type`.
    Type,
    /// `override`.
    Override,
    /// `set`.
    Set,
    /// `verbosity`.
    Verbosity,
    /// `action`.
    Action,
    /// `severity`.
    Severity,
    /// `probe`.
    Probe,
    /// `drain`.
    Drain,
}

impl TableArray {
    /// Returns the key of the array as a script spells it.
    pub fn text(self) -> &'static str
        ensures { result.now ≡ array_text self }
    {
        match self {
            TableArray::Type => "type",
            TableArray::Override => "override",
            TableArray::Set => "set",
            TableArray::Verbosity => "verbosity",
            TableArray::Action => "action",
            TableArray::Severity => "severity",
            TableArray::Probe => "probe",
            TableArray::Drain => "drain",
        }
    }

    /// Returns the keys that a row of the array can have.
    pub fn columns(self) -> &'static [Column]
        ensures { result.now ≡ columns_of self }
    {
        match self {
            TableArray::Type => &[Column::Name, Column::Kind],
            TableArray::Override => &[Column::Orig, Column::New, Column::At, Column::Replace],
            TableArray::Set => &[Column::Scope, Column::Field, Column::Value],
            TableArray::Verbosity => &[Column::Scope, Column::Id, Column::Severity, Column::Level],
            TableArray::Action => &[Column::Scope, Column::Id, Column::Severity, Column::Actions],
            TableArray::Severity => &[Column::Scope, Column::From, Column::Id, Column::To],
            TableArray::Probe => &[Column::Type, Column::Path],
            TableArray::Drain => &[Column::Path, Column::Phase, Column::Ticks],
        }
    }
}

/// A key of a row.
#[derive(Clone, Copy, Debug, PartialEq, Eq)]
pub enum Column {
    /// `name`.
    Name,
    /// `kind`.
    Kind,
    /// `orig`.
    Orig,
    /// `new`.
    New,
    /// `at`.
    At,
    /// `replace`.
    Replace,
    /// `scope`.
    Scope,
    /// `field`.
    Field,
    /// `value`.
    Value,
    /// `id`.
    Id,
    /// `severity`.
    Severity,
    /// `level`.
    Level,
    /// `actions`.
    Actions,
    /// `from`.
    From,
    /// `to`.
    To,
    /// `type`.
    Type,
    /// `path`.
    Path,
    /// `phase`.
    Phase,
    /// `ticks`.
    Ticks,
}

impl Column {
    /// Returns the key as a script spells it.
    pub fn text(self) -> &'static str
        ensures { result.now ≡ column_text self }
    {
        match self {
            Column::Name => "name",
            Column::Kind => "kind",
            Column::Orig => "orig",
            Column::New => "new",
            Column::At => "at",
            Column::Replace => "replace",
            Column::Scope => "scope",
            Column::Field => "field",
            Column::Value => "value",
            Column::Id => "id",
            Column::Severity => "severity",
            Column::Level => "level",
            Column::Actions => "actions",
            Column::From => "from",
            Column::To => "to",
            Column::Type => "type",
            Column::Path => "path",
            Column::Phase => "phase",
            Column::Ticks => "ticks",
        }
    }
}

/// A place in a script.
#[derive(Clone, Copy, Debug, PartialEq, Eq)]
pub enum Place {
    /// The document as a whole.
    Document,
    /// A key of the document.
    Key(RootKey),
    /// An array of tables as a whole.
    Array(TableArray),
    /// A row of an array, counted from 0.
    Row(TableArray, usize),
    /// A key of a row, which is counted from 0.
    Cell(TableArray, usize, Column),
}

/// Writes the place for a reader: nothing for the document, and rows are counted from 1. Example: `override 3, new`.
impl fmt::Display for Place {
    fn fmt<W: fmt::Write>(&self, f: &mut fmt::Formatter<W>) -> fmt::Result {
        match self {
            Place::Document => Ok(()),
            Place::Key(key) => f.write_str(key.text()),
            Place::Array(array) => f.write_str(array.text()),
            Place::Row(array, row) => write!(f, "{} {}", array.text(), row.saturating_add(1)),
            Place::Cell(array, row, column) => {
                write!(
                    f,
                    "{} {}, {}",
                    array.text(),
                    row.saturating_add(1),
                    column.text()
                )
            }
        }
    }
}
