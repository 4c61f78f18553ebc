//! What stands at a place of a script, in the tree and in the text of its document.

use bench_script::{Column, FaultyScript, Place, Reason, TableArray, root_keys};
use script_spans::{Span, Step, locate};
use std::alloc::{AllocError, Global};
use toml::{Table, Value};

/// The key of the answers in a document.
pub(crate) const ANSWERS: &str = "answers";

// A document: its text, and the tree of the text.
#[derive(Clone, Copy)]
pub(crate) struct Document<'a> {
    pub(crate) text: &'a str,
    pub(crate) root: &'a Table,
}

impl<'a> Document<'a> {
    // Returns the value at a place of the script, or the value that the reason names in it.
    pub(crate) fn value_at(self, faulty: &FaultyScript) -> Option<&'a Value> {
        let value = match faulty.place {
            Place::Document => None,
            Place::Key(key) => self.root.get(key.text()),
            Place::Array(array) => self.root.get(array.text()),
            Place::Row(array, row) => self.row_at(array, row),
            Place::Cell(array, row, column) => self.table_at(array, row)?.get(column.text()),
        }?;
        match element_of(faulty.reason) {
            Some(index) => value.as_array()?.get(index),
            None => Some(value),
        }
    }

    // Returns the rows of an array of tables.
    pub(crate) fn rows(self, array: TableArray) -> &'a [Value] {
        match self.root.get(array.text()) {
            Some(value) => match value.as_array() {
                Some(rows) => rows.as_slice(),
                None => &[],
            },
            None => &[],
        }
    }

    // Returns a row of an array of tables.
    fn row_at(self, array: TableArray, row: usize) -> Option<&'a Value> {
        self.rows(array).get(row)
    }

    // Returns a row of an array of tables, if it is a table.
    pub(crate) fn table_at(self, array: TableArray, row: usize) -> Option<&'a Table> {
        self.row_at(array, row)?.as_table()
    }

    // Returns the names of the types.
    pub(crate) fn type_names(self, alloc: Global) -> Result<Vec<&'a str>, AllocError> {
        let mut names = Vec::new(alloc);
        for row in self.rows(TableArray::Type) {
            if let Some(name) = text_at(row, Column::Name) {
                names.push(name)?;
            }
        }
        Ok(names)
    }

    // Returns the first key that is not allowed at a place.
    pub(crate) fn unknown_key(self, place: Place) -> Option<&'a str> {
        match place {
            Place::Row(array, row) => self
                .table_at(array, row)?
                .keys()
                .map(|key| key.as_str())
                .find(|key| !array.columns().iter().any(|column| column.text() == *key)),
            _ => self.root.keys().map(|key| key.as_str()).find(|key| *key != ANSWERS
                && !root_keys(self.version()).contains(key)),
        }
    }

    // Returns the version that the document gives; 1 if it gives none.
    pub(crate) fn version(self) -> u64 {
        match self.root.get("version") {
            Some(Value::Integer(2)) => 2,
            _ => 1,
        }
    }

    // Returns where in the text the place of an error is.
    pub(crate) fn span_of(
        self,
        alloc: Global,
        faulty: &FaultyScript,
    ) -> Result<Option<Span>, AllocError> {
        let mut path = Vec::new(alloc);
        match faulty.place {
            Place::Document => {}
            Place::Key(key) => path.push(Step::Key(key.text()))?,
            Place::Array(array) => path.push(Step::Key(array.text()))?,
            Place::Row(array, row) | Place::Cell(array, row, _) => {
                path.push(Step::Key(array.text()))?;
                path.push(Step::Index(row))?;
            }
        }
        if let Place::Cell(_, _, column) = faulty.place {
            path.push(Step::Key(column.text()))?;
        }
        if let Some(index) = element_of(faulty.reason) {
            path.push(Step::Index(index))?;
        }
        let is_unknown = faulty.reason == Reason::UnknownKey;
        if is_unknown {
            if let Some(key) = self.unknown_key(faulty.place) {
                path.push(Step::Key(key))?;
            }
        }
        locate(alloc, self.text, path.as_slice(), is_unknown)
    }
}

// Returns the index of the element of an array that a reason names.
fn element_of(reason: Reason) -> Option<usize> {
    match reason {
        Reason::NotAction(index) | Reason::NotStringAt(index) => Some(index),
        _ => None,
    }
}

// Returns the text at a key of a row, if there is one.
pub(crate) fn text_at(row: &Value, column: Column) -> Option<&str> {
    row.as_table()?.get(column.text())?.as_str()
}
