//! The actions of the answers of a document, with their places.

use crate::places::ANSWERS;
use script_spans::Step;
use std::alloc::{AllocError, Global};
use toml::{Table, Value};

// An action of an answer, and its place.
#[derive(Clone, Copy, Drop)]
pub(crate) struct ActionAt<'a> {
    // The key of the type.
    pub(crate) type_name: &'a str,
    // The key of the call.
    pub(crate) call: &'a str,
    // The index of the action, or of its answer if the value of the call is an array of answers.
    index: usize,
    // The index of the action in its answer, if the value of the call is an array of answers.
    inner: Option<usize>,
    // The text of the action.
    pub(crate) text: &'a str,
}

impl<'a> ActionAt<'a> {
    // Returns the type that the action creates, starts, or puts in place of another.
    pub(crate) fn made_type(&self) -> Option<&'a str> {
        let mut words = self.text.split(' ');
        match words.next()? {
            "create" | "start" => words.next(),
            "override" => {
                words.next()?;
                words.next()
            }
            _ => None,
        }
    }

    // Returns the type in whose place the action puts another.
    pub(crate) fn replaced_type(&self) -> Option<&'a str> {
        let mut words = self.text.split(' ');
        match words.next()? {
            "override" => words.next(),
            _ => None,
        }
    }

    // Returns the steps that lead to the action in the document. Errors: out of memory.
    pub(crate) fn path(&self, alloc: Global) -> Result<Vec<Step<'a>>, AllocError> {
        let mut path = Vec::new(alloc);
        path.push(Step::Key(ANSWERS))?;
        path.push(Step::Key(self.type_name))?;
        path.push(Step::Key(self.call))?;
        path.push(Step::Index(self.index))?;
        if let Some(inner) = self.inner {
            path.push(Step::Index(inner))?;
        }
        Ok(path)
    }
}

// Returns the actions of a table of answers, in the order of its types and calls. Errors: out of memory.
pub(crate) fn actions_in(alloc: Global, answers: &Table) -> Result<Vec<ActionAt<'_>>, AllocError> {
    let mut actions = Vec::new(alloc);
    for (type_name, calls) in answers.iter() {
        let Some(calls) = calls.as_table() else {
            continue;
        };
        for (call, answer) in calls.iter() {
            push_actions(type_name.as_str(), call.as_str(), answer, &mut actions)?;
        }
    }
    Ok(actions)
}

// Appends the actions of the value of a call. Errors: out of memory.
fn push_actions<'a>(
    type_name: &'a str,
    call: &'a str,
    answer: &'a Value,
    actions: &mut Vec<ActionAt<'a>>,
) -> Result<(), AllocError> {
    let Some(elements) = answer.as_array() else {
        return Ok(());
    };
    for (index, element) in elements.iter().enumerate() {
        let place = ActionAt {
            type_name,
            call,
            index,
            inner: None,
            text: "",
        };
        match element.as_array() {
            Some(inner) => push_inner(place, inner.as_slice(), actions)?,
            None => push_text(place, element, actions)?,
        }
    }
    Ok(())
}

// Appends the actions of an answer among several. Errors: out of memory.
fn push_inner<'a>(
    answer: ActionAt<'a>,
    elements: &'a [Value],
    actions: &mut Vec<ActionAt<'a>>,
) -> Result<(), AllocError> {
    for (index, element) in elements.iter().enumerate() {
        let place = ActionAt {
            inner: Some(index),
            ..answer
        };
        push_text(place, element, actions)?;
    }
    Ok(())
}

// Appends an action if its value is a string. Errors: out of memory.
fn push_text<'a>(
    place: ActionAt<'a>,
    value: &'a Value,
    actions: &mut Vec<ActionAt<'a>>,
) -> Result<(), AllocError> {
    if let Some(text) = value.as_str() {
        actions.push(ActionAt { text, ..place })?;
    }
    Ok(())
}
