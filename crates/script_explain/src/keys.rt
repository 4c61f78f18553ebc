//! The keys of answers that no call matched.

use script_facts::{Facts, List, Makes, Page, Section};
use script_objects::TypeRules;
use std::alloc::{AllocError, Global};
use uvm_lines::call_text;
use uvm_object::{Call, Entry};

// The greatest number of calls without a key that are kept for a type.
const MOST_CALLS: usize = 8;

// The greatest number of calls without a key that are reported of a type.
const SHOWN_CALLS: usize = 3;

// The number of calls that are kept so that equal ones are not matched again.
const LAST_CALLS: usize = 4;

// The rules of a type, and the calls that its objects received.
#[derive(Drop)]
struct Matches<'a> {
    rules: &'a TypeRules,
    // The last calls that differ, and the number of such calls so far.
    last: Vec<Call>,
    count: usize,
    // For each rule, whether a call has matched its key.
    matched: Vec<bool>,
    // The number of rules whose key no call has matched.
    left: usize,
    // Calls that match no key, each once, other than those of phases.
    others: Vec<Vec<u8>>,
}

impl<'a> Matches<'a> {
    // Begins without a call. Errors: out of memory.
    fn new(alloc: Global, rules: &'a TypeRules) -> Result<Matches<'a>, AllocError> {
        let count = rules.rules().len();
        Ok(Matches {
            rules,
            last: Vec::new(alloc),
            count: 0,
            matched: vec![in alloc; false; count]?,
            left: count,
            others: Vec::new(alloc),
        })
    }

    // Adds a call. Errors: out of memory.
    fn add(&mut self, alloc: Global, call: &Call) -> Result<(), AllocError> {
        if self.last.contains(call) {
            return Ok(());
        }
        self.keep(call)?;
        self.add_line(alloc, call)
    }

    // Keeps a call in place of the oldest of the last ones. Errors: out of memory.
    fn keep(&mut self, call: &Call) -> Result<(), AllocError> {
        match self.last.get_mut(self.count % LAST_CALLS) {
            Some(oldest) => *oldest = *call,
            None => self.last.push(*call)?,
        }
        self.count = self.count.wrapping_add(1);
        Ok(())
    }

    // Adds a call that is none of the last ones. Errors: out of memory.
    fn add_line(&mut self, alloc: Global, call: &Call) -> Result<(), AllocError> {
        let line = call_text(alloc, call)?;
        if self.is_matched(line.as_slice()) || matches!(call, Call::Phase(_)) {
            return Ok(());
        }
        if self.others.len() < MOST_CALLS && !self.others.contains(&line) {
            self.others.push(line)?;
        }
        Ok(())
    }

    // Returns whether a call matches a key, and keeps which.
    fn is_matched(&mut self, line: &[u8]) -> bool {
        let mut is_matched = false;
        for (place, rule) in self.rules.rules().iter().enumerate() {
            if !rule.is_for(line) {
                continue;
            }
            is_matched = true;
            if let Some(matched) = self.matched.get_mut(place) {
                if !*matched {
                    *matched = true;
                    self.left = self.left.saturating_sub(1);
                }
            }
        }
        is_matched
    }

    // Appends the keys that no call has matched, in quotation marks.
    fn push_idle(&self, page: &mut Page) {
        let mut list = List::new();
        for (rule, is_matched) in self.rules.rules().iter().zip(self.matched.iter()) {
            if !*is_matched && list.begin(page) {
                page.say("\"");
                page.bytes(rule.key());
                page.say("\"");
            }
        }
        list.end(page, "");
    }

    // Appends some calls that match no key, first those whose first word is that of a key that no call has matched.
    fn push_others(&self, page: &mut Page) {
        let mut count = 0usize;
        let mut list = List::new();
        for is_near in [true, false] {
            for other in &self.others {
                if count < SHOWN_CALLS && self.is_near(other.as_slice()) == is_near {
                    count = count.saturating_add(1);
                    if list.begin(page) {
                        page.say("`");
                        page.bytes(other.as_slice());
                        page.say("`");
                    }
                }
            }
        }
    }

    // Returns whether the first word of a call is that of a key that no call has matched.
    fn is_near(&self, call: &[u8]) -> bool {
        for (rule, is_matched) in self.rules.rules().iter().zip(self.matched.iter()) {
            if !*is_matched && first_word(rule.key()) == first_word(call) {
                return true;
            }
        }
        false
    }
}

// Returns the first word of a line.
fn first_word(line: &[u8]) -> &[u8] {
    match line.iter().position(|byte| *byte == b' ') {
        Some(end) => &line[..end],
        None => line,
    }
}

// Appends a line for each type whose objects received no call for some of its keys.
pub(crate) fn push_keys(
    facts: &Facts<'_>,
    has_finished: bool,
    section: &mut Section,
    page: &mut Page,
) {
    if facts.answers.types().is_empty() {
        return;
    }
    let Ok(makes) = facts.makes() else {
        page.fail();
        return;
    };
    match matches_of(facts, makes) {
        Ok(types) => {
            for matches in &types {
                let is_made = makes.has_made(matches.rules.type_name());
                push_type(is_made, has_finished, matches, section, page);
            }
        }
        Err(_) => page.fail(),
    }
}

// Returns the keys of each type that its objects' calls have matched. Errors: out of memory.
fn matches_of<'a>(facts: &Facts<'a>, makes: &Makes) -> Result<Vec<Matches<'a>>, AllocError> {
    let mut types = Vec::new(facts.alloc);
    for rules in facts.answers.types() {
        types.push(Matches::new(facts.alloc, rules)?)?;
    }
    let places = places_of(facts, makes)?;
    match_calls(facts, makes, &places, &mut types)?;
    Ok(types)
}

// Returns the place of the answers of each type of which an object was made, `usize::MAX` without answers. Errors: out of memory.
fn places_of(facts: &Facts<'_>, makes: &Makes) -> Result<Vec<usize>, AllocError> {
    let mut places = Vec::new(facts.alloc);
    for made in &makes.made {
        let types = facts.answers.types();
        let place = types.iter().position(|rules| rules.type_name() == made);
        places.push(place.unwrap_or(usize::MAX))?;
    }
    Ok(places)
}

// Matches the calls of the log with the keys of the types, until a call has matched each key. Errors: out of memory.
fn match_calls(
    facts: &Facts<'_>,
    makes: &Makes,
    places: &[usize],
    types: &mut [Matches<'_>],
) -> Result<(), AllocError> {
    let mut open = types.iter().filter(|matches| matches.left > 0).count();
    for entry in facts.core.log().iter() {
        if open == 0 {
            return Ok(());
        }
        let Entry::Heard { who, call, .. } = entry else {
            continue;
        };
        let Some(made) = makes.place_of(who) else {
            continue;
        };
        let place = places.get(made).copied();
        if let Some(matches) = place.and_then(|place| types.get_mut(place)) {
            if matches.left > 0 {
                matches.add(facts.alloc, &call.get())?;
                open = open.saturating_sub(if matches.left == 0 { 1 } else { 0 });
            }
        }
    }
    Ok(())
}

// Appends a line for a type, if no call matched some of its keys. Of a run that has not finished such a call may still come, so there is a line
// only if a call matched no key.
fn push_type(
    is_made: bool,
    has_finished: bool,
    matches: &Matches<'_>,
    section: &mut Section,
    page: &mut Page,
) {
    let name = matches.rules.type_name();
    let is_told = if is_made {
        matches.left > 0 && (has_finished || !matches.others.is_empty())
    } else {
        has_finished
    };
    if !is_told || !section.begin(page) {
        return;
    }
    page.say("answers.");
    page.name(name);
    if !is_made {
        page.say(": no object of this type was made.\n");
        return;
    }
    page.say(": no call matched ");
    matches.push_idle(page);
    page.say(".");
    if !matches.others.is_empty() {
        page.say(" Calls that match no key: ");
        matches.push_others(page);
        page.say(".");
    }
    page.say("\n");
}
