//! What had no effect in a run.

use crate::keys::push_keys;
use bench_script::Setting;
use script_facts::{Facts, List, Nearest, Page, Section, reason_of};
use std::alloc::AllocError;
use std::collections::HashMap;
use std::str::from_utf8;
use uvm_factory::Override;
use uvm_glob::{Glob, Name};
use uvm_object::{Act, Entry, Outcome, Reason};
use uvm_tree::NodeId;

// The fields that objects at each node look up.
type Fields = HashMap<NodeId, Vec<Name>>;

// Appends the rows of the script and the keys of answers that had no effect. Of a run whose build phase has not ended it appends nothing.
// Fields, overrides, drains and keys are reported only if the run finished or stalled: otherwise they may have an effect later.
pub(crate) fn push_effects(facts: &Facts<'_>, page: &mut Page) {
    if !facts.records.is_built {
        return;
    }
    let mut section = Section::new("What had no effect");
    let reason = reason_of(facts.core.log());
    let is_last = matches!(reason, Some(Reason::Finished | Reason::Stall));
    push_settings(facts, is_last, &mut section, page);
    push_scopes(facts, &mut section, page);
    if is_last {
        push_overrides(facts, &mut section, page);
        push_drains(facts, &mut section, page);
        push_keys(facts, reason == Some(Reason::Finished), &mut section, page);
    }
    section.end(page);
}

// Appends a line for each row of reports whose scope matches no path.
fn push_scopes(facts: &Facts<'_>, section: &mut Section, page: &mut Page) {
    let script = facts.world.script();
    for (index, row) in script.verbosities().iter().enumerate() {
        push_scope(facts, ("verbosity ", index), &row.scope, section, page);
    }
    for (index, row) in script.actions().iter().enumerate() {
        push_scope(facts, ("action ", index), &row.scope, section, page);
    }
    for (index, row) in script.severities().iter().enumerate() {
        push_scope(facts, ("severity ", index), &row.scope, section, page);
    }
}

// Appends a row of the script: the key of its array, and its number from 1.
fn push_row((array, index): (&str, usize), page: &mut Page) {
    page.say(array);
    page.count(index.saturating_add(1));
    page.say(": ");
}

// Returns whether a glob matches the path of a node.
fn has_match(facts: &Facts<'_>, scope: &Glob) -> bool {
    if is_match(facts, scope, NodeId::TOP) {
        return true;
    }
    for node in &facts.nodes {
        if is_match(facts, scope, *node) {
            return true;
        }
    }
    false
}

// Returns whether a glob matches the path of one node.
fn is_match(facts: &Facts<'_>, scope: &Glob, node: NodeId) -> bool {
    match facts.tree.path(node) {
        Some(path) => scope.matches(path),
        None => false,
    }
}

// Appends a line if a scope matches no path. Returns whether it matches one.
fn push_scope(
    facts: &Facts<'_>,
    row: (&str, usize),
    scope: &Glob,
    section: &mut Section,
    page: &mut Page,
) -> bool {
    if has_match(facts, scope) {
        return true;
    }
    if section.begin(page) {
        push_row(row, page);
        page.say("no path matches \"");
        page.bytes(scope.as_bytes());
        page.say("\".");
        push_near(facts, scope, page);
        page.say("\n");
    }
    false
}

// Appends a sentence about the node whose name is that of a scope, or is nearest to it.
fn push_near(facts: &Facts<'_>, scope: &Glob, page: &mut Page) {
    let last = last_name(scope);
    if last.is_empty() {
        return;
    }
    let mut near = Nearest::new(facts.alloc, last);
    for node in &facts.nodes {
        let Some((_, name)) = facts.tree.under(*node) else {
            continue;
        };
        if name.as_bytes() == last.as_bytes() {
            page.say(" There is a node of that name: ");
            facts.path(*node, page);
            page.say(".");
            return;
        }
        near.add(&name, page);
    }
    near.write(page);
}

// Returns the last part of a scope that has letters of its own.
fn last_name(scope: &Glob) -> &str {
    let text = from_utf8(scope.as_bytes()).unwrap_or("");
    let mut last: &[u8] = &[];
    for part in text.split(['*', '.', '+', '?']) {
        if !part.is_empty() {
            last = part.as_bytes();
        }
    }
    from_utf8(last).unwrap_or("")
}

// Appends a line for each override that led to no object that was made.
fn push_overrides(facts: &Facts<'_>, section: &mut Section, page: &mut Page) {
    let script = facts.world.script();
    if script.overrides().is_empty() {
        return;
    }
    let Ok(types) = facts.followed() else {
        page.fail();
        return;
    };
    for (index, row) in script.overrides().iter().enumerate() {
        let (from, to) = match row {
            Override::Instance { original, new, .. } | Override::Whole { original, new, .. } => {
                (*original, *new)
            }
        };
        if types.has_led(from, to) || !section.begin(page) {
            continue;
        }
        push_row(("override ", index), page);
        page.say("no object was made of ");
        if let Some((new, _)) = script.types().get(to.place()) {
            page.name(new);
        }
        page.say(" in place of ");
        if let Some((original, _)) = script.types().get(from.place()) {
            page.name(original);
        }
        page.say(".\n");
    }
}

// Appends a line for each drain time of a component or a phase that is not there.
fn push_drains(facts: &Facts<'_>, section: &mut Section, page: &mut Page) {
    let script = facts.world.script();
    for (index, drain) in script.drains().iter().enumerate() {
        let has_node = facts.tree.find(&drain.path).is_some();
        let has_phase = !drain.phase.is_runtime() || script.has_runtime();
        if has_node && has_phase || !section.begin(page) {
            continue;
        }
        push_row(("drain ", index), page);
        if has_node {
            page.say("the phase ");
            page.say(drain.phase.name());
            page.say(" does not run.\n");
        } else {
            page.say("there is no component ");
            page.bytes(drain.path.as_bytes());
            page.say(".\n");
        }
    }
}

// Appends a line for each setting whose scope matches no path, and with `is_last` also for each whose field nothing in its scope looks up.
fn push_settings(facts: &Facts<'_>, is_last: bool, section: &mut Section, page: &mut Page) {
    let settings = facts.world.script().settings();
    if settings.is_empty() {
        return;
    }
    let Ok(fields) = fields_of(facts) else {
        page.fail();
        return;
    };
    for (index, setting) in settings.iter().enumerate() {
        if section.is_full() {
            return;
        }
        let is_placed = push_scope(facts, ("set ", index), &setting.scope, section, page);
        if is_placed && is_last && !is_looked_up(facts, &fields, setting) && section.begin(page) {
            push_row(("set ", index), page);
            push_field(facts, &fields, setting, page);
        }
    }
}

// Returns the fields that are looked up, each once for a node. Errors: out of memory.
fn fields_of(facts: &Facts<'_>) -> Result<Fields, AllocError> {
    let mut fields: Fields = HashMap::new(facts.alloc);
    for entry in facts.core.log().iter() {
        let Entry::Did { who, outcome, act } = entry else {
            continue;
        };
        if !matches!(outcome.get(), Outcome::Value(_)) {
            continue;
        }
        if let Act::Get { field } = act.act().get() {
            add_field(facts, &mut fields, who.node(), field)?;
        }
    }
    Ok(fields)
}

// Adds a field that an object at a node looks up. Errors: out of memory.
fn add_field(
    facts: &Facts<'_>,
    fields: &mut Fields,
    node: NodeId,
    field: &Name,
) -> Result<(), AllocError> {
    let mut known = match fields.remove(&node) {
        Some(known) => known,
        None => Vec::new(facts.alloc),
    };
    if !known.contains(field) {
        known.push(*field)?;
    }
    match fields.insert(node, known) {
        Ok(_) => Ok(()),
        Err(_) => Err(AllocError),
    }
}

// Returns whether something in the scope of a setting looks up its field.
fn is_looked_up(facts: &Facts<'_>, fields: &Fields, setting: &Setting) -> bool {
    for node in &facts.nodes {
        if let Some(known) = fields.get(node) {
            if known.contains(&setting.field) && is_match(facts, &setting.scope, *node) {
                return true;
            }
        }
    }
    false
}

// Appends that nothing in the scope of a setting looks up its field, and the fields that are looked up there.
fn push_field(facts: &Facts<'_>, fields: &Fields, setting: &Setting, page: &mut Page) {
    page.say("nothing at \"");
    page.bytes(setting.scope.as_bytes());
    page.say("\" looks up ");
    page.name(&setting.field);
    page.say(". Looked up there: ");
    let mut near = Nearest::new(
        facts.alloc,
        from_utf8(setting.field.as_bytes()).unwrap_or(""),
    );
    let mut list = List::new();
    for node in &facts.nodes {
        let Some(known) = fields.get(node) else {
            continue;
        };
        if !is_match(facts, &setting.scope, *node) {
            continue;
        }
        for field in known {
            near.add(field, page);
            if list.begin(page) {
                page.name(field);
            }
        }
    }
    list.end(page, "nothing");
    page.say(".");
    near.write(page);
    page.say("\n");
}
