//! Reads the answers of a document.

ghost use Rattle.std.specs.Prelude.{◌≡◌, ◌<◌, ◌⊎◌, true, false, All, IfErr, IfOk, IfSome, None, IfNone, length, map, option_map};
ghost use Rattle.std.specs.List.{list_all};
ghost use Rattle.toml.specs.Data.{array};
ghost use Rattle.toml.specs.View.{items_view, table_view, view};
ghost use Rattle.uvm_glob.specs.Names.{name_fault};
ghost use Rattle.script_answers.specs.AnswerActs.{IsAlone, answer_act_line};
ghost use Rattle.script_objects.specs.FirstFaults.{Given, HasFirstFault, HasLinesFault, HasRuleFault, HasRulesFault, HasTypeFault, IsLineFault, OrMemory, OrMemoryAt, are_answers, are_texts, begins_with_array, is_text};
ghost use Rattle.script_objects.specs.Rules.{length_key};
ghost use Rattle.script_objects.specs.Tables.{AreRulesOf, AreTypesOf, IsRead, answer_data, data_of, entry_in, entry_of, only_data, answer_act_data};

use crate::answers::{Answers, TypeRules};
use crate::faults::{AnswerFault, FaultyAnswer};
use crate::rules::Rule;
use script_answers::{AnswerAct, Key};
use std::alloc::Global;
use std::cmp::Reverse;
use toml::{Table, Value};
use uvm_glob::Name;

/// Reads the answers of all types. The table has a table for each type, which has a key for each form of call. Errors: the first fault, in
/// the order of types and keys in the table, which is that of their bytes; out of memory.
pub fn read_answers<'a>(alloc: Global, table: &'a Table) -> Result<Answers, FaultyAnswer<'a>>
    ensures types { IfOk result (λ answers. AreTypesOf (table_view table.now) answers) }
    ensures err { IfErr result (OrMemoryAt (HasFirstFault (table_view table.now))) }
{
    let mut types = Vec::new(alloc);
    for (type_name, value) in table.iter() {
        let rules = read_type(alloc, type_name.as_str(), value)?;
        let Ok(()) = types.push(rules) else {
            return Err(AnswerFault::Memory.at_type(type_name.as_str()));
        };
    }
    Ok(Answers::of(types))
}

// Reads a type with its rules. Errors: the first fault of the type; out of memory.
fn read_type<'a>(
    alloc: Global,
    type_name: &'a str,
    value: &'a Value,
) -> Result<TypeRules, FaultyAnswer<'a>>
    ensures name { IfOk result (λ rules. (rules.type_name ≡ type_name.now) × (name_fault type_name.now ≡ None)) }
    ensures rules { IfOk result (λ rules. AreRulesOf (view value.now) rules.rules) }
    ensures err { IfErr result (OrMemoryAt (HasTypeFault (type_name.now, view value.now))) }
{
    let Ok(name) = Name::new(type_name.as_bytes()) else {
        return Err(AnswerFault::BadName.at_type(type_name));
    };
    let Some(table) = value.as_table() else {
        return Err(AnswerFault::NotTable.at_type(type_name));
    };
    let mut rules = read_rules(alloc, type_name, table)?;
    let Ok(()) = rules.sort_by_key(
        |rule: &Rule| -> Reverse<usize>
            ensures { result ≡ length_key rule.now }
        { Reverse(rule.key.fixed_len()) },
    ) else {
        return Err(AnswerFault::Memory.at_type(type_name));
    };
    Ok(TypeRules::of(name, rules))
}

// Reads the rules of a type, in the order of their keys. Errors: the first fault; out of memory.
fn read_rules<'a>(
    alloc: Global,
    type_name: &'a str,
    table: &'a Table,
) -> Result<Vec<Rule>, FaultyAnswer<'a>>
    ensures entries { IfOk result (λ rules. map entry_of rules.items ≡ map entry_in table.now.entries) }
    ensures read { IfOk result (λ rules. All IsRead rules.items) }
    ensures name { IfErr result (λ faulty. faulty.type_name.now ≡ type_name.now) }
    ensures err { IfErr result (OrMemoryAt (HasRulesFault (table_view table.now))) }
{
    let mut rules = Vec::new(alloc);
    for (call, value) in table.iter() {
        let call = call.as_str();
        let rule = match read_rule(alloc, call, value) {
            Ok(rule) => rule,
            Err((fault, act)) => return Err(fault.at_call(type_name, call, act)),
        };
        let Ok(()) = rules.push(rule) else {
            return Err(AnswerFault::Memory.at_call(type_name, call, None));
        };
    }
    Ok(rules)
}

// Reads the rule of one key. Errors: the first fault of the rule, with the text of the action at fault; out of memory.
fn read_rule<'a>(
    alloc: Global,
    call: &'a str,
    value: &'a Value,
) -> Result<Rule, (AnswerFault, Option<&'a str>)>
    ensures key { IfOk result (λ rule. rule.key ≡ call.now) }
    ensures data { IfOk result (λ rule. data_of rule ≡ view value.now) }
    ensures read { IfOk result IsRead }
    ensures err { IfErr result (OrMemory (HasRuleFault (call.now, view value.now))) }
{
    let Some(values) = answers_in(value) else {
        return Err((AnswerFault::NoList, None));
    };
    let (key, has_item) = match Key::read(alloc, call) {
        Ok(read) => read,
        Err(fault) => return Err((AnswerFault::from(fault), None)),
    };
    let once = begins_with_array(values);
    let answers = if once {
        read_each(alloc, values, has_item)?
    } else {
        read_only(alloc, values, has_item)?
    };
    Ok(Rule { key, once, answers })
}

// Returns the elements of an array of strings, or of a nonempty array of arrays of strings. Returns `None` for any other value.
fn answers_in(value: &Value) -> Option<&[Value]>
    ensures some { IfSome result (λ values. (view value.now ≡ array (items_view values.now)) × (are_answers (view value.now) ≡ true)) }
    ensures none { IfNone result (are_answers (view value.now) ≡ false) }
{
    let values = value.as_array()?.as_slice();
    let is_sound = if begins_with_array(values) {
        are_all_lists(values)
    } else {
        are_all_texts(values)
    };
    if is_sound { Some(values) } else { None }
}

// Returns whether the first value is an array.
fn begins_with_array(values: &[Value]) -> bool
    ensures value { result ≡ begins_with_array (map view values.now) }
    ensures some { result ≡ true → 0 < length values.now }
{
    match values.first() {
        Some(first) => first.is_array(),
        None => false,
    }
}

// Returns whether a value is an array of strings.
fn are_texts(value: &Value) -> bool
    ensures { result ≡ are_texts (view value.now) }
{
    match value.as_array() {
        Some(values) => are_all_texts(values.as_slice()),
        None => false,
    }
}

// Returns whether each value is a string.
fn are_all_texts(values: &[Value]) -> bool
    ensures { result ≡ list_all is_text (map view values.now) }
{
    values.iter().all(|value| value.is_str())
}

// Returns whether each value is an array of strings.
fn are_all_lists(values: &[Value]) -> bool
    ensures { result ≡ list_all are_texts (map view values.now) }
{
    values.iter().all(|value| are_texts(value))
}

// Reads the answers of a key whose answers are each given once. Errors: the first fault; out of memory.
fn read_each<'a>(
    alloc: Global,
    values: &'a [Value],
    has_item: bool,
) -> Result<Vec<Vec<AnswerAct>>, (AnswerFault, Option<&'a str>)>
    requires { list_all are_texts (map view values.now) ≡ true }
    ensures answers { IfOk result (λ answers. map answer_data (map (λ answer. answer.items) answers.items) ≡ map view values.now) }
    ensures count { IfOk result (λ answers. length answers.items ≡ length values.now) }
    ensures alone { IfOk result (λ answers. All (All IsAlone) (map (λ answer. answer.items) answers.items)) }
    ensures err { IfErr result (OrMemory (HasLinesFault has_item (items_view values.now))) }
{
    let mut answers = Vec::new(alloc);
    for value in values {
        let Some(lines) = value.as_array() else {
            unreachable!()
        };
        let answer = read_answer(alloc, lines.as_slice(), has_item)?;
        let Ok(()) = answers.push(answer) else {
            return Err((AnswerFault::Memory, None));
        };
    }
    Ok(answers)
}

// Reads the answer of a key that is given each time. Returns it as the only element. Errors: the first fault; out of memory.
fn read_only<'a>(
    alloc: Global,
    values: &'a [Value],
    has_item: bool,
) -> Result<Vec<Vec<AnswerAct>>, (AnswerFault, Option<&'a str>)>
    requires { list_all is_text (map view values.now) ≡ true }
    ensures answer { IfOk result (λ answers. only_data (map (λ answer. answer.items) answers.items) ≡ array (items_view values.now)) }
    ensures one { IfOk result (λ answers. length answers.items ≡ 1) }
    ensures alone { IfOk result (λ answers. All (All IsAlone) (map (λ answer. answer.items) answers.items)) }
    ensures err { IfErr result (OrMemory (HasLinesFault has_item (items_view values.now))) }
{
    let answer = read_answer(alloc, values, has_item)?;
    let mut answers = Vec::new(alloc);
    let Ok(()) = answers.push(answer) else {
        return Err((AnswerFault::Memory, None));
    };
    Ok(answers)
}

// Reads the actions of one answer. Errors: the first fault; out of memory.
fn read_answer<'a>(
    alloc: Global,
    lines: &'a [Value],
    has_item: bool,
) -> Result<Vec<AnswerAct>, (AnswerFault, Option<&'a str>)>
    requires { list_all is_text (map view lines.now) ≡ true }
    ensures data { IfOk result (λ answer_acts. map answer_act_data answer_acts.items ≡ map view lines.now) }
    ensures alone { IfOk result (λ answer_acts. All IsAlone answer_acts.items) }
    ensures given { IfOk result (λ answer_acts. All (Given has_item) answer_acts.items) }
    ensures err { IfErr result (OrMemory (HasLinesFault has_item (items_view lines.now))) }
{
    let mut answer_acts = Vec::new(alloc);
    for value in lines {
        let Some(line) = value.as_str() else {
            unreachable!()
        };
        let answer_act = match read_answer_act(alloc, line, has_item) {
            Ok(answer_act) => answer_act,
            Err(fault) => return Err((fault, Some(line))),
        };
        let Ok(()) = answer_acts.push(answer_act) else {
            return Err((AnswerFault::Memory, Some(line)));
        };
    }
    Ok(answer_acts)
}

// Reads one action. Errors: `NoAct` if the text is not an action; `NoItem` if it passes on an item and `has_item` is not set; out of
// memory.
fn read_answer_act(alloc: Global, line: &str, has_item: bool) -> Result<AnswerAct, AnswerFault>
    ensures line { IfOk result (λ answer_act. answer_act_line answer_act ≡ line.now) }
    ensures alone { IfOk result IsAlone }
    ensures given { IfOk result (Given has_item) }
    ensures err { IfErr result (λ fault. (fault ≡ AnswerFault.Memory) ⊎ IsLineFault has_item line.now fault) }
{
    let answer_act = AnswerAct::read(alloc, line)?;
    if answer_act.passes() && !has_item {
        return Err(AnswerFault::NoItem);
    }
    Ok(answer_act)
}
