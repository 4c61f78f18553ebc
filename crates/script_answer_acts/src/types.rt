//! Laws of the parts of actions that follow from their types. The functions do nothing at run time.

ghost use Rattle.std.specs.Prelude.{◌≡◌, length, IfSome};
ghost use Rattle.std.specs.List.{All};
ghost use Rattle.script_answer_acts.specs.Sound.{HasSoundPlaces, IsItem, IsName, IsNumber, IsSigned, IsSound, IsWhat, IsWhich};

use uvm_glob::Name;
use uvm_object::{Act, What};
use uvm_report::{Report, Which};
use uvm_tlm::Item;

fn name_is_sound(name: &Name)
    ensures { IsName name.now }
{
    let _bytes = name.as_bytes();
}

fn names_are_sound(first: &Name, second: &Name)
    ensures first { IsName first.now }
    ensures second { IsName second.now }
{
    name_is_sound(first);
    name_is_sound(second);
}

fn id_is_sound(id: &Option<Name>)
    ensures { IfSome id.now IsName }
{
    if let Some(id) = id {
        name_is_sound(id);
    }
}

fn small_is_sound(number: &u16)
    ensures { IsNumber number.now }
{
    let _number = *number;
}

fn ticks_are_sound(ticks: &u64)
    ensures { IsNumber ticks.now }
{
    let _ticks = *ticks;
}

fn wait_is_sound(ticks: &u64, tag: &u32)
    ensures ticks { IsNumber ticks.now }
    ensures tag { IsNumber tag.now }
{
    ticks_are_sound(ticks);
    let _tag = *tag;
}

fn priority_is_sound(priority: &Option<u16>)
    ensures { IfSome priority.now IsNumber }
{
    if let Some(priority) = priority {
        small_is_sound(priority);
    }
}

fn start_is_sound(type_name: &Name, name: &Name, priority: &Option<u16>)
    ensures type_name { IsName type_name.now }
    ensures name { IsName name.now }
    ensures priority { IfSome priority.now IsNumber }
{
    names_are_sound(type_name, name);
    priority_is_sound(priority);
}

fn value_is_sound(value: &i64)
    ensures { IsSigned value.now }
{
    let _value = *value;
}

fn setting_is_sound(field: &Name, value: &i64)
    ensures field { IsName field.now }
    ensures value { IsSigned value.now }
{
    name_is_sound(field);
    value_is_sound(value);
}

fn item_is_sound(item: &Item)
    ensures { IsItem item.now }
{
    words_are_sound(&item.0);
}

fn words_are_sound(words: &[i64; 4])
    ensures len { length words.now ≡ 4 }
    ensures words { All IsSigned words.now }
{
    value_is_sound(&words[0]);
    value_is_sound(&words[1]);
    value_is_sound(&words[2]);
    value_is_sound(&words[3]);
}

fn named_item_is_sound(port: &Name, item: &Item)
    ensures port { IsName port.now }
    ensures item { IsItem item.now }
{
    name_is_sound(port);
    item_is_sound(item);
}

fn response_is_sound(port: &Name, response: &Option<Item>)
    ensures port { IsName port.now }
    ensures response { IfSome response.now IsItem }
{
    name_is_sound(port);
    if let Some(item) = response {
        item_is_sound(item);
    }
}

fn addition_is_sound(name: &Name, what: &What)
    ensures name { IsName name.now }
    ensures what { IsWhat what.now }
{
    name_is_sound(name);
    if let What::Fifo { size } = what {
        small_is_sound(size);
    }
}

fn which_is_sound(which: &Which)
    ensures { IsWhich which.now }
{
    match which {
        Which::Id(id) => name_is_sound(id),
        Which::Both(_, id) => name_is_sound(id),
        _ => (),
    }
}

fn level_is_sound(which: &Which, level: &u16)
    ensures which { IsWhich which.now }
    ensures level { IsNumber level.now }
{
    which_is_sound(which);
    small_is_sound(level);
}

fn report_is_sound(report: &Report)
    ensures id { IsName report.now.id }
    ensures verbosity { IsNumber report.now.verbosity }
{
    name_is_sound(&report.id);
    small_is_sound(&report.verbosity);
}

/// States that the names, numbers and items of an action are valid by their types. Its globs and paths must be valid: the crate that
/// creates them guarantees that. Does nothing at run time.
pub fn acts_are_sound(act: &Act)
    ensures { HasSoundPlaces act.now → IsSound act.now }
{
    match act {
        Act::Create { type_name, name } => names_are_sound(type_name, name),
        Act::Add { name, what } => addition_is_sound(name, what),
        Act::Set { field, value, .. } => setting_is_sound(field, value),
        Act::Get { field: name }
        | Act::Take { port: name }
        | Act::TryTake { port: name }
        | Act::Peek { port: name }
        | Act::Ask { port: name, .. } => name_is_sound(name),
        Act::OverrideType { original, new, .. } | Act::OverrideInst { original, new, .. } => {
            names_are_sound(original, new)
        }
        Act::Put { port, item } | Act::TryPut { port, item } | Act::Write { port, item } => {
            named_item_is_sound(port, item)
        }
        Act::ItemDone { port, response } => response_is_sound(port, response),
        Act::Start {
            type_name,
            name,
            priority,
            ..
        } => start_is_sound(type_name, name, priority),
        Act::Request { priority } => priority_is_sound(priority),
        Act::Send { item } => item_is_sound(item),
        Act::Report { report } => report_is_sound(report),
        Act::Verbosity { which, level } => level_is_sound(which, level),
        Act::Actions { which, .. } => which_is_sound(which),
        Act::Severity { id, .. } => id_is_sound(id),
        Act::RaiseObjection { count } | Act::DropObjection { count } => small_is_sound(count),
        Act::SetDrain { ticks } => ticks_are_sound(ticks),
        Act::Wait { ticks, tag } => wait_is_sound(ticks, tag),
        Act::Connect { .. } | Act::Lock | Act::Grab | Act::Unlock | Act::EndStep => (),
    }
}
