//! Laws of the parts of actions and calls that follow from their types. The functions do nothing at run time.

ghost use Rattle.std.specs.Prelude.{◌≡◌, ◌<◌, ◌^◌, All, IfSome, None, length};
ghost use Rattle.uvm_report.specs.Texts.{text_fault};
ghost use Rattle.script_answer_acts.specs.Sound.{IsItem, IsName, IsSigned};
ghost use Rattle.script_answers.specs.Keys.{CanBeCall};
ghost use Rattle.script_answers.specs.Reading.{FitsTypes, FitsWhat, HasGlob};

use uvm_glob::Name;
use uvm_object::{Act, Call, What};
use uvm_report::Report;
use uvm_tlm::Item;

fn small_fits(number: &u16)
    ensures { number.now < 2 ^ 16 }
{
    let _number = *number;
}

fn tag_fits(tag: &u32)
    ensures { tag.now < 2 ^ 32 }
{
    let _tag = *tag;
}

fn priority_fits(priority: &Option<u16>)
    ensures { IfSome priority.now (λ n. n < 2 ^ 16) }
{
    if let Some(priority) = priority {
        small_fits(priority);
    }
}

fn what_fits(what: &What)
    ensures { FitsWhat what.now }
{
    if let What::Fifo { size } = what {
        small_fits(size);
    }
}

fn report_fits(report: &Report)
    ensures verbosity { report.now.verbosity < 2 ^ 16 }
    ensures text { text_fault report.now.text ≡ None }
{
    small_fits(&report.verbosity);
    let _text = report.text.as_bytes();
}

// States that the numbers of an action fit their types and that the text of its report is valid. Its glob must be valid: the crate that
// creates it guarantees that.
pub(crate) fn acts_fit_types(act: &Act)
    ensures { HasGlob act.now → FitsTypes act.now }
{
    match act {
        Act::Add { what, .. } => what_fits(what),
        Act::Start { priority, .. } | Act::Request { priority } => priority_fits(priority),
        Act::Report { report } => report_fits(report),
        Act::Verbosity { level: number, .. }
        | Act::RaiseObjection { count: number }
        | Act::DropObjection { count: number } => small_fits(number),
        Act::Wait { tag, .. } => tag_fits(tag),
        Act::Set { .. } | Act::OverrideInst { .. } => (),
        Act::Create { .. } | Act::Get { .. } | Act::OverrideType { .. } | Act::Connect { .. } => (),
        Act::Put { .. } | Act::TryPut { .. } | Act::Take { .. } | Act::TryTake { .. } => (),
        Act::Peek { .. } | Act::Write { .. } | Act::Ask { .. } | Act::ItemDone { .. } => (),
        Act::Lock | Act::Grab | Act::Unlock | Act::Send { .. } | Act::EndStep => (),
        Act::Actions { .. } | Act::Severity { .. } | Act::SetDrain { .. } => (),
    }
}

pub(crate) fn name_is_sound(name: &Name)
    ensures { IsName name.now }
{
    let _bytes = name.as_bytes();
}

fn word_is_sound(word: &i64)
    ensures { IsSigned word.now }
{
    let _word = *word;
}

fn words_are_sound(words: &[i64; 4])
    ensures len { length words.now ≡ 4 }
    ensures words { All IsSigned words.now }
{
    word_is_sound(&words[0]);
    word_is_sound(&words[1]);
    word_is_sound(&words[2]);
    word_is_sound(&words[3]);
}

fn item_is_sound(item: &Item)
    ensures { IsItem item.now }
{
    words_are_sound(&item.0);
}

fn some_item_is_sound(item: &Option<Item>)
    ensures { IfSome item.now IsItem }
{
    if let Some(item) = item {
        item_is_sound(item);
    }
}

fn value_is_sound(value: &Option<i64>)
    ensures { IfSome value.now IsSigned }
{
    if let Some(value) = value {
        word_is_sound(value);
    }
}

fn config_is_sound(field: &Name, value: &Option<i64>)
    ensures field { IsName field.now }
    ensures value { IfSome value.now IsSigned }
{
    name_is_sound(field);
    value_is_sound(value);
}

fn named_item_is_sound(port: &Name, item: &Item)
    ensures port { IsName port.now }
    ensures item { IsItem item.now }
{
    name_is_sound(port);
    item_is_sound(item);
}

fn named_some_item_is_sound(port: &Name, item: &Option<Item>)
    ensures port { IsName port.now }
    ensures item { IfSome item.now IsItem }
{
    name_is_sound(port);
    some_item_is_sound(item);
}

// States that the names, numbers and items of a call are valid.
pub(crate) fn calls_can_be(call: &Call)
    ensures { CanBeCall call.now }
{
    match call {
        Call::Config { field, value } => config_is_sound(field, value),
        Call::Wake { tag } => tag_fits(tag),
        Call::Stored { port } | Call::TryStored { port, .. } => name_is_sound(port),
        Call::Taken { port, item }
        | Call::Peeked { port, item }
        | Call::Written { imp: port, item } => named_item_is_sound(port, item),
        Call::TryTaken { port, item } | Call::NextItem { port, item } => {
            named_some_item_is_sound(port, item)
        }
        Call::ItemDone { response } => some_item_is_sound(response),
        Call::Finished { name, id } => {
            name_is_sound(name);
            let _number = id.number();
        }
        Call::Phase(_) | Call::Grant | Call::Held => (),
        Call::PreStart | Call::Body | Call::PostStart => (),
    }
}
