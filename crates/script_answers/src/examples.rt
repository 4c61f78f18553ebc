//! Returns an example call for each key of an answer.

ghost use Rattle.std.specs.Prelude.{◌≡◌, ◌⊎◌, [], false, OnErr, OnOk, IfErr, IfOk, drop, codes, ◌≢◌};
ghost use Rattle.script_answers.specs.Calls.{HasNone, NoneBehind, ReadsBehind, TellsBehind, TellsExamples, last_example};
ghost use Rattle.script_answers.specs.KeyWords.{but_star, ends_in_star, first_or, given_left, goes_on};
ghost use Rattle.script_answers.specs.Words.{words_of};
ghost use Rattle.script_answers.specs.Keys.{IsCallLine};
ghost use Rattle.uvm_lines.specs.Lines.{call_text};

use crate::calls::{is_named, is_short, named_call, plain_call, short_call};
use crate::faults::LineFault;
use crate::keys::item_in;
use crate::types::{calls_can_be, name_is_sound};
use crate::words::{Words, name_of, number_of};
use std::alloc::{AllocError, Global};
use uvm_glob::Name;
use uvm_lines::call_text;
use uvm_object::Call;

// Returns the line of an example call that begins with the words of a key, and whether the call has an item. The example has an item if the
// key leaves that open. Errors: `NoCall` or `NoAct` if no call begins with the words of the key; out of memory.
pub(crate) fn example_of(alloc: Global, key: &str) -> Result<(Vec<u8>, bool), LineFault>
    ensures line { IfOk result (λ read. IsCallLine read.0.items read.1) }
    ensures tells { IfOk result (λ read. TellsExamples key.now read.0.items read.1) }
    ensures none { IfErr result (λ fault. (fault ≡ LineFault.Memory) ⊎ HasNone key.now) }
{
    let mut words = KeyWords::of(key);
    let keyword = words.word_or("item_done")?;
    if keyword == "finished" {
        finished_example(alloc, &mut words)
    } else {
        call_example(alloc, keyword, &mut words)
    }
}

// Returns the same for the call that reports that a sequence has finished. `words` are those after its keyword.
fn finished_example(alloc: Global, words: &mut KeyWords<'_>) -> Result<(Vec<u8>, bool), LineFault>
    ensures line { IfOk result (λ read. IsCallLine read.0.items read.1) }
    ensures tells { IfOk result (λ read. TellsBehind (codes "finished") (given_left words.old) (goes_on words.old) read.0.items read.1) }
    ensures none { IfErr result (λ fault. (fault ≡ LineFault.Memory) ⊎ NoneBehind (codes "finished") (given_left words.old) (goes_on words.old)) }
{
    let name = name_of(words.word_or("a")?)?;
    let number = number_of(words.word_or("1")?)?;
    name_is_sound(&name);
    Ok((finished_line(alloc, &name, number)?, false))
}

// Returns the same for any other call. `words` are those after `keyword`.
fn call_example(
    alloc: Global,
    keyword: &str,
    words: &mut KeyWords<'_>,
) -> Result<(Vec<u8>, bool), LineFault>
    ensures line { IfOk result (λ read. IsCallLine read.0.items read.1) }
    ensures tells { keyword.now ≢ codes "finished" → IfOk result (λ read. TellsBehind keyword.now (given_left words.old) (goes_on words.old) read.0.items read.1) }
    ensures none { keyword.now ≢ codes "finished" → IfErr result (λ fault. (fault ≡ LineFault.Memory) ⊎ NoneBehind keyword.now (given_left words.old) (goes_on words.old)) }
{
    let call = call_by(keyword, words)?;
    calls_can_be(&call);
    Ok((call_text(alloc, &call)?, item_in(&call).is_some()))
}

// Returns the line of the call that reports that a sequence has finished. Errors: out of memory.
fn finished_line(alloc: Global, name: &Name, number: u64) -> Result<Vec<u8>, AllocError>
    ensures { IfOk result (λ line. line.items ≡ call_text (Call.Finished name.now number)) }
{
    let mut line = Vec::from_slice(alloc, b"finished ")?;
    line.extend_from_slice(name.as_bytes())?;
    line.push(b' ')?;
    line.extend_from_slice(number.to_string(alloc)?.as_bytes())?;
    Ok(line)
}

// Returns the example call of a key, except `finished`. `words` are those after `keyword`. Errors: `NoCall` or `NoAct` if there is no such
// call.
fn call_by(keyword: &str, words: &mut KeyWords<'_>) -> Result<Call, LineFault>
    ensures { ReadsBehind keyword.now (given_left words.old) (goes_on words.old) result }
{
    if is_named(keyword) {
        let name = words.word_or("a")?;
        named_call(keyword, name, words.word_or(last_example(keyword))?)
    } else if is_short(keyword) {
        short_call(keyword, words.word_or(last_example(keyword))?)
    } else {
        plain_call(keyword)
    }
}

// Returns the last word of the example call for a keyword.
fn last_example(keyword: &str) -> &'static str
    ensures { result.now ≡ last_example keyword.now }
{
    match keyword {
        "config" => "none",
        "wake" => "0",
        "stored" => "a",
        "try_stored" => "yes",
        _ => "[0,0,0,0]",
    }
}

// The words of a key. Words of the example follow in place of a `*` at its end.
#[derive(Drop)]
struct KeyWords<'a> {
    words: Words<'a>,
    is_open: bool,
}

impl<'a> KeyWords<'a> {
    // Creates the reader of all words of a key.
    fn of(key: &'a str) -> KeyWords<'a>
        ensures left { given_left result ≡ but_star (words_of key.now) }
        ensures goes_on { goes_on result ≡ ends_in_star (words_of key.now) }
    {
        KeyWords {
            words: Words::of(key),
            is_open: false,
        }
    }

    // Returns the next word, or `example` from the `*` at the end of the key on. Errors: `NoAct` if no word is left.
    fn word_or(&mut self, example: &'a str) -> Result<&'a str, LineFault>
        ensures word { IfOk result (λ word. word.now ≡ first_or example.now (given_left self.old)) }
        ensures left { OnOk result (given_left self.new ≡ drop 1 (given_left self.old)) }
        ensures goes_on { OnOk result (goes_on self.new ≡ goes_on self.old) }
        ensures none { OnErr result (given_left self.old ≡ []) }
        ensures done { OnErr result (goes_on self.old ≡ false) }
    {
        if self.is_open {
            return Ok(example);
        }
        let word = self.words.word()?;
        self.is_open = word == "*" && self.words.is_done();
        Ok(if self.is_open { example } else { word })
    }
}
