//! Reads the actions of sequences and drivers.

ghost use Rattle.std.specs.Prelude.{IfOk, codes};
ghost use Rattle.uvm_lines.specs.Lines.{how_text, mode_text};
ghost use Rattle.script_answers.specs.Reading.{ReadsAfter, ReadsOneOf, sequence_words};
ghost use Rattle.script_answers.specs.AnswerActs.{IsPlain};
ghost use Rattle.script_answers.specs.Words.{IsAny, Reads, words_left, words_of};

use crate::faults::LineFault;
use crate::items::{item, some_item};
use crate::words::Words;
use std::alloc::Global;
use uvm_object::Act;
use uvm_sequencer::{How, Mode};

// Returns the action of a sequence or a driver that a line is. Errors: `NoAct` if the words are not such an action; out of memory.
pub(crate) fn sequence_act(alloc: Global, line: &str) -> Result<Act, LineFault>
    ensures plain { IfOk result IsPlain }
    ensures reads { ReadsOneOf sequence_words (words_of line.now) result }
{
    let mut words = Words::of(line);
    match words.word()? {
        "ask" => Ok(Act::Ask {
            port: words.name()?,
            how: how(&mut words)?,
        }),
        "item_done" => Ok(Act::ItemDone {
            port: words.name()?,
            response: some_item(&mut words)?,
        }),
        "start" => start_act(alloc, &mut words),
        "request" => Ok(Act::Request {
            priority: words.priority()?,
        }),
        "lock" => Ok(Act::Lock),
        "grab" => Ok(Act::Grab),
        "unlock" => Ok(Act::Unlock),
        "send" => Ok(Act::Send {
            item: item(&mut words)?,
        }),
        "end_step" => Ok(Act::EndStep),
        _ => Err(LineFault::NoAct),
    }
}

fn start_act(alloc: Global, words: &mut Words<'_>) -> Result<Act, LineFault>
    ensures plain { IfOk result IsPlain }
    ensures reads { ReadsAfter (codes "start") (words_left words.old) result }
{
    Ok(Act::Start {
        type_name: words.name()?,
        name: words.name()?,
        on: words.path(alloc)?,
        priority: words.priority()?,
    })
}

// Reads the next word as the mode of a sequencer.
pub(crate) fn mode(words: &mut Words<'_>) -> Result<Mode, LineFault>
    ensures { Reads mode_text IsAny (words_left words.old) (words_left words.new) result }
{
    match words.word()? {
        "FIFO" => Ok(Mode::Fifo),
        "WEIGHTED" => Ok(Mode::Weighted),
        "RANDOM" => Ok(Mode::Random),
        "STRICT_FIFO" => Ok(Mode::StrictFifo),
        "STRICT_RANDOM" => Ok(Mode::StrictRandom),
        _ => Err(LineFault::NoAct),
    }
}

fn how(words: &mut Words<'_>) -> Result<How, LineFault>
    ensures { Reads how_text IsAny (words_left words.old) (words_left words.new) result }
{
    match words.word()? {
        "next" => Ok(How::Next),
        "try" => Ok(How::Try),
        "get" => Ok(How::Get),
        _ => Err(LineFault::NoAct),
    }
}
