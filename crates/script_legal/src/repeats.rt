//! The judgement on a transcript by the rules alone: whether some legal run of a script has it, whatever its objects answer.

ghost use Rattle.std.specs.Prelude.{◌≡◌, ◌≢◌, [], Err, IfErr, IfOk, OnOk, Some, false, true};
ghost use Rattle.bench_core.specs.Cores.{IsAsk, is_sound, turn_of};
ghost use Rattle.bench_core.specs.declared.cores.Health.TheVariants.{Good};
ghost use Rattle.bench_run.specs.Running.{Grows, summary_of};
ghost use Rattle.script_legal.specs.LogTexts.{IsFullLog, IsLogText, IsOverLog};

use crate::lines::{behind, first_other, lines_of, split_line};
use crate::shown_acts::{MOST_ACTS, answer_in, count_in};
use crate::words::word_in;
use bench_core::{Core, CoreFault, Turn};
use bench_replay::KnownWords;
use bench_run::reports_of;
use std::alloc::{AllocError, Global};
use uvm_object::{Act, Entry, Outcome, Who};
use uvm_report::Severity;

/// What a line of a transcript does not show.
#[derive(Clone, Copy, Debug, PartialEq, Eq)]
pub enum Unshown {
    /// Whether an INFO was dropped, or issued without the action `display`.
    Verbosity,
    /// Whether a change of severity is for all ids, or for the id `none`.
    Id,
    /// The actions of an answer of more than `MOST_ACTS`.
    Acts,
}

/// The judgement on a transcript, whatever the objects answer.
#[derive(Drop)]
pub enum AnyJudgement {
    /// A legal run of the script has the transcript.
    Legal,
    /// No legal run has this line: its number, from 1, and the line that could stand there. `..` stands for what is free in it.
    Other(u64, Vec<u8>),
    /// The transcript does not show something in a line, and it cannot be told whether a legal run has this line. These are: the number of the
    /// first line, what it does not show, and the number of this line.
    Unknown(u64, Unshown, u64),
}

// A place in a transcript: the number of the next line, and the first line that does not show something.
#[derive(Clone, Copy)]
struct Place {
    line: u64,
    unshown: Option<(u64, Unshown)>,
}

/// Repeats a transcript on a core without an entry: random numbers, objects and answers are those that its lines show. If `issues` is true, an
/// INFO that is not displayed is issued, and otherwise dropped. Returns the judgement. Errors: out of memory.
pub fn repeat(
    alloc: Global,
    core: &mut Core,
    issues: bool,
    text: &[u8],
) -> Result<AnyJudgement, AllocError>
    requires begun { core.old.history ≡ [] }
    requires good { core.old.health ≡ Good }
    ensures legal { IfOk result (λ judgement. judgement ≡ AnyJudgement.Legal → IsLogText core.old.script core.new.history text.now) }
    ensures script { core.new.script ≡ core.old.script }
{
    let mut left = text;
    let mut place = Place {
        line: 1,
        unshown: None,
    };
    let mut written = Vec::new(alloc);
    loop {
        written.clear();
        let made = make_entry(alloc, core, issues, left);
        // For the proof: the log is legal.
        let _log = core.log();
        match made {
            Ok(true) => core.last_text(true, &mut written)?,
            Ok(false) => return ended(alloc, core, place, left),
            Err(CoreFault::LogFull) => return judged(alloc, place, left, &[]),
            Err(_) => return Err(AllocError),
        }
        let Some(rest) = behind(left, written.as_slice()) else {
            return differing(alloc, place, left, written.as_slice());
        };
        place = next_place(core, place, left, lines_of(written.as_slice()));
        left = rest;
    }
}

// Makes the next entry of a core, as the lines of a text show it, and returns true; returns false if the run has ended. Errors: those of the
// core.
fn make_entry(alloc: Global, core: &mut Core, issues: bool, text: &[u8]) -> Result<bool, CoreFault>
    ensures made { IfOk result (λ made. made ≡ true → Grows core.old core.new) }
    ensures over { IfOk result (λ made. made ≡ false → IsOverLog core.old core.new) }
    ensures full { result ≡ Err CoreFault.LogFull → IsFullLog core.old core.new }
    ensures script { core.new.script ≡ core.old.script }
{
    let (line, rest) = split_line(text);
    let word = [word_in(line).unwrap_or(0)];
    let mut words = KnownWords::new(&word);
    loop {
        match core.next(&mut words) {
            Ok(Turn::Leave { .. }) => (),
            Ok(Turn::Moved) => return Ok(true),
            Ok(Turn::Over) => return Ok(false),
            Ok(Turn::Need) => {
                fill(core, line);
                return Ok(true);
            }
            Ok(Turn::Ask { .. }) => {
                hear(alloc, core, issues, line, rest)?;
                return Ok(true);
            }
            Err(fault) => return Err(fault),
        }
    }
}

// Makes the object that a core needs, or declines it if the line shows that.
fn fill(core: &mut Core, line: &[u8])
    requires { turn_of core.old.standing ≡ Some Turn.Need }
    ensures { Grows core.old core.new }
{
    if line.ends_with(b": refused FCTTYP") {
        core.declined();
    } else {
        let _who = core.made();
    }
}

// Records the answer to a call that its line and the text behind it show. Errors: out of memory.
fn hear(
    alloc: Global,
    core: &mut Core,
    issues: bool,
    line: &[u8],
    rest: &[u8],
) -> Result<(), CoreFault>
    requires { IsAsk (turn_of core.old.standing) }
    ensures ok { OnOk result (Grows core.old core.new) }
    ensures err { IfErr result (λ fault. fault ≡ CoreFault.Memory) }
    ensures script { core.new.script ≡ core.old.script }
{
    let Ok(acts) = answer_in(alloc, issues, line, rest) else {
        return Err(CoreFault::Memory);
    };
    core.heard(acts)
}

// Judges the text that is left of a run that has ended. Errors: out of memory.
fn ended(alloc: Global, core: &Core, place: Place, left: &[u8]) -> Result<AnyJudgement, AllocError>
    requires { is_sound core.now.health ≡ true }
    ensures { IfOk result (λ judgement. judgement ≡ AnyJudgement.Legal → left.now ≡ summary_of core.now.script core.now.history) }
{
    let mut summary = Vec::new(alloc);
    reports_of(core).summary(&mut summary)?;
    judged(alloc, place, left, summary.as_slice())
}

// Judges the text that is left, if only `end` may stand there. Errors: out of memory.
fn judged(alloc: Global, place: Place, left: &[u8], end: &[u8]) -> Result<AnyJudgement, AllocError>
    ensures { IfOk result (λ judgement. judgement ≡ AnyJudgement.Legal → left.now ≡ end.now) }
{
    if left == end {
        return Ok(AnyJudgement::Legal);
    }
    differing(alloc, place, left, end)
}

// Returns the judgement on a text whose next lines differ from those of the run. Errors: out of memory.
fn differing(
    alloc: Global,
    place: Place,
    left: &[u8],
    written: &[u8],
) -> Result<AnyJudgement, AllocError>
    ensures { IfOk result (λ judgement. judgement ≢ AnyJudgement.Legal) }
{
    let (number, said, line) = first_other(left, written);
    let number = place.line.saturating_add(number.saturating_sub(1));
    if let Some((earlier, unshown)) = place.unshown {
        return Ok(AnyJudgement::Unknown(earlier, unshown, number));
    }
    if is_too_long(said, line) {
        return Ok(AnyJudgement::Unknown(number, Unshown::Acts, number));
    }
    let mut would = Vec::new(alloc);
    push_would(said, line, &mut would)?;
    Ok(AnyJudgement::Other(number, would))
}

// Returns whether a line differs from that of a call in its number of actions alone, which is more than an answer may have that is repeated.
fn is_too_long(said: &[u8], line: &[u8]) -> bool {
    count_in(said).is_some_and(|count| count > MOST_ACTS)
        && before_last(said, b' ') == before_last(line, b' ')
}

// Appends the line that could stand in place of another. What is free is `..`: the number of actions of an answer, and an action with its
// outcome. Errors: out of memory.
fn push_would(said: &[u8], line: &[u8], would: &mut Vec<u8>) -> Result<(), AllocError> {
    if line.starts_with(b"heard ") && count_in(said).is_none() {
        would.extend_from_slice(before_last(line, b' '))?;
        return would.extend_from_slice(b" ..");
    }
    if line.starts_with(b"did ") && before_last(said, b':') != before_last(line, b':') {
        would.extend_from_slice(performer_in(line))?;
        return would.extend_from_slice(b" ..");
    }
    would.extend_from_slice(line)
}

// Returns what stands before the last byte of this value, or the whole line if it has none.
fn before_last(line: &[u8], byte: u8) -> &[u8] {
    let mut end = line.len();
    for (place, other) in line.iter().enumerate() {
        if *other == byte {
            end = place;
        }
    }
    line.get(..end).unwrap_or(line)
}

// Returns the first two words of a line.
fn performer_in(line: &[u8]) -> &[u8] {
    let mut blanks = 0u8;
    for (place, byte) in line.iter().enumerate() {
        if *byte == b' ' {
            if blanks == 1 {
                return &line[..place];
            }
            blanks = 1;
        }
    }
    line
}

// Returns the place behind the lines of the newest entry, with which `text` begins.
fn next_place(core: &Core, place: Place, text: &[u8], lines: u64) -> Place {
    let unshown = place.unshown.or(unshown_at(core, place.line, text));
    Place {
        line: place.line.saturating_add(lines),
        unshown,
    }
}

// Returns what the line of the newest entry does not show, if anything, with the number of that line. `text` begins with it.
fn unshown_at(core: &Core, line: u64, text: &[u8]) -> Option<(u64, Unshown)> {
    match core.log().last()? {
        Entry::Did { who, outcome, act } if matches!(outcome.get(), Outcome::Done) => {
            Some((line, unshown_of(core, who, act.act().get(), text)?))
        }
        _ => None,
    }
}

// Returns what the line of an action that was performed does not show, if anything. `text` begins with that line.
fn unshown_of(core: &Core, who: &Who, act: &Act, text: &[u8]) -> Option<Unshown> {
    match act {
        Act::Severity { id: None, .. } => Some(Unshown::Id),
        Act::Report { report } if report.severity == Severity::Info => {
            let (_, rest) = split_line(text);
            if rest.starts_with(b"UVM_") {
                return None;
            }
            let actions = core.reports()?.actions_for(core.path(who.node())?, report);
            if actions.is_empty() || actions.display {
                return None;
            }
            Some(Unshown::Verbosity)
        }
        _ => None,
    }
}
