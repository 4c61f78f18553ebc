//! The run of a script whose objects another program holds.

ghost use Rattle.std.specs.List.{flat_map};
ghost use Rattle.std.specs.Prelude.{◌≡◌, ◌≢◌, ◌<◌, ◌++◌, ◌⊎◌, [], None, Err, IfErr, IfOk, IfSome, IsSome, MatchBool, filter, ◌∷◌, OnErr, OnOk, Some, length, true};
ghost use Rattle.uvm_glob.specs.Lists.{newest};
ghost use Rattle.uvm_report.specs.Plain.{ArePlainLines};
ghost use Rattle.bench_history.specs.History.{is_over};
ghost use Rattle.bench_history.specs.Limits.{log_limit};
ghost use Rattle.bench_history.specs.Next.{IsLegal, need_in, next_of};
ghost use Rattle.bench_history.specs.Sequences.{leaving_of};
ghost use Rattle.bench_core.specs.Cores.{IsAsk, IsDrawn, Nothing, answer_in, core_after, last_text, need_of, turn_of, word_in};
ghost use Rattle.bench_core.specs.declared.cores.Health.TheVariants.{Good};
ghost use Rattle.bench_run.specs.Running.{summary_of};
ghost use Rattle.bench_run.specs.Words.{word_made};
ghost use Rattle.script_objects.specs.Seats.{object_of};
ghost use Rattle.serve_dialogue.specs.Apart.{AreMarkedLines};
ghost use Rattle.serve_dialogue.specs.Dialogue.{back_line, backs_of, is_clients, time_in, told_last};
ghost use Rattle.serve_dialogue.specs.Scripted.{AreSeated};
ghost use Rattle.serve_dialogue.specs.Seating.{SeatsFollow};
ghost use Rattle.serve_dialogue.specs.Served.{IsServed};
ghost use Rattle.serve_dialogue.specs.Spoken.{said};
ghost use Rattle.serve_dialogue.specs.Steps.{AsksNext, Grows, Halts, HasEndedRun, IsUnheard, IsUntold};

use crate::clients::Client;
use crate::errors::ServeError;
use crate::questions::{push_ask, push_back, push_need, push_new, push_time};
use bench_core::{Core, CoreFault, Turn};
use bench_history::laws;
use bench_kernel::laws as custody;
use bench_run::{RunResult, reports_of, run_result_of};
use bench_script::Script;
use rand_core::Rng;
use script_objects::{Answers, ScriptedSeats};
use std::alloc::{AllocError, Global};
use uvm_object::{Acts, Who};

/// Runs a script to its end over the objects of a client, with the random numbers of `words`, and returns the result of the run. Objects of
/// types that have `answers` are scripted: the kernel holds them, and the client takes no part in requests for them. The client is asked for
/// each other object that is needed, and for each answer of its objects to a call. It receives a notice of each object that it made, of the
/// end of each of its sequences, and of each new time. After each entry of the log it receives the entry's line if `trace` is on, and the
/// line of its report if displayed. At the end it receives the summary.
///
/// Errors: `NoTest` if the script has no test, before anything is said. Then, as they occur: `LogFull` if the log is full and the run has not
/// ended; `Output` if the client refuses a text; `NoAnswer` if the client does not answer; `Memory` (out of memory). After an error, what was
/// said before it is the text of a legal log.
pub fn serve_script<C: Client, R: Rng>(
    alloc: Global,
    script: Script,
    answers: &Answers,
    words: &mut R,
    trace: bool,
    client: &mut C,
) -> Result<RunResult, ServeError>
    ensures served { IsServed C.spoke C.ended C.line answers.now (R.stream words.old) script trace client.old client.new result }
    ensures output { result ≡ Err ServeError.Output → C.refuses client.old }
    ensures unreadable { IfErr result (λ error. IsUnheard error → C.breaks client.old) }
    ensures may_refuse { C.refuses client.new → C.refuses client.old }
    ensures may_break { C.breaks client.new → C.breaks client.old }
    ensures untested { script.test ≡ None → result ≡ Err ServeError.NoTest }
    ensures tested { IsSome script.test → IfErr result (λ error. error ≢ ServeError.NoTest) }
{
    let Some(_) = script.test() else {
        return Err(ServeError::NoTest);
    };
    let mut core = match Core::new(alloc, script) {
        Ok(core) => core,
        Err(_) => return Err(ServeError::Memory),
    };
    let mut seats = ScriptedSeats::new(alloc, answers);
    serve_core(
        &mut core,
        &mut seats,
        words,
        trace,
        client,
        &mut Vec::new(alloc),
    )
}

// Makes entries until the run has ended, says the summary, and returns the result of the run. Builds in `text` what is said.
#[tactic(auto, using(crate::proofs::ApartLines::more_apart, crate::proofs::ApartLines::end_apart))]
fn serve_core<C: Client, R: Rng>(
    core: &mut Core,
    seats: &mut ScriptedSeats<'_>,
    words: &mut R,
    trace: bool,
    client: &mut C,
    text: &mut Vec<u8>,
) -> Result<RunResult, ServeError>
    requires good { core.old.health ≡ Good }
    requires begun { core.old.history ≡ [] }
    requires nothing { core.old.standing ≡ Nothing }
    requires all_told { core.old.leaving ≡ [] }
    requires empty { (who : Who) → object_of seats.old who ≡ None }
    ensures served { IsServed C.spoke C.ended C.line seats.old.answers (R.stream words.old) core.old.script trace client.old client.new result }
    ensures output { result ≡ Err ServeError.Output → C.refuses client.old }
    ensures unreadable { IfErr result (λ error. IsUnheard error → C.breaks client.old) }
    ensures may_refuse { C.refuses client.new → C.refuses client.old }
    ensures may_break { C.breaks client.new → C.breaks client.old }
    ensures tested { IfErr result (λ error. error ≢ ServeError.NoTest) }
{
    // For the proof: a component or sequence that is made is new, and has received no call before.
    laws::machine_entries_are_silent();
    custody::made_are_new();
    custody::others_make_nobody();
    custody::nobody_is_made_twice();
    while make_entry(core, seats, words, client, text)? {
        tell_entry(core, trace, client, text)?;
    }
    tell_summary(core, client, text)?;
    Ok(run_result_of(core))
}

// Makes the next entry and returns true, or returns false if the run has ended. Before that it sends the client the notices of its
// ended sequences, and the request, if there is one. Leaves in `text` the notice that comes before the text of the entry.
#[tactic(auto, using(crate::proofs::Marked::marked))]
fn make_entry<C: Client, R: Rng>(
    core: &mut Core,
    seats: &mut ScriptedSeats<'_>,
    words: &mut R,
    client: &mut C,
    text: &mut Vec<u8>,
) -> Result<bool, ServeError>
    requires good { core.old.health ≡ Good }
    requires nothing { core.old.standing ≡ Nothing }
    requires told { core.old.leaving ≡ leaving_of core.old.history }
    requires seated { AreSeated core.old.script core.old.history seats.old }
    ensures seats { IfOk result (λ made. MatchBool made (SeatsFollow core.old.history (next_of core.old.script core.old.history) seats.old seats.new) (seats.new ≡ seats.old)) }
    ensures ok { IfOk result (λ made. MatchBool made (Grows C.spoke C.ended C.line seats.old.answers core.old core.new client.old client.new text.new.items) (HasEndedRun C.spoke C.ended C.line seats.old.answers core.old core.new client.old client.new)) }
    ensures err { IfErr result (λ error. Halts C.spoke C.ended C.line seats.old.answers error core.old.script core.old.history client.old client.new) }
    ensures words { IfOk result (λ made. IsDrawn R.stream (word_made made core.new.history) words.old words.new) }
    ensures output { result ≡ Err ServeError.Output → C.refuses client.old }
    ensures unreadable { IfErr result (λ error. IsUnheard error → C.breaks client.old) }
    ensures may_refuse { C.refuses client.new → C.refuses client.old }
    ensures may_break { C.breaks client.new → C.breaks client.old }
{
    // For the proof: if something comes next, the run has not ended.
    laws::nothing_after_over();
    text.clear();
    loop {
        match core.next(words) {
            Ok(Turn::Leave { who }) => push_back_of(core, &who, seats, text)?,
            Ok(Turn::Over) => {
                say(client, text)?;
                return Ok(false);
            }
            Ok(Turn::Moved) => {
                say(client, text)?;
                return Ok(true);
            }
            Ok(Turn::Need) => {
                fill(core, seats, client, text)?;
                return Ok(true);
            }
            Ok(Turn::Ask { who }) => {
                ask(core, &who, seats, client, text)?;
                return Ok(true);
            }
            Err(CoreFault::LogFull) => return Err(ServeError::LogFull),
            Err(_) => return Err(ServeError::Memory),
        }
    }
}

// Appends the notice that a sequence has ended, if the client holds its object. Errors: out of memory.
#[tactic(auto, using(crate::proofs::Marked::more_marked))]
fn push_back_of(
    core: &Core,
    who: &Who,
    seats: &ScriptedSeats<'_>,
    text: &mut Vec<u8>,
) -> Result<(), AllocError>
    requires good { core.now.health ≡ Good }
    requires seated { AreSeated core.now.script core.now.history seats.now }
    ensures text { OnOk result (text.new.items ≡ text.old.items ++ flat_map (back_line core.now.history) (filter (is_clients seats.now.answers core.now.script core.now.history) (who.now ∷ []))) }
    ensures marked { OnOk result (AreMarkedLines text.old.items → AreMarkedLines text.new.items) }
    ensures clients { OnErr result (is_clients seats.now.answers core.now.script core.now.history who.now ≡ true) }
{
    if seats.holds(who) {
        return Ok(());
    }
    push_back(core, who, text)
}

// Makes the entry for the needed object. If its type is scripted, inserts it into the slots; otherwise asks the client for it. Leaves the
// notice of the client's object in `text`.
#[tactic(auto, using(crate::proofs::Asks::need_marks, crate::proofs::Marked::marked))]
fn fill<C: Client>(
    core: &mut Core,
    seats: &mut ScriptedSeats<'_>,
    client: &mut C,
    text: &mut Vec<u8>,
) -> Result<(), ServeError>
    requires good { core.old.health ≡ Good }
    requires needed { turn_of core.old.standing ≡ Some Turn.Need }
    requires asked { need_of core.old.standing ≡ need_in (next_of core.old.script core.old.history) }
    requires room { length core.old.history < log_limit core.old.script }
    requires backs { text.old.items ≡ backs_of seats.old.answers core.old.script core.old.history }
    requires marked { AreMarkedLines text.old.items }
    ensures seats { OnOk result (SeatsFollow core.old.history (next_of core.old.script core.old.history) seats.old seats.new) }
    ensures ok { OnOk result (Grows C.spoke C.ended C.line seats.old.answers core.old core.new client.old client.new text.new.items) }
    ensures err { IfErr result (λ error. Halts C.spoke C.ended C.line seats.old.answers error core.old.script core.old.history client.old client.new) }
    ensures wordless { OnOk result (word_in core.new.history ≡ None) }
    ensures output { result ≡ Err ServeError.Output → C.refuses client.old }
    ensures unreadable { IfErr result (λ error. IsUnheard error → C.breaks client.old) }
    ensures may_refuse { C.refuses client.new → C.refuses client.old }
    ensures may_break { C.breaks client.new → C.breaks client.old }
{
    let Some(need) = core.need() else {
        unreachable!()
    };
    let type_name = need.type_name;
    if seats.has_type(&type_name) {
        say(client, text)?;
        let who = core.made();
        seats.insert(*text.allocator(), who, &type_name)?;
        return Ok(());
    }
    push_need(core, text)?;
    send(client, text)?;
    let made = match client.read_made() {
        Ok(made) => made,
        Err(error) => return Err(ServeError::NoAnswer(error)),
    };
    if made {
        let who = core.made();
        push_new(core, &who, text)?;
    } else {
        core.declined();
    }
    Ok(())
}

// Makes the entry for the answer of a component or a sequence to its call. A scripted object gives the answer itself; otherwise the client is
// asked for it.
#[tactic(auto, using(crate::proofs::Asks::call_marks, crate::proofs::Marked::marked))]
fn ask<C: Client>(
    core: &mut Core,
    who: &Who,
    seats: &mut ScriptedSeats<'_>,
    client: &mut C,
    text: &mut Vec<u8>,
) -> Result<(), ServeError>
    requires good { core.old.health ≡ Good }
    requires asked { AsksNext who.now core.old }
    requires room { length core.old.history < log_limit core.old.script }
    requires backs { text.old.items ≡ backs_of seats.old.answers core.old.script core.old.history }
    requires marked { AreMarkedLines text.old.items }
    requires seated { AreSeated core.old.script core.old.history seats.old }
    ensures seats { OnOk result (SeatsFollow core.old.history (next_of core.old.script core.old.history) seats.old seats.new) }
    ensures ok { OnOk result (Grows C.spoke C.ended C.line seats.old.answers core.old core.new client.old client.new text.new.items) }
    ensures err { IfErr result (λ error. Halts C.spoke C.ended C.line seats.old.answers error core.old.script core.old.history client.old client.new) }
    ensures wordless { OnOk result (word_in core.new.history ≡ None) }
    ensures output { result ≡ Err ServeError.Output → C.refuses client.old }
    ensures unreadable { IfErr result (λ error. IsUnheard error → C.breaks client.old) }
    ensures may_refuse { C.refuses client.new → C.refuses client.old }
    ensures may_break { C.breaks client.new → C.breaks client.old }
{
    let Some(call) = core.call() else {
        unreachable!()
    };
    if let Some(acts) = seats.hear(*text.allocator(), who, call)? {
        say(client, text)?;
        return enter(core, acts);
    }
    push_ask(core, who, text)?;
    send(client, text)?;
    let acts = match client.read_acts() {
        Ok(acts) => acts,
        Err(error) => return Err(ServeError::NoAnswer(error)),
    };
    enter(core, acts)
}

// Makes the entry of an answer. Errors: out of memory.
fn enter(core: &mut Core, acts: Acts) -> Result<(), ServeError>
    requires { IsAsk (turn_of core.old.standing) }
    ensures ok { OnOk result (IfSome (answer_in core.old.standing acts) (λ entry. core.new ≡ core_after entry core.old)) }
    ensures err { IfErr result (λ error. error ≡ ServeError.Memory) }
{
    match core.heard(acts) {
        Ok(()) => Ok(()),
        Err(_) => Err(ServeError::Memory),
    }
}

// Says the text for the newest entry: the rest of `text`, the time, the line of the entry, and that of its report.
fn tell_entry<C: Client>(
    core: &Core,
    trace: bool,
    client: &mut C,
    text: &mut Vec<u8>,
) -> Result<(), ServeError>
    requires { core.now.health ≡ Good }
    ensures legal { IsLegal core.now.script core.now.history }
    ensures ok { OnOk result (C.spoke client.old client.new (said (text.old.items ++ told_last trace core.now.script core.now.history))) }
    ensures time { OnOk result (AreMarkedLines (time_in (newest core.now.history))) }
    ensures plain { OnOk result (ArePlainLines (last_text trace core.now.script core.now.history)) }
    ensures err { IfErr result (λ error. IsUntold error client.old client.new) }
    ensures count { C.line client.new ≡ C.line client.old }
    ensures output { result ≡ Err ServeError.Output → C.refuses client.old }
    ensures may_refuse { C.refuses client.new → C.refuses client.old }
    ensures may_break { C.breaks client.new → C.breaks client.old }
{
    // For the proof: the entry is the newest of a legal log.
    let _log = core.log();
    push_time(core, text)?;
    core.last_text(trace, text)?;
    say(client, text)
}

// Says the summary of the reports.
fn tell_summary<C: Client>(
    core: &Core,
    client: &mut C,
    text: &mut Vec<u8>,
) -> Result<(), ServeError>
    requires { core.now.health ≡ Good }
    ensures ok { OnOk result (C.spoke client.old client.new (said (summary_of core.now.script core.now.history))) }
    ensures plain { OnOk result (ArePlainLines (summary_of core.now.script core.now.history)) }
    ensures err { IfErr result (λ error. IsUntold error client.old client.new) }
    ensures output { result ≡ Err ServeError.Output → C.refuses client.old }
    ensures may_refuse { C.refuses client.new → C.refuses client.old }
    ensures may_break { C.breaks client.new → C.breaks client.old }
{
    text.clear();
    reports_of(core).summary(text)?;
    say(client, text)
}

// Says a text, which is then empty.
fn say<C: Client>(client: &mut C, text: &mut Vec<u8>) -> Result<(), ServeError>
    ensures ok { OnOk result (C.spoke client.old client.new (said text.old.items)) }
    ensures err { IfErr result (λ error. error ≡ ServeError.Output) }
    ensures text { OnOk result (text.new.items ≡ []) }
    ensures count { C.line client.new ≡ C.line client.old }
    ensures output { OnErr result (C.refuses client.old) }
    ensures may_refuse { C.refuses client.new → C.refuses client.old }
    ensures may_break { C.breaks client.new → C.breaks client.old }
{
    let Ok(()) = client.say(text.as_slice()) else {
        return Err(ServeError::Output);
    };
    text.clear();
    Ok(())
}

// Says a text, which is then empty, and sends all that was said.
fn send<C: Client>(client: &mut C, text: &mut Vec<u8>) -> Result<(), ServeError>
    ensures ok { OnOk result (C.spoke client.old client.new (said text.old.items)) }
    ensures sent { OnOk result (C.sent client.new) }
    ensures err { IfErr result (λ error. error ≡ ServeError.Output) }
    ensures text { OnOk result (text.new.items ≡ []) }
    ensures count { C.line client.new ≡ C.line client.old }
    ensures output { OnErr result (C.refuses client.old) }
    ensures may_refuse { C.refuses client.new → C.refuses client.old }
    ensures may_break { C.breaks client.new → C.breaks client.old }
{
    let Ok(()) = client.send(text.as_slice()) else {
        return Err(ServeError::Output);
    };
    text.clear();
    Ok(())
}
