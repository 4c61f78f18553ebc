//! The command `debug`.

ghost use Rattle.std.specs.Prelude.{[], Err, ◌≡◌, ◌++◌, ◌<◌, length, OnOk, IfOk, IfErr};
ghost use Rattle.std.specs.List.{concat};
ghost use Rattle.std.specs.Io.KnownBytes.{Appends};
ghost use Rattle.uvm_factory.specs.Observed.{types_of, made_at};
ghost use Rattle.bench_script.specs.Documents.{IsReadable};
ghost use Rattle.bench_script.specs.Factories.{IsFactoryOf};
ghost use Rattle.bus_jobs.specs.Debugging.{IsDebugRun, BrokeOff, answer_line, answer_text, debug_lines};
ghost use Rattle.bench_history.specs.History.{type_name_or};

use crate::verdicts::Verdict;
use bench_run::Sink;
use bench_script::{Probe, Script, ScriptFault, factory_of};
use script_input::Breakage;
use std::alloc::{AllocError, Global};
use uvm_factory::{Factory, TypeId, Unmade, laws};

/// Writes a line for each probe of the script in `bytes`: the type that the factory makes there, or that the overrides form a loop. Returns
/// `Clean` if all lines were written. Returns `Refused`, with nothing written, if the bytes are not a script. Returns `Broken` if the sink
/// refuses a line, or if memory runs out. After out of memory the sink holds whole lines, from the first on. Bytes that are not UTF-8, or are
/// too many, never run out of memory.
pub fn debug_bench<S: Sink>(alloc: Global, bytes: &[u8], out: &mut S) -> Verdict
    ensures run { IsDebugRun bytes.now (S.contents out.old) (S.contents out.new) result }
    ensures memory { result ≡ Verdict.Broken Breakage.Memory → IsReadable bytes.now }
    ensures output { result ≡ Verdict.Broken Breakage.Output → S.refuses out.old }
{
    match bench_script::read(alloc, bytes) {
        Ok(script) => match answer(alloc, &script, out) {
            Ok(()) => Verdict::Clean,
            Err(breakage) => Verdict::Broken(breakage),
        },
        Err(ScriptFault::Memory) => Verdict::Broken(Breakage::Memory),
        Err(fault) => Verdict::Refused(fault),
    }
}

// Writes the line of each probe of a script. Errors: `Output` if the sink refuses a line; `Memory` (out of memory), after whole lines.
fn answer<S: Sink>(alloc: Global, script: &Script, out: &mut S) -> Result<(), Breakage>
    ensures ok { OnOk result (Appends (S.contents out.old) (S.contents out.new) (concat (debug_lines script.now))) }
    ensures err { IfErr result (BrokeOff (debug_lines script.now) (S.contents out.old) (S.contents out.new)) }
    ensures output { result ≡ Err Breakage.Output → S.refuses out.old }
{
    match factory_of(alloc, script) {
        Ok(factory) => write_answers(alloc, &factory, script, out),
        Err(_) => Err(Breakage::Memory),
    }
}

// Writes the line of each probe, by the factory of the script. Errors: as in `answer`.
fn write_answers<S: Sink>(
    alloc: Global,
    factory: &Factory,
    script: &Script,
    out: &mut S,
) -> Result<(), Breakage>
    requires { IsFactoryOf script.now factory.now }
    ensures ok { OnOk result (Appends (S.contents out.old) (S.contents out.new) (concat (debug_lines script.now))) }
    ensures err { IfErr result (BrokeOff (debug_lines script.now) (S.contents out.old) (S.contents out.new)) }
    ensures output { result ≡ Err Breakage.Output → S.refuses out.old }
{
    // For the proof: the type that a step leads to is the one that replaces the type before it.
    laws::steps_replace();
    let probes = script.probes();
    for probe in probes {
        let Ok(line) = line_of(alloc, factory, probe) else {
            return Err(Breakage::Memory);
        };
        let Ok(()) = out.put(line.as_slice()) else {
            return Err(Breakage::Output);
        };
    }
    Ok(())
}

// Returns the line of a probe. Errors: out of memory.
fn line_of(alloc: Global, factory: &Factory, probe: &Probe) -> Result<Vec<u8>, AllocError>
    requires { probe.now.type_id < length (types_of factory.now) }
    ensures { IfOk result (λ line. line.items ≡ answer_line (types_of factory.now) probe.now (made_at factory.now probe.now.path probe.now.type_id)) }
{
    let mut line = Vec::new(alloc);
    push_name(factory, probe.type_id, &mut line)?;
    line.extend_from_slice(b" @ ")?;
    probe.path.write(&mut line)?;
    match factory.resolve(probe.type_id, &probe.path) {
        Ok(made) => {
            line.extend_from_slice(b" -> ")?;
            push_name(factory, made, &mut line)?;
        }
        Err(Unmade::Loop) => line.extend_from_slice(b" loops")?,
        Err(Unmade::NoType) => unreachable!(),
    }
    line.push(b'\n')?;
    Ok(line)
}

// Appends the name of a type; nothing if there is no such type. Errors: out of memory.
fn push_name(factory: &Factory, type_id: TypeId, line: &mut Vec<u8>) -> Result<(), AllocError>
    ensures { OnOk result (line.new.items ≡ line.old.items ++ type_name_or (types_of factory.now) type_id []) }
{
    match factory.name_of(type_id) {
        Some(name) => line.extend_from_slice(name.as_bytes()),
        None => Ok(()),
    }
}
