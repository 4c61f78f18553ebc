//! The changes of the variables, as they are written.

ghost use Rattle.std.specs.Prelude.{◌≡◌, ◌++◌, ◌-◌, ◌<◌, IfOk, None, OnOk, true};
ghost use Rattle.std.specs.Fmt.{decimal};
ghost use Rattle.bench_waves.specs.Changes.{change_text, stamp_line};
ghost use Rattle.bench_waves.specs.Dumps.{Ends, IsLastLocked, ShowsOne, advanced, gone_to};
ghost use Rattle.bench_waves.specs.Signals.{value_of};

use crate::signals::Signal;
use crate::values::push_value;
use bench_core::World;
use itoa::Buffer;
use std::alloc::{AllocError, Global};
use std::io::{self, Write};
use uvm_sequences::SeqId;

// The values that were written last, and where the dump is.
#[derive(Drop)]
pub(crate) struct Changes {
    alloc: Global,
    // How many steps a tick has.
    pub steps: u64,
    // The time of the dump, in steps.
    pub at: u64,
    // The last step of the tick.
    pub last: u64,
    // The time that was written last.
    pub stamp: Option<u64>,
    // The value of each variable that was written last; empty if none was.
    pub values: Vec<Vec<u8>>,
    // Where values and lines are built.
    pub value: Vec<u8>,
    pub line: Vec<u8>,
}

impl Changes {
    // Begins at time 0, where no variable has a value. Requires a step. Errors: out of memory.
    pub(crate) fn new(alloc: Global, steps: u64, signals: &[Signal]) -> Result<Changes, AllocError>
        requires { 0 < steps }
        ensures steps { IfOk result (λ changes. changes.steps ≡ steps) }
        ensures begin { IfOk result (λ changes. (changes.at ≡ 0) × (changes.last ≡ steps - 1)) }
        ensures none { IfOk result (λ changes. changes.stamp ≡ None) }
    {
        let mut values = Vec::new(alloc);
        for _signal in signals {
            values.push(Vec::new(alloc))?;
        }
        Ok(Changes {
            alloc,
            steps,
            at: 0,
            last: steps - 1,
            stamp: None,
            values,
            value: Vec::new(alloc),
            line: Vec::new(alloc),
        })
    }

    // Goes to the first step of a tick, unless the dump is there already. Requires a step. Errors: `InvalidInput` if a time in steps needs more
    // than 64 bits.
    pub(crate) fn go(&mut self, tick: u64) -> io::Result<()>
        requires { 0 < self.old.steps }
        ensures ok { OnOk result (self.new ≡ gone_to tick self.old) }
    {
        let Some(at) = tick.checked_mul(self.steps) else {
            return Err(io::Error::from(io::ErrorKind::InvalidInput));
        };
        let Some(last) = at.checked_add(self.steps - 1) else {
            return Err(io::Error::from(io::ErrorKind::InvalidInput));
        };
        if self.at < at {
            self.at = at;
            self.last = last;
        }
        Ok(())
    }

    // Goes to the next step of the tick, if it has another.
    pub(crate) fn advance(&mut self)
        ensures { self.new ≡ advanced self.old }
    {
        if self.at < self.last {
            self.at += 1;
        }
    }

    // Writes the value of a variable, if it has one that is not the last one. `locked` is the sequence that locked or grabbed a sequencer last,
    // if the variable shows that. Errors: the writer's; out of memory.
    pub(crate) fn show<W: Write>(
        &mut self,
        world: &World,
        code: usize,
        signal: &Signal,
        locked: Option<SeqId>,
        out: &mut W,
    ) -> io::Result<()>
        requires sound { world.now.sound ≡ true }
        requires locked { IsLastLocked world.now.history signal.now locked }
        ensures { OnOk result (ShowsOne code (λ value. value ≡ value_of world.now.script world.now.history signal.now) self.old self.new (W.contents out.old) (W.contents out.new)) }
    {
        self.value.clear();
        if !push_value(self.alloc, world, signal, locked, &mut self.value)? {
            return Ok(());
        }
        self.write(code, out)
    }

    // Writes a value of a variable, if it is not the last one. Errors: the writer's; out of memory.
    fn write<W: Write>(&mut self, code: usize, out: &mut W) -> io::Result<()>
        ensures { OnOk result (ShowsOne code (λ value. value ≡ self.old.value.items) self.old self.new (W.contents out.old) (W.contents out.new)) }
    {
        if !keep(&mut self.values, code, self.value.as_slice())? {
            return Ok(());
        }
        self.line.clear();
        push_change(
            self.stamp,
            self.at,
            code,
            self.value.as_slice(),
            &mut self.line,
        )?;
        out.write_all(self.line.as_slice())?;
        self.stamp = Some(self.at);
        Ok(())
    }

    // Writes the time after the last tick, so that a viewer shows the last values. Errors: the writer's; out of memory.
    pub(crate) fn finish<W: Write>(&mut self, out: &mut W) -> io::Result<()>
        ensures { OnOk result (Ends self.old.last (W.contents out.old) (W.contents out.new)) }
    {
        let end = self.last.saturating_add(1);
        self.line.clear();
        push_stamp(end, &mut self.line)?;
        out.write_all(self.line.as_slice())
    }
}

// Keeps a value, and returns whether it is another one than before. Errors: out of memory.
fn keep(values: &mut Vec<Vec<u8>>, code: usize, value: &[u8]) -> Result<bool, AllocError> {
    let Some(last) = values.get_mut(code) else {
        return Ok(false);
    };
    if last.as_slice() == value {
        return Ok(false);
    }
    last.clear();
    last.extend_from_slice(value)?;
    Ok(true)
}

// Appends the lines of a change. Errors: out of memory.
fn push_change(
    last: Option<u64>,
    stamp: u64,
    code: usize,
    value: &[u8],
    line: &mut Vec<u8>,
) -> Result<(), AllocError>
    ensures { OnOk result (line.new.items ≡ line.old.items ++ change_text last (record { stamp = stamp; code = code; value = value.now })) }
{
    if last != Some(stamp) {
        push_stamp(stamp, line)?;
    }
    line.extend_from_slice(value)?;
    line.push(b' ')?;
    push_decimal(code as u64, line)?;
    line.push(b'\n')?;
    Ok(())
}

// Appends the line of a time. Errors: out of memory.
fn push_stamp(stamp: u64, line: &mut Vec<u8>) -> Result<(), AllocError>
    ensures { OnOk result (line.new.items ≡ line.old.items ++ stamp_line stamp) }
{
    line.push(b'#')?;
    push_decimal(stamp, line)?;
    line.push(b'\n')?;
    Ok(())
}

fn push_decimal(number: u64, line: &mut Vec<u8>) -> Result<(), AllocError>
    ensures { OnOk result (line.new.items ≡ line.old.items ++ decimal number) }
{
    line.extend_from_slice(Buffer::new().format(number).as_bytes())
}
