//! Runs of kernels, written as text.

ghost use Rattle.std.specs.Prelude.{◌≡◌, true, IfSome};
ghost use Rattle.bench_run.specs.Kernels.{is_done};

use bench_run::{Core, CoreFault, Kernel, Misfit, Step, Unfit};
use rand_pcg::Pcg32;
use std::alloc::{AllocError, Global};
use uvm_glob::Name;
use uvm_object::{UvmObject, Who};
use uvm_tree::NodeId;

/// Writes a run until it ends, or the object at the path `until` is needed, and then abandons it and writes the objects that are
/// returned. When the object at the path `declined` is needed, supplies one of another type and then declines. Returns `None` if the run
/// takes more than 200 steps, a step fails, or memory runs out.
pub(crate) fn write_run<O: UvmObject, F: Fn(&Name) -> Result<Option<O>, AllocError>>(
    kernel: &mut Kernel<O>,
    declined: &[u8],
    until: &[u8],
    make: &F,
    text: &mut Vec<u8>,
) -> Option<()>
    requires { F.IsAlwaysCallable make.now }
{
    for _ in 0..200 {
        if !go(kernel, declined, until, make, text)? {
            return close(kernel, text);
        }
    }
    None
}

// Performs one step, and writes the new entry or the sequence whose object is returned. Returns whether the run goes on.
fn go<O: UvmObject, F: Fn(&Name) -> Result<Option<O>, AllocError>>(
    kernel: &mut Kernel<O>,
    declined: &[u8],
    until: &[u8],
    make: &F,
    text: &mut Vec<u8>,
) -> Option<bool>
    requires { F.IsAlwaysCallable make.now }
{
    let mut words = Pcg32::new(42, 54);
    match kernel.step(&mut words) {
        Ok(Step::Over) => Some(false),
        Ok(Step::Moved) => write_last(kernel.core(), text),
        Ok(
            Step::Back {
                who,
                object: _object,
            },
        ) => push(text, number_of(&who)),
        Ok(Step::Need) if is_needed(kernel, until) => stop(kernel, text),
        Ok(Step::Need) => meet(kernel, declined, make, text),
        Err(_) => None,
    }
}

/// Appends a line and returns true. Returns `None` if memory runs out.
pub(crate) fn push(text: &mut Vec<u8>, line: &[u8]) -> Option<bool> {
    match text.extend_from_slice(line) {
        Ok(()) => Some(true),
        Err(_) => None,
    }
}

fn write_last(core: &Core, text: &mut Vec<u8>) -> Option<bool> {
    match core.last_text(true, text) {
        Ok(()) => Some(true),
        Err(_) => None,
    }
}

// Returns the line of a sequence whose object is returned.
fn number_of(who: &Who) -> &'static [u8] {
    match who {
        Who::Sequence { id, .. } if id.number() == 1 => b"back 1\n",
        Who::Sequence { id, .. } if id.number() == 2 => b"back 2\n",
        _ => b"back\n",
    }
}

// Returns whether the object at a path is needed.
fn is_needed<O: UvmObject>(kernel: &Kernel<O>, path: &[u8]) -> bool {
    match kernel.need() {
        Some(need) => need.path.as_bytes() == path,
        None => false,
    }
}

// Writes the object that is needed. Returns that the run does not go on.
fn stop<O: UvmObject>(kernel: &Kernel<O>, text: &mut Vec<u8>) -> Option<bool> {
    write_need(kernel, text)?;
    Some(false)
}

// Writes the type and the path of the object that is needed.
fn write_need<O: UvmObject>(kernel: &Kernel<O>, text: &mut Vec<u8>) -> Option<bool> {
    let need = kernel.need()?;
    push(text, b"need ")?;
    push(text, need.type_name.as_bytes())?;
    push(text, b" ")?;
    push(text, need.path.as_bytes())?;
    push(text, b"\n")
}

// Creates and supplies the object that is needed, or declines it if it is at the path `declined`. Writes the newest entry.
fn meet<O: UvmObject, F: Fn(&Name) -> Result<Option<O>, AllocError>>(
    kernel: &mut Kernel<O>,
    declined: &[u8],
    make: &F,
    text: &mut Vec<u8>,
) -> Option<bool>
    requires { F.IsAlwaysCallable make.now }
{
    if is_needed(kernel, declined) {
        write_need(kernel, text)?;
        decline(kernel, made(make, &Name::new(b"idle").ok()?)?, text)?;
    } else {
        supply(kernel, make)?;
    }
    write_last(kernel.core(), text)
}

fn made<O: UvmObject, F: Fn(&Name) -> Result<Option<O>, AllocError>>(
    make: &F,
    type_name: &Name,
) -> Option<O>
    requires { F.IsAlwaysCallable make.now }
{
    match make(type_name) {
        Ok(object) => object,
        Err(_) => None,
    }
}

/// Creates and supplies the object that is needed. Returns `None` if none is needed, `make` gives none, or the kernel rejects it.
pub(crate) fn supply<O: UvmObject, F: Fn(&Name) -> Result<Option<O>, AllocError>>(
    kernel: &mut Kernel<O>,
    make: &F,
) -> Option<()>
    requires { F.IsAlwaysCallable make.now }
{
    let Some(need) = kernel.need() else {
        return None;
    };
    let Some(object) = made(make, &need.type_name) else {
        return None;
    };
    match kernel.supply(object) {
        Ok(()) => Some(()),
        Err(_) => None,
    }
}

// Supplies an object of another type, writes the type of the returned object, and declines.
fn decline<O: UvmObject>(kernel: &mut Kernel<O>, other: O, text: &mut Vec<u8>) -> Option<()> {
    turn_away(kernel, other, text)?;
    let Some(_) = kernel.need() else {
        return None;
    };
    kernel.decline();
    Some(())
}

fn turn_away<O: UvmObject>(kernel: &mut Kernel<O>, other: O, text: &mut Vec<u8>) -> Option<bool> {
    let Some(_) = kernel.need() else {
        return None;
    };
    match kernel.supply(other) {
        Ok(()) => None,
        Err(unfit) => write_unfit(&unfit, text),
    }
}

fn write_unfit<O: UvmObject>(unfit: &Unfit<O>, text: &mut Vec<u8>) -> Option<bool> {
    if unfit.why != Misfit::WrongType {
        return None;
    }
    push(text, b"unfit ")?;
    push(text, unfit.object.type_name().as_bytes())?;
    push(text, b"\n")
}

// Abandons the run. Writes whether it has ended, how many objects the kernel holds, the paths of the returned objects, and how many
// objects it holds then.
fn close<O: UvmObject>(kernel: &mut Kernel<O>, text: &mut Vec<u8>) -> Option<()> {
    kernel.abandon();
    push(text, ended(kernel)?)?;
    push(text, live(kernel))?;
    write_back(kernel, text)?;
    push(text, live(kernel))?;
    Some(())
}

// Returns the line `over` if the run has ended, or `failed` if the kernel has failed; otherwise `None`.
fn ended<O: UvmObject>(kernel: &mut Kernel<O>) -> Option<&'static [u8]>
    ensures { IfSome result (λ _. is_done kernel.new ≡ true) }
{
    let mut words = Pcg32::new(42, 54);
    match kernel.step(&mut words) {
        Ok(Step::Over) => Some(b"over\n"),
        Err(CoreFault::Failed) => Some(b"failed\n"),
        _ => None,
    }
}

// Returns the line with the number of held objects, which has no number above 3.
fn live<O: UvmObject>(kernel: &Kernel<O>) -> &'static [u8] {
    match kernel.live() {
        0 => b"live 0\n",
        1 => b"live 1\n",
        2 => b"live 2\n",
        3 => b"live 3\n",
        _ => b"live\n",
    }
}

// Writes the paths of the returned objects, one per line, and a last line `none` when no object is left. Returns `None` if there are more
// than 8 objects.
fn write_back<O: UvmObject>(kernel: &mut Kernel<O>, text: &mut Vec<u8>) -> Option<bool>
    requires { is_done kernel.old ≡ true }
{
    for _ in 0..9 {
        match back(kernel) {
            Some(node) => write_path(kernel.core(), node, text)?,
            None => return push(text, b"none\n"),
        };
    }
    None
}

// Removes an object from the kernel and returns its node; for a sequence, this is its home. Returns `None` if no object is held.
fn back<O: UvmObject>(kernel: &mut Kernel<O>) -> Option<NodeId>
    requires { is_done kernel.old ≡ true }
    ensures { is_done kernel.new ≡ true }
{
    let (who, _object) = kernel.give_back()?;
    Some(who.node())
}

fn write_path(core: &Core, node: NodeId, text: &mut Vec<u8>) -> Option<bool> {
    push(text, core.path(node)?.as_bytes())?;
    push(text, b"\n")
}

/// Writes the error that aborts a run, the number of entries, the newest entry, and the objects that are returned then.
pub(crate) fn write_break<O: UvmObject, F: Fn(&Name) -> Result<Option<O>, AllocError>>(
    kernel: &mut Kernel<O>,
    make: &F,
    text: &mut Vec<u8>,
) -> Option<()>
    requires { F.IsAlwaysCallable make.now }
{
    let fault = refusal(kernel, make)?;
    push(text, fault_line(fault))?;
    push(text, entries_line(kernel))?;
    write_last(kernel.core(), text)?;
    close(kernel, text)
}

fn fault_line(fault: CoreFault) -> &'static [u8] {
    match fault {
        CoreFault::Memory => b"out of memory\n",
        CoreFault::LogFull => b"log full\n",
        CoreFault::Failed | CoreFault::NoTest => b"fault\n",
    }
}

fn entries_line<O: UvmObject>(kernel: &Kernel<O>) -> &'static [u8] {
    match kernel.log().len() {
        2 => b"2 entries\n",
        1_000_000 => b"1000000 entries\n",
        _ => b"entries\n",
    }
}

// Performs steps until one fails, and returns its error. Returns `None` if the run ends, an object is not supplied, or 1,000,002 steps
// do not fail.
fn refusal<O: UvmObject, F: Fn(&Name) -> Result<Option<O>, AllocError>>(
    kernel: &mut Kernel<O>,
    make: &F,
) -> Option<CoreFault>
    requires { F.IsAlwaysCallable make.now }
{
    let mut words = Pcg32::new(42, 54);
    for _ in 0..1_000_002 {
        match kernel.step(&mut words) {
            Ok(Step::Need) => supply(kernel, make)?,
            Ok(Step::Moved | Step::Back { .. }) => (),
            Ok(Step::Over) => return None,
            Err(fault) => return Some(fault),
        }
    }
    None
}
