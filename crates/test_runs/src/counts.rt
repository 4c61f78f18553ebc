//! Queries of a core during a run.

use crate::runs::{push, supply};
use bench_run::{Core, Kernel, Step};
use rand_pcg::Pcg32;
use std::alloc::{AllocError, Global};
use uvm_factory::Kind;
use uvm_glob::{Name, Path};
use uvm_object::UvmObject;
use uvm_phase::Phase;
use uvm_tree::NodeId;

/// A count at a node.
#[derive(Clone, Copy)]
pub enum Count {
    /// The number of waiting puts, gets and peeks of a FIFO, or of waiting item requests and locks of a sequencer.
    Waiting,
    /// The count of objections to the end of a phase that are raised at the node and below it.
    Raised(Phase),
}

/// Writes the digit of a count at a path each time that it changes, until the run ends. Returns `None` if the run does not end within
/// 200 steps, a step fails, or memory runs out.
pub(crate) fn write_counts<O: UvmObject, F: Fn(&Name) -> Result<Option<O>, AllocError>>(
    alloc: Global,
    kernel: &mut Kernel<O>,
    count: Count,
    path: &[u8],
    make: &F,
    digits: &mut Vec<u8>,
) -> Option<()>
    requires { F.IsAlwaysCallable make.now }
{
    let path = Path::parse(alloc, path).ok()?;
    let mut last: &[u8] = b"0";
    for _ in 0..200 {
        if !goes_on(kernel, make) {
            return if kernel.core().is_over() {
                Some(())
            } else {
                None
            };
        }
        let digit = digit_at(kernel.core(), count, &path);
        if digit != last {
            push(digits, digit)?;
            last = digit;
        }
    }
    None
}

// Performs one step, and supplies the object if one is needed. Returns false if the run has ended, or the step or the supply fails.
fn goes_on<O: UvmObject, F: Fn(&Name) -> Result<Option<O>, AllocError>>(
    kernel: &mut Kernel<O>,
    make: &F,
) -> bool
    requires { F.IsAlwaysCallable make.now }
{
    let mut words = Pcg32::new(42, 54);
    match kernel.step(&mut words) {
        Ok(Step::Moved | Step::Back { .. }) => true,
        Ok(Step::Need) => supply(kernel, make).is_some(),
        Ok(Step::Over) | Err(_) => false,
    }
}

// Returns the count at a path as a digit: `0` if there is no node, and `+` above 3.
fn digit_at(core: &Core, count: Count, path: &Path) -> &'static [u8] {
    match core.find(path) {
        Some(node) => digit_of(count_at(core, count, node)),
        None => b"0",
    }
}

fn count_at(core: &Core, count: Count, node: NodeId) -> u64 {
    match count {
        Count::Waiting => core.waiting(node) as u64,
        Count::Raised(phase) => core.total_in(phase, node),
    }
}

fn digit_of(count: u64) -> &'static [u8] {
    match count {
        0 => b"0",
        1 => b"1",
        2 => b"2",
        3 => b"3",
        _ => b"+",
    }
}

/// Returns whether the kernel requests the test twice, then creates it and begins the build phase.
pub(crate) fn begins<O: UvmObject, F: Fn(&Name) -> Result<Option<O>, AllocError>>(
    alloc: Global,
    kernel: &mut Kernel<O>,
    make: &F,
) -> bool
    requires { F.IsAlwaysCallable make.now }
{
    match (Path::parse(alloc, b"uvm_test_top"), Name::new(b"f")) {
        (Ok(test), Ok(field)) => {
            needs(kernel, &test)
                && needs(kernel, &test)
                && goes_on(kernel, make)
                && goes_on(kernel, make)
                && builds(kernel.core(), &test, &field)
        }
        _ => false,
    }
}

// Returns whether a step requests the component at a path, while this has no node and no phase is active.
fn needs<O: UvmObject>(kernel: &mut Kernel<O>, path: &Path) -> bool {
    let mut words = Pcg32::new(42, 54);
    let asks = matches!(kernel.step(&mut words), Ok(Step::Need));
    asks && is_needed(kernel.core(), path)
}

fn is_needed(core: &Core, path: &Path) -> bool {
    match core.need() {
        Some(need) => {
            need.kind == Kind::Component
                && need.path == *path
                && core.find(path).is_none()
                && core.phase().is_none()
        }
        None => false,
    }
}

// Returns whether the build phase is active, the test exists, and a field has the value 7 of the script. At this time nothing is
// raised, the time is 0, and the log has two entries.
fn builds(core: &Core, test: &Path, field: &Name) -> bool {
    core.phase() == Some(Phase::Build)
        && stands_at(core, test)
        && !core.is_over()
        && core.config(test, field) == Some(7)
        && core.total(NodeId::TOP) == 0
        && core.now() == 0
        && core.log().len() == 2
}

// Returns whether there is a node at a path, and it has that path.
fn stands_at(core: &Core, path: &Path) -> bool {
    match core.find(path) {
        Some(node) => core.path(node) == Some(path),
        None => false,
    }
}
