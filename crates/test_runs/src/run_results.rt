//! The result of the run of a kernel, and the number of objects that the kernel holds then.

ghost use Rattle.std.specs.Prelude.{◌≡◌, [], false};
ghost use Rattle.bench_run.specs.Health.TheVariants.{Good};

use bench_run::{Kernel, RunFault, RunResult, run_kernel};
use rand_pcg::Pcg32;
use std::alloc::{AllocError, Global};
use std::io;
use std::io::{ErrorKind, Write};
use uvm_glob::Name;
use uvm_object::UvmObject;

// A writer that accepts `left` writes and fails at the next.
#[derive(Drop)]
struct Failing {
    left: usize,
}

impl Write for Failing {
    fn write(&mut self, buf: &[u8]) -> io::Result<usize> {
        if self.left == 0 {
            return Err(io::Error::from(ErrorKind::Other));
        }
        self.left -= 1;
        Ok(buf.len())
    }

    fn flush(&mut self) -> io::Result<()> {
        Ok(())
    }
}

/// The result of a run, the number of entries of its log, and the number of objects that the kernel then holds.
pub type Ended = (Result<RunResult, RunFault>, usize, usize);

/// Runs a kernel over a writer that accepts `writes` writes and fails at the next.
pub(crate) fn ended<O: UvmObject, F: Fn(&Name) -> Result<Option<O>, AllocError>>(
    alloc: Global,
    kernel: &mut Kernel<O>,
    trace: bool,
    make: &F,
    writes: usize,
) -> Ended
    requires callable { F.IsAlwaysCallable make.now }
    requires good { kernel.old.core.health ≡ Good }
    requires going { kernel.old.failed ≡ false }
    requires begun { kernel.old.core.history ≡ [] }
{
    let mut out = Failing { left: writes };
    let mut words = Pcg32::new(1, 1);
    let ended = run_kernel(alloc, kernel, &mut words, trace, make, &mut out);
    (ended, kernel.log().len(), kernel.live())
}
