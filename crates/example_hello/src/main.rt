//! A user's own testbench: one object, and one run of the script in the file `hello.toml`, which names the object's type as its test.
#![tactic(auto)]

use bench_run::{exit_status, run_script};
use rand_core::SeedableRng;
use rand_pcg::Pcg64;
use std::alloc::{AllocError, Global};
use std::fs;
use std::process::ExitCode;
use uvm_glob::Name;
use uvm_object::{Acts, Answers, Call, Object};
use uvm_phase::Phase;
use uvm_report::{Text, verbosity};

/// The test. In the run phase it raises an objection, so that the phase does not end, and waits for 10 ticks. Then it reports a greeting
/// and drops the objection. It answers each other call with no actions.
#[derive(Drop)]
struct Greeter;

impl Answers for Greeter {
    ghost use Rattle.std.specs.Prelude.{◌≡◌, ◌≢◌, [], ◌∷◌, codes};
    ghost use Rattle.uvm_object.specs.Relations.{Run, Info, reporting, Phase, Wake, DropObjection, RaiseObjection, Wait};

    // The answers in the run phase, at the wake-up, and to any other call.
    ghost says = { λ _ _ call acts _.
        (call ≡ Phase Run → acts ≡ RaiseObjection 1 ∷ Wait 10 0 ∷ [])
        × (call ≡ Wake 0 → acts ≡ reporting Info (codes "HELLO") (codes "hello") 100 ∷ DropObjection 1 ∷ [])
        × (call ≢ Phase Run → call ≢ Wake 0 → acts ≡ []) };

    fn answer(&mut self, alloc: Global, call: &Call) -> Result<Acts, AllocError> {
        let mut acts = Acts::new(alloc);
        match call {
            Call::Phase(Phase::Run) => {
                acts.raise_objection(1)?;
                acts.wait(10, 0)?;
            }
            Call::Wake { tag: 0 } => {
                acts.info("HELLO", Text::literal(alloc, "hello")?, verbosity::LOW)?;
                acts.drop_objection(1)?;
            }
            _ => (),
        }
        Ok(acts)
    }
}

/// Runs the script. Returns the exit status of the run, or 2 if the file cannot be read or is not a script.
fn main(rt: HostRuntime) -> ExitCode {
    let alloc = rt.alloc();
    let Ok(bytes) = fs::read(&rt, "hello.toml") else {
        return ExitCode::from(2);
    };
    let Ok(script) = bench_script::read(alloc, bytes.as_slice()) else {
        return ExitCode::from(2);
    };
    let mut words = Pcg64::seed_from_u64(1);
    let make = |type_name: &Name| -> Result<Option<Object<Greeter>>, AllocError> {
        Ok(Some(Object::new(*type_name, Greeter)))
    };
    let ended = run_script(alloc, script, &mut words, true, make, &mut rt.stdout());
    ExitCode::from(exit_status(&ended))
}
