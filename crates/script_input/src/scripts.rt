//! The test of a script.

ghost use Rattle.std.specs.Prelude.{◌≡◌, ◌≢◌, IfErr, IfOk, IsSome, None, Ok, Err, option_copied};
ghost use Rattle.script_input.specs.Scripts.{chosen};

use bench_script::{Script, ScriptFault};
use uvm_glob::Name;

/// Returns the script that is run: with `test` in place of its own test if it is given. Errors: those of `Script::with_test`; `Missing` if
/// the script has no test.
pub fn choose_test(script: Script, test: Option<&Name>) -> Result<Script, ScriptFault>
    ensures ok { IfOk result (λ tested. chosen (option_copied test.entry) script ≡ Ok tested) }
    ensures own { option_copied test.entry ≡ None → result ≡ chosen None script }
    ensures tested { IfOk result (λ tested. IsSome tested.test) }
    ensures err { IfErr result (λ fault. fault ≢ ScriptFault.Memory → chosen (option_copied test.entry) script ≡ Err fault) }
{
    let script = match test {
        Some(name) => script.with_test(name)?,
        None => script,
    };
    match script.test() {
        Some(_) => Ok(script),
        None => Err(ScriptFault::Missing),
    }
}
