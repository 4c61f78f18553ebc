//! The settings of a script (IEEE 1800.2-2020, Annex C).

ghost use Rattle.std.specs.Prelude.{◌≡◌, ℕ, ◌∷◌, ◌++◌, ◌≤◌, ◌<◌, List, OnOk, IfOk, length, map, reverse};
ghost use Rattle.uvm_glob.specs.Limits.{most_names};
ghost use Rattle.uvm_config.specs.ChosenValue.{precedence_of};
ghost use Rattle.uvm_config.specs.Observed.{accepted};
ghost use Rattle.bench_history.specs.Configuration.{given_setting};
ghost use Rattle.world_services.specs.Services.{IsSettings};
ghost use Rattle.uvm_config.specs.Answers as config;

use bench_script::Setting;
use std::alloc::{AllocError, Global};
use uvm_config::{Settings, laws};
use uvm_glob::{Glob, Name};

/// Creates the settings of a script, in their order. Errors: out of memory.
pub fn given_settings(alloc: Global, given: &[Setting]) -> Result<Settings, AllocError>
    requires { length given.now ≤ config.most_settings }
    ensures { IfOk result (IsSettings (reverse (map given_setting given.now))) }
{
    laws::none_set_no_answer();
    let mut settings = Settings::new(alloc);
    for setting in given {
        set_given(&mut settings, setting)?;
    }
    Ok(settings)
}

// Sets a field to the value that the script gives. Errors: out of memory.
fn set_given(settings: &mut Settings, setting: &Setting) -> Result<(), AllocError>
    requires { accepted settings.old < config.most_settings }
    ensures { OnOk result ((given : List config.Setting) → IsSettings given settings.old → IsSettings (given_setting setting.now ∷ given) settings.new) }
{
    let value = setting.value;
    let scope = setting.scope.copy()?;
    set(settings, 0, false, scope, setting.field, value)
}

/// Sets a field; the settings are not full. Errors: out of memory.
pub fn set(
    settings: &mut Settings,
    depth: u8,
    building: bool,
    scope: Glob,
    field: Name,
    value: i64,
) -> Result<(), AllocError>
    requires depth { depth ≤ most_names }
    requires few { accepted settings.old < config.most_settings }
    ensures { OnOk result ((given : List config.Setting) → IsSettings given settings.old →
        IsSettings (record { scope = scope; field = field; precedence = precedence_of building depth; value = value } ∷ given) settings.new) }
{
    laws::answers_are_given();
    match settings.set(depth, building, scope, field, value) {
        Ok(()) => Ok(()),
        Err(_) => Err(AllocError),
    }
}
