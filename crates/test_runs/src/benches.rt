//! Benches that are files, and the checks on a kernel that runs one.

ghost use Rattle.std.specs.Prelude.{◌≡◌, [], false};
ghost use Rattle.bench_run.specs.Health.TheVariants.{Good};

use crate::counts::{Count, begins, write_counts};
use crate::objects::{Idle, Mute, Spinner};
use crate::run_results::{Ended, ended};
use crate::runs::{write_break, write_run};
use bench_run::{CoreFault, Kernel, empty_kernel};
use bench_script::{Script, read_document, read_table};
use script_objects::{Answers, Scripted, read_answers};
use std::alloc::{AllocError, Global};
use std::str::from_utf8;
use toml::Table;
use uvm_glob::Name;
use uvm_object::{Call, UvmObject};
use uvm_phase::Phase;

/// A bench file, and the scenario that its run must show.
#[derive(Clone, Copy)]
pub(crate) struct Scene<'a> {
    /// The script, with the answers of its objects.
    pub(crate) file: &'a [u8],
    pub(crate) scenario: Scenario<'a>,
}

/// A check on a kernel under test, with the expected result.
#[derive(Clone, Copy)]
pub enum Scenario<'a> {
    /// A part of the text of the run and of the objects that are returned after it. When the object at the first path is needed, one of
    /// another type is supplied, and then the need is declined. The run is abandoned when the object at the second path is needed.
    Run(&'a [u8], &'a [u8], &'a str),
    /// The text of the error with which the run aborts, of the log then, and of the objects that are returned after it.
    Break(&'a str),
    /// The count at a path, as one digit for each change during the run.
    Counts(Count, &'a [u8], &'a str),
    /// The results of the queries before the first entry, and when the build phase of the test begins.
    Begin,
    /// The result of the run, with or without a trace, over a writer that fails after this number of writes.
    End(bool, usize, Ended),
    /// No kernel: the script has no test.
    Nothing,
}

/// Returns whether a bench file shows the scenario, with objects whose answers are data of the file.
pub fn shows(alloc: Global, file: &[u8], scenario: Scenario) -> bool {
    let scene = Scene { file, scenario };
    match read_document(alloc, file) {
        Ok(root) => document_shows(alloc, &root, &scene),
        Err(_) => false,
    }
}

fn document_shows(alloc: Global, root: &Table, scene: &Scene) -> bool {
    match answers_of(alloc, root) {
        Some(answers) => answers_show(alloc, root, &answers, scene),
        None => false,
    }
}

fn answers_of(alloc: Global, root: &Table) -> Option<Answers> {
    match root.get("answers") {
        Some(value) => read_answers(alloc, value.as_table()?).ok(),
        None => Some(Answers::new(alloc)),
    }
}

fn answers_show(alloc: Global, root: &Table, answers: &Answers, scene: &Scene) -> bool {
    let make = |type_name: &Name| -> Result<Option<Scripted<'_>>, AllocError> {
        scripted(alloc, answers, type_name)
    };
    script_shows(alloc, root, scene, &make)
}

fn scripted<'a>(
    alloc: Global,
    answers: &'a Answers,
    type_name: &Name,
) -> Result<Option<Scripted<'a>>, AllocError> {
    let rules = match answers.of_type(type_name) {
        Some(rules) => rules,
        None => &[],
    };
    Ok(Some(Scripted::new(alloc, type_name, rules)?))
}

/// Returns whether a bench file shows the scenario, with the objects that `make` creates.
pub fn shows_with<O: UvmObject, F: Fn(&Name) -> Result<Option<O>, AllocError>>(
    alloc: Global,
    file: &[u8],
    scenario: Scenario,
    make: &F,
) -> bool
    requires { F.IsAlwaysCallable make.now }
{
    let scene = Scene { file, scenario };
    match read_document(alloc, file) {
        Ok(root) => script_shows(alloc, &root, &scene, make),
        Err(_) => false,
    }
}

fn script_shows<O: UvmObject, F: Fn(&Name) -> Result<Option<O>, AllocError>>(
    alloc: Global,
    root: &Table,
    scene: &Scene,
    make: &F,
) -> bool
    requires { F.IsAlwaysCallable make.now }
{
    match read_table(alloc, root, &["answers"]) {
        Ok(script) => kernel_shows(alloc, script, scene, make),
        Err(_) => false,
    }
}

// Returns whether the kernel of a script shows the scenario. No other function owns a kernel.
fn kernel_shows<O: UvmObject, F: Fn(&Name) -> Result<Option<O>, AllocError>>(
    alloc: Global,
    script: Script,
    scene: &Scene,
    make: &F,
) -> bool
    requires { F.IsAlwaysCallable make.now }
{
    match Kernel::new(alloc, script) {
        Ok(mut kernel) => {
            let right = is_right(alloc, &mut kernel, scene, make);
            empty_kernel(&mut kernel);
            kernel.finish();
            right
        }
        Err(fault) => fault == CoreFault::NoTest && matches!(scene.scenario, Scenario::Nothing),
    }
}

fn is_right<O: UvmObject, F: Fn(&Name) -> Result<Option<O>, AllocError>>(
    alloc: Global,
    kernel: &mut Kernel<O>,
    scene: &Scene,
    make: &F,
) -> bool
    requires callable { F.IsAlwaysCallable make.now }
    requires good { kernel.old.core.health ≡ Good }
    requires going { kernel.old.failed ≡ false }
    requires begun { kernel.old.core.history ≡ [] }
{
    let mut text = Vec::new(alloc);
    let (told, shown) = match scene.scenario {
        Scenario::Run(declined, until, part) => {
            let told = write_run(kernel, declined, until, make, &mut text);
            return told.is_some() && has_part(text.as_slice(), part);
        }
        Scenario::Break(shown) => (write_break(kernel, make, &mut text), shown),
        Scenario::Counts(count, path, shown) => (
            write_counts(alloc, kernel, count, path, make, &mut text),
            shown,
        ),
        Scenario::Begin => return begins(alloc, kernel, make),
        Scenario::End(trace, writes, how) => return ended(alloc, kernel, trace, make, writes)
            == how,
        Scenario::Nothing => return false,
    };
    told.is_some() && text.as_slice() == shown.as_bytes()
}

fn has_part(text: &[u8], part: &str) -> bool {
    match from_utf8(text) {
        Ok(text) => text.contains(part),
        Err(_) => false,
    }
}

/// Creates an object that answers each call with no actions. Never fails.
pub fn make_idle(type_name: &Name) -> Result<Option<Idle>, AllocError> {
    Ok(Some(Idle {
        type_name: *type_name,
    }))
}

/// Creates an object that runs out of memory at each call. Never fails.
pub fn make_mute(type_name: &Name) -> Result<Option<Mute>, AllocError> {
    Ok(Some(Mute {
        type_name: *type_name,
    }))
}

/// Creates an object that waits in the run phase, and again after each wait. Never fails.
pub fn make_spinner(type_name: &Name) -> Result<Option<Spinner>, AllocError> {
    Ok(Some(Spinner {
        type_name: *type_name,
        waits: 1,
    }))
}

/// Returns whether a bench file shows the scenario, with boxed objects. Each begins `waits` waits in the run phase, and another wait after
/// each of them.
pub fn shows_in_boxes(alloc: Global, file: &[u8], waits: usize, scenario: Scenario) -> bool {
    let make = |type_name: &Name| -> Result<Option<Box<dyn UvmObject>>, AllocError> {
        let type_name = *type_name;
        match Box::new(alloc, Spinner { type_name, waits }) {
            Ok(object) => Ok(Some(object)),
            Err(_) => Err(AllocError),
        }
    };
    shows_with(alloc, file, scenario, &make)
}

/// Returns how often each key of a type has answered, as one digit for each, after an object of the type has received `build` this often.
/// `None` if the file is rejected or memory runs out.
pub fn answered(alloc: Global, file: &[u8], type_name: &str, builds: usize) -> Option<String> {
    let root = read_document(alloc, file).ok()?;
    let answers = answers_of(alloc, &root)?;
    let name = Name::new(type_name.as_bytes()).ok()?;
    let mut object = scripted(alloc, &answers, &name).ok()??;
    for _build in 0..builds {
        let _acts = object.answer_call(alloc, &Call::Phase(Phase::Build)).ok()?;
    }
    let mut text = String::new(alloc);
    for count in object.counts() {
        write!(&mut text, "{count}").ok()?;
    }
    Some(text)
}
