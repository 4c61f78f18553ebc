//! Runs a script over counted objects and checks the run.

use crate::counts::{Counts, Ticket};
use crate::records::Record;
use crate::violations::Violation;
use bench_run::{Core, CoreFault, Kernel, Misfit, Step, Unfit, empty_kernel};
use bench_script::Script;
use rand_core::SeedableRng;
use rand_pcg::Pcg64;
use std::alloc::{AllocError, Global};
use std::rc::Rc;
use uvm_glob::Name;
use uvm_object::{Answers, Object, Who};

// The number of steps within which a run must end.
const MOST_STEPS: u32 = 200_000;

/// The behaviour of a counted object.
pub trait Behaviour: Answers {
    /// Returns the ticket that counts the object.
    fn ticket(&self) -> &Ticket;
}

/// A fault plan: the behaviours of the objects of a bench, and what its caller does in addition to supplying the needed objects.
pub trait FaultPlan<P: Behaviour>: Drop {
    /// Creates the behaviour of an object of the type `type_name`, with its ticket. Errors: out of memory.
    fn behaviour(
        &mut self,
        alloc: Global,
        ticket: Ticket,
        type_name: &Name,
    ) -> Result<P, AllocError>;

    /// Returns whether the run is aborted before this step.
    fn abandons(&mut self) -> bool;

    /// Returns whether the kernel is stepped once more while it needs an object.
    fn asks_again(&mut self) -> bool;

    /// Returns the type of an object to supply before the needed one, or `None` to supply none. The type is not the needed one.
    fn other_type(&mut self, needed: &Name) -> Option<Name>;

    /// Returns whether the needed object is declined.
    fn declines(&mut self) -> bool;
}

/// A run under test: its fault plan, its counts and its random numbers, and the record of what it has shown.
#[derive(Drop)]
pub struct RunUnderTest<W> {
    fault_plan: W,
    counts: Rc<Counts>,
    words: Pcg64,
    turned_away: usize,
    record: Record,
}

impl<W: Drop> RunUnderTest<W> {
    /// Creates the run under test of `seed`, in which `answers` answers are left to give. Errors: out of memory.
    pub fn new(
        alloc: Global,
        seed: u64,
        answers: u64,
        fault_plan: W,
    ) -> Result<RunUnderTest<W>, AllocError> {
        Ok(RunUnderTest {
            fault_plan,
            counts: Counts::new(alloc, answers)?,
            words: Pcg64::seed_from_u64(seed),
            turned_away: 0,
            record: Record::new(alloc),
        })
    }

    /// Returns the counts of its objects.
    pub fn counts(&self) -> &Counts {
        &self.counts
    }

    /// Returns the number of objects of a type other than the needed one that were rejected and returned immediately.
    pub fn turned_away(&self) -> usize {
        self.turned_away
    }

    /// Returns the record of what the run has shown.
    pub fn record(&self) -> &Record {
        &self.record
    }

    // Records a component or sequence that is returned with its object. Errors: those of `Record::note_who`, then those of
    // `Record::note_object`.
    fn note_back<P: Behaviour>(
        &mut self,
        core: &Core,
        who: &Who,
        object: &Object<P>,
    ) -> Result<(), Violation> {
        self.record.note_who(core, who)?;
        self.record.note_object(object)
    }
}

// Creates a counted object of a type. Errors: `AllocError` if the reference count of the counts is at its limit; out of memory.
fn object<P: Behaviour, W: FaultPlan<P>>(
    alloc: Global,
    run_under_test: &mut RunUnderTest<W>,
    type_name: &Name,
) -> Result<Object<P>, AllocError> {
    let ticket = Ticket::new(&run_under_test.counts)?;
    let behaviour = run_under_test
        .fault_plan
        .behaviour(alloc, ticket, type_name)?;
    Ok(Object::new(*type_name, behaviour))
}

/// Runs `script` over the objects of a run under test, until it has ended, is aborted, or an object gives no answer. Then takes back each
/// object. Succeeds if the script has no test. The error is the first check that fails, or `Memory`. No other function of this module owns
/// a kernel.
pub fn run_script<P: Behaviour, W: FaultPlan<P>>(
    alloc: Global,
    script: Script,
    run_under_test: &mut RunUnderTest<W>,
) -> Result<(), Violation> {
    match Kernel::<Object<P>>::new(alloc, script) {
        Ok(mut kernel) => {
            let played = run_kernel(alloc, &mut kernel, run_under_test);
            empty_kernel(&mut kernel);
            kernel.finish();
            played?;
            if !run_under_test.record.are_back(run_under_test.counts.made()) {
                return Err(Violation::NotBack);
            }
            if !run_under_test.counts.are_dropped() {
                return Err(Violation::NotDropped);
            }
            Ok(())
        }
        Err(CoreFault::NoTest) => Ok(()),
        Err(_) => Err(Violation::Memory),
    }
}

fn run_kernel<P: Behaviour, W: FaultPlan<P>>(
    alloc: Global,
    kernel: &mut Kernel<Object<P>>,
    run_under_test: &mut RunUnderTest<W>,
) -> Result<(), Violation> {
    run_to_end(alloc, kernel, run_under_test)?;
    stays_ended(kernel, run_under_test)?;
    if !run_under_test.record.has_lines_of(kernel.log()) {
        return Err(Violation::Lines);
    }
    take_back(kernel, run_under_test)?;
    if kernel.live() != 0 {
        return Err(Violation::Held);
    }
    Ok(())
}

// Steps the kernel until the run has ended or is aborted, or has failed since an object gave no answer. Errors: those of `goes_on`;
// `Endless` after `MOST_STEPS` steps.
fn run_to_end<P: Behaviour, W: FaultPlan<P>>(
    alloc: Global,
    kernel: &mut Kernel<Object<P>>,
    run_under_test: &mut RunUnderTest<W>,
) -> Result<(), Violation> {
    for _ in 0..MOST_STEPS {
        if !goes_on(alloc, kernel, run_under_test)? {
            return Ok(());
        }
    }
    Err(Violation::Endless)
}

// Performs a step. Returns whether the run goes on.
fn goes_on<P: Behaviour, W: FaultPlan<P>>(
    alloc: Global,
    kernel: &mut Kernel<Object<P>>,
    run_under_test: &mut RunUnderTest<W>,
) -> Result<bool, Violation> {
    if run_under_test.fault_plan.abandons() {
        kernel.abandon();
        return Ok(kernel.core().is_over());
    }
    match kernel.step(&mut run_under_test.words) {
        Ok(Step::Over) => return Ok(false),
        Ok(Step::Moved) => run_under_test.record.note_entry(kernel.core())?,
        Ok(Step::Back { who, object }) => run_under_test.note_back(kernel.core(), &who, &object)?,
        Ok(Step::Need) => meet(alloc, kernel, run_under_test)?,
        Err(CoreFault::Memory) if run_under_test.counts.is_silent() => return Ok(false),
        Err(_) => return Err(Violation::Fault),
    }
    Ok(true)
}

// Supplies the needed object, or declines it. Before that, the fault plan may step the kernel once more, or supply an object of another
// type.
fn meet<P: Behaviour, W: FaultPlan<P>>(
    alloc: Global,
    kernel: &mut Kernel<Object<P>>,
    run_under_test: &mut RunUnderTest<W>,
) -> Result<(), Violation> {
    if run_under_test.fault_plan.asks_again() {
        asks_again(kernel, run_under_test)?;
    }
    supply_another(alloc, kernel, run_under_test)?;
    if run_under_test.fault_plan.declines() {
        decline(kernel)?;
    } else {
        supply(alloc, kernel, run_under_test)?;
    }
    run_under_test.record.note_entry(kernel.core())
}

// Steps the kernel while it needs an object. Errors: `NeedLost` if the step does not request the object again.
fn asks_again<P: Behaviour, W: FaultPlan<P>>(
    kernel: &mut Kernel<Object<P>>,
    run_under_test: &mut RunUnderTest<W>,
) -> Result<(), Violation> {
    match kernel.step(&mut run_under_test.words) {
        Ok(Step::Need) => Ok(()),
        _ => Err(Violation::NeedLost),
    }
}

// Supplies an object of a type other than the needed one, if the fault plan has one. The kernel must reject it for its type and return it
// unchanged.
fn supply_another<P: Behaviour, W: FaultPlan<P>>(
    alloc: Global,
    kernel: &mut Kernel<Object<P>>,
    run_under_test: &mut RunUnderTest<W>,
) -> Result<(), Violation> {
    let Some(need) = kernel.need() else {
        return Err(Violation::NeedLost);
    };
    let Some(other) = run_under_test.fault_plan.other_type(&need.type_name) else {
        return Ok(());
    };
    let object = object(alloc, run_under_test, &other)?;
    match kernel.supply(object) {
        Ok(()) => Err(Violation::WrongTaken),
        Err(unfit) => note_unfit(&unfit, run_under_test),
    }
}

fn note_unfit<P: Behaviour, W: FaultPlan<P>>(
    unfit: &Unfit<Object<P>>,
    run_under_test: &mut RunUnderTest<W>,
) -> Result<(), Violation> {
    if unfit.why != Misfit::WrongType {
        return Err(Violation::Memory);
    }
    run_under_test.turned_away = run_under_test.turned_away.wrapping_add(1);
    run_under_test.record.note_object(&unfit.object)
}

fn decline<P: Behaviour>(kernel: &mut Kernel<Object<P>>) -> Result<(), Violation> {
    let Some(_) = kernel.need() else {
        return Err(Violation::NeedLost);
    };
    kernel.decline();
    Ok(())
}

fn supply<P: Behaviour, W: FaultPlan<P>>(
    alloc: Global,
    kernel: &mut Kernel<Object<P>>,
    run_under_test: &mut RunUnderTest<W>,
) -> Result<(), Violation> {
    let Some(need) = kernel.need() else {
        return Err(Violation::NeedLost);
    };
    let object = object(alloc, run_under_test, &need.type_name)?;
    match kernel.supply(object) {
        Ok(()) => Ok(()),
        Err(_) => Err(Violation::NotTaken),
    }
}

// Checks that three more steps change nothing: a run that has ended stays so, and so does a run that was aborted or has failed.
fn stays_ended<P: Behaviour, W: FaultPlan<P>>(
    kernel: &mut Kernel<Object<P>>,
    run_under_test: &mut RunUnderTest<W>,
) -> Result<(), Violation> {
    let entries = kernel.log().len();
    for _ in 0..3 {
        let stays = match kernel.step(&mut run_under_test.words) {
            Ok(Step::Over) => kernel.core().is_over(),
            Err(CoreFault::Failed) => !kernel.core().is_over(),
            _ => false,
        };
        if !stays || kernel.need().is_some() || kernel.log().len() != entries {
            return Err(Violation::GoesOn);
        }
    }
    Ok(())
}

// Takes back each object that the kernel holds. Errors: `Held` if it returns fewer or more than it holds; those of `note_back`.
fn take_back<P: Behaviour, W: FaultPlan<P>>(
    kernel: &mut Kernel<Object<P>>,
    run_under_test: &mut RunUnderTest<W>,
) -> Result<(), Violation> {
    run_under_test.record.begin_return();
    for _ in 0..kernel.live() {
        match given_back(kernel) {
            Some((who, object)) => run_under_test.note_back(kernel.core(), &who, &object)?,
            None => return Err(Violation::Held),
        }
    }
    match given_back(kernel) {
        Some(_) => Err(Violation::Held),
        None => Ok(()),
    }
}

fn given_back<P: Behaviour>(kernel: &mut Kernel<Object<P>>) -> Option<(Who, Object<P>)> {
    kernel.abandon();
    kernel.give_back()
}
