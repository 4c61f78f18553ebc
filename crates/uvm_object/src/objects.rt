//! The objects of a testbench.

ghost use Rattle.std.specs.Prelude.{◌≡◌, ℕ, List, IfOk};
ghost use Rattle.uvm_acts.specs.declared.acts.Call.{Call};
ghost use Rattle.uvm_acts.specs.declared.acts.Act.{Act};
ghost use Rattle.uvm_object.specs.Objects.{SameSays};

use std::alloc::{AllocError, Global};
use uvm_acts::{Acts, Call};
use uvm_glob::Name;

/// An object of a testbench: a component (IEEE 1800.2-2020, Clause 13), or a sequence (Clause 14). It receives a call and answers
/// with actions.
///
/// Three ghost members state its meaning. `view` is its visible state, as numbers, and `name` is the name of its type. The relation
/// `says` relates a view, a call, the actions that may answer the call in this view, and the next view. If the relation allows one
/// answer and one next view for each call, the object is a function of its calls.
pub trait UvmObject: Drop {
    ghost view: { Self → List ℕ };

    ghost name: { Self → List ℕ };

    ghost says: { Self → List ℕ → Call → List Act → List ℕ → Type 0 };

    /// Returns the name of its type, by which the factory creates it (Clause 8).
    fn type_name(&self) -> &Name
        ensures { result.now ≡ name self.now };

    /// Returns its answer to a call. Its type name and its relation stay the same. Errors: out of memory. After an error the view is
    /// unknown.
    fn hear(&mut self, alloc: Global, call: &Call) -> Result<Acts, AllocError>
        ensures same_name { name self.new ≡ name self.old }
        ensures same_says { SameSays (says self.new) (says self.old) }
        ensures said { IfOk result (λ acts. says self.old (view self.old) call.now acts (view self.new)) };
}

/// A boxed object behaves as the object in the box.
impl UvmObject for Box<dyn UvmObject> {
    ghost view = { λ b. (UvmObject-box b).view b.value };

    ghost name = { λ b. (UvmObject-box b).name b.value };

    ghost says = { λ b. (UvmObject-box b).says b.value };

    fn type_name(&self) -> &Name {
        self.as_ref().type_name()
    }

    fn hear(&mut self, alloc: Global, call: &Call) -> Result<Acts, AllocError> {
        self.as_mut().hear(alloc, call)
    }
}

/// The behaviour of an object, without the name of its type: `Object` makes an object of both. Its ghost members `view` and `says` are those
/// of `UvmObject`. By default the view is empty and the relation always holds, so that nothing is proved about its answers.
pub trait Answers: Drop {
    ghost use Rattle.std.specs.Prelude.{[], ⊤};

    ghost view: { Self → List ℕ } = { λ _. [] };

    ghost says: { Self → List ℕ → Call → List Act → List ℕ → Type 0 } = { λ _ _ _ _ _. ⊤ };

    /// Returns the answer to a call. The relation stays the same. Errors: out of memory. After an error the view is unknown.
    fn answer(&mut self, alloc: Global, call: &Call) -> Result<Acts, AllocError>
        ensures same_says { SameSays (says self.new) (says self.old) }
        ensures said { IfOk result (λ acts. says self.old (view self.old) call.now acts (view self.new)) };
}

/// An object with a type name, which has the view, the relation and the answers of its part.
#[derive(Drop)]
pub struct Object<T> {
    /// The name of its type.
    pub type_name: Name,
    /// The behaviour, which answers the calls.
    pub part: T,
}

impl<T> Object<T> {
    /// Creates an object with this type name.
    pub fn new(type_name: Name, part: T) -> Object<T>
        ensures { result ≡ record { type_name = type_name; part = part } }
    {
        Object { type_name, part }
    }
}

impl<T: Answers> UvmObject for Object<T> {
    ghost view = { λ object. T.view object.part };

    ghost name = { λ object. object.type_name };

    ghost says = { λ object. T.says object.part };

    fn type_name(&self) -> &Name {
        &self.type_name
    }

    fn hear(&mut self, alloc: Global, call: &Call) -> Result<Acts, AllocError> {
        self.part.answer(alloc, call)
    }
}
