//! The requests and notices of the kernel. The lines of the transcript are not here.

ghost use Rattle.std.specs.Prelude.{◌≡◌, ◌++◌, ◌∷◌, [], IfOk, IfSome, IsSome, OnOk, Some};
ghost use Rattle.uvm_glob.specs.Lists.{newest};
ghost use Rattle.uvm_glob.specs.Printed.{IsPrinted};
ghost use Rattle.bench_core.specs.Cores.{call_of, need_of};
ghost use Rattle.bench_core.specs.declared.cores.Health.TheVariants.{Good};
ghost use Rattle.serve_dialogue.specs.Apart.{AreMarkedLines};
ghost use Rattle.serve_dialogue.specs.Dialogue.{ask_line, back_line, kind_and_who, kind_of, kind_word, need_line, new_line, time_in};

use bench_core::Core;
use itoa::Buffer;
use std::alloc::AllocError;
use uvm_factory::Kind;
use uvm_glob::laws::numbers_are_printed;
use uvm_lines::call_text;
use uvm_object::{Entry, Who};

/// Appends the request for the needed object. Errors: out of memory.
#[tactic(auto, using(crate::proofs::Marked::marked))]
pub(crate) fn push_need(core: &Core, text: &mut Vec<u8>) -> Result<(), AllocError>
    requires { IsSome (need_of core.now.standing) }
    ensures text { OnOk result (IfSome (need_of core.now.standing) (λ need. text.new.items ≡ text.old.items ++ need_line need)) }
    ensures marked { OnOk result (IfSome (need_of core.now.standing) (λ need. AreMarkedLines (need_line need))) }
{
    let Some(need) = core.need() else {
        unreachable!()
    };
    text.extend_from_slice(b"? need ")?;
    text.extend_from_slice(kind_word(need.kind).as_bytes())?;
    text.extend_from_slice(need.type_name.as_bytes())?;
    text.push(b' ')?;
    text.extend_from_slice(need.path.as_bytes())?;
    text.push(b'\n')?;
    Ok(())
}

/// Appends the request for the answer of a component or a sequence to its call. Errors: out of memory.
#[tactic(auto, using(crate::proofs::Marked::marked))]
pub(crate) fn push_ask(core: &Core, who: &Who, text: &mut Vec<u8>) -> Result<(), AllocError>
    requires asked { IsSome (call_of core.now.standing) }
    requires good { core.now.health ≡ Good }
    ensures text { OnOk result (IfSome (call_of core.now.standing) (λ call. text.new.items ≡ text.old.items ++ ask_line core.now.history who.now call)) }
    ensures marked { OnOk result (IfSome (call_of core.now.standing) (λ call. AreMarkedLines (ask_line core.now.history who.now call))) }
{
    let Some(call) = core.call() else {
        unreachable!()
    };
    text.extend_from_slice(b"? ask ")?;
    push_who(core, who, text)?;
    text.push(b' ')?;
    text.extend_from_slice(call_text(*text.allocator(), call)?.as_slice())?;
    text.push(b'\n')?;
    Ok(())
}

/// Appends the notice that a sequence has ended. Errors: out of memory.
#[tactic(auto, using(crate::proofs::Marked::marked))]
pub(crate) fn push_back(core: &Core, who: &Who, text: &mut Vec<u8>) -> Result<(), AllocError>
    requires { core.now.health ≡ Good }
    ensures text { OnOk result (text.new.items ≡ text.old.items ++ back_line core.now.history who.now) }
    ensures marked { OnOk result (AreMarkedLines (back_line core.now.history who.now)) }
{
    text.extend_from_slice(b"! back ")?;
    push_who(core, who, text)?;
    text.push(b'\n')?;
    Ok(())
}

/// Appends the notice of an object that was made. Errors: out of memory.
#[tactic(auto, using(crate::proofs::Marked::marked))]
pub(crate) fn push_new(core: &Core, who: &Who, text: &mut Vec<u8>) -> Result<(), AllocError>
    requires { core.now.health ≡ Good }
    ensures text { OnOk result (text.new.items ≡ text.old.items ++ new_line core.now.history (Some who.now)) }
    ensures marked { OnOk result (AreMarkedLines (new_line core.now.history (Some who.now))) }
{
    text.extend_from_slice(b"! new ")?;
    push_who(core, who, text)?;
    text.push(b'\n')?;
    Ok(())
}

/// Appends the notice of the new time in ticks if the newest entry is a time entry; otherwise nothing. Errors: out of memory.
#[tactic(auto, using(crate::proofs::Marked::marked))]
pub(crate) fn push_time(core: &Core, text: &mut Vec<u8>) -> Result<(), AllocError>
    ensures text { OnOk result (text.new.items ≡ text.old.items ++ time_in (newest core.now.history)) }
    ensures marked { OnOk result (AreMarkedLines (time_in (newest core.now.history))) }
{
    let Some(Entry::Time(time)) = core.log().last() else {
        return Ok(());
    };
    numbers_are_printed();
    text.extend_from_slice(b"! time ")?;
    text.extend_from_slice(Buffer::new().format(*time).as_bytes())?;
    text.push(b'\n')?;
    Ok(())
}

// Appends the text of a component or a sequence, after the word for its kind. Errors: out of memory.
#[tactic(auto, using(crate::proofs::Marked::marked))]
fn push_who(core: &Core, who: &Who, text: &mut Vec<u8>) -> Result<(), AllocError>
    requires { core.now.health ≡ Good }
    ensures text { OnOk result (text.new.items ≡ text.old.items ++ kind_and_who core.now.history who.now) }
    ensures printed { OnOk result (IsPrinted (kind_and_who core.now.history who.now)) }
{
    text.extend_from_slice(kind_word(kind_of(who)).as_bytes())?;
    text.extend_from_slice(core.who_text(*text.allocator(), who)?.as_slice())
}

fn kind_of(who: &Who) -> Kind
    ensures { result ≡ kind_of who.now }
{
    match who {
        Who::Node(_) => Kind::Component,
        Who::Sequence { .. } => Kind::Sequence,
    }
}

fn kind_word(kind: Kind) -> &'static str
    ensures { result.now ≡ kind_word kind }
{
    match kind {
        Kind::Component => "component ",
        Kind::Sequence => "sequence ",
    }
}
