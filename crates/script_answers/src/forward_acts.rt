//! Reads the forward actions.

ghost use Rattle.std.specs.Prelude.{◌≡◌, IfNone, IfSome};
ghost use Rattle.script_answer_acts.specs.declared.forward_acts.ForwardAct.{ForwardAct};
ghost use Rattle.script_answer_acts.specs.ForwardActs.{HasName, forward_act_stem};

use crate::words::name_of;
use script_answer_acts::ForwardAct;

// Returns the forward action whose text up to the item is `stem`. Returns `None` if there is none.
pub(crate) fn forward_act_of(stem: &str) -> Option<ForwardAct>
    ensures stem { IfSome result (λ passing. forward_act_stem passing ≡ stem.now) }
    ensures named { IfSome result HasName }
    ensures none { IfNone result ((passing : ForwardAct) → HasName passing → forward_act_stem passing ≡ stem.now → ⊥) }
{
    if stem == "send" {
        return Some(ForwardAct::Send);
    }
    if let Some(port) = stem.strip_prefix("put ") {
        return Some(ForwardAct::Put {
            port: name_of(port).ok()?,
        });
    }
    if let Some(port) = stem.strip_prefix("try_put ") {
        return Some(ForwardAct::TryPut {
            port: name_of(port).ok()?,
        });
    }
    if let Some(port) = stem.strip_prefix("write ") {
        return Some(ForwardAct::Write {
            port: name_of(port).ok()?,
        });
    }
    let port = stem.strip_prefix("item_done ")?;
    Some(ForwardAct::ItemDone {
        port: name_of(port).ok()?,
    })
}
