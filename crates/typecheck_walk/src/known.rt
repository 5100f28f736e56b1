//! What is known of a tag at a place of a condition.

ghost use Rattle.std.specs.Prelude.{◌≡◌};
ghost use Rattle.typing_spec.specs.Capability.{has_cap};
ghost use Rattle.typing_spec.specs.Typing.{tag_known};
ghost use Rattle.typecheck_walk.specs.Asked.{asked};

use policy_expressions::{BinaryOp, Expr};
use typing_spec::{Capability, CapabilitySet};

// Whether the tag is known to be there, where the operator asks: a search among all that is known takes time.
pub(crate) fn knows_tag(caps: &CapabilitySet<'_>, op: BinaryOp, x: &Expr<()>, y: &Expr<()>) -> bool
    ensures { result ≡ asked op (has_cap caps.now (tag_known x.now y.now)) }
{
    match op {
        BinaryOp::GetTag => knows(caps, x, y),
        _ => false,
    }
}

fn knows(caps: &CapabilitySet<'_>, x: &Expr<()>, y: &Expr<()>) -> bool
    ensures { result ≡ has_cap caps.now (tag_known x.now y.now) }
{
    let k = Capability::new_borrowed_tag(x, y);
    let known = caps.contains(&k);
    drop(k);
    known
}
