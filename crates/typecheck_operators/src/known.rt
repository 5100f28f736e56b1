//! What is known of an attribute at a place of a condition.

ghost use Rattle.std.specs.Prelude.{◌≡◌, IfOk};
ghost use Rattle.typing_spec.specs.Capability.{has_cap};
ghost use Rattle.typing_spec.specs.Typing.{attribute_known};

use policy_expressions::Expr;
use policy_values::Text;
use std::alloc::AllocError;
use typing_spec::{Capability, CapabilitySet};

/// Whether the attribute is known to be there. Mostly nothing is known at all, and then no
/// capability is made.
#[tactic(auto, using(crate::proofs::Nothing::has_none))]
pub fn knows_attribute(caps: &CapabilitySet<'_>, x: &Expr<()>, n: &Text) -> Result<bool, AllocError>
    ensures { IfOk result (λ known. known ≡ has_cap caps.now (attribute_known x.now n.now)) }
{
    if caps.is_empty() {
        return Ok(false);
    }
    let k = Capability::new_attribute(x, n.try_clone()?);
    let known = caps.contains(&k);
    drop(k);
    Ok(known)
}
