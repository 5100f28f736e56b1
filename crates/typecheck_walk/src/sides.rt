//! The sides of `&&` and `||`, put together.

ghost use Rattle.std.specs.Prelude.{◌≡◌, ◌++◌, ◌&&◌, IfOk};
ghost use Rattle.typecheck_rules.specs.Found.{findings_from};
ghost use Rattle.typecheck_walk.specs.Sides.{reached};

use policy_expressions::Expr;
use schema_types::Type;
use std::alloc::AllocError;
use typecheck_operators::{Part, or_drop, rest_of, unreached};
use typecheck_rules::{Finding, joined};
use typing_spec::CapabilitySet;

// Both sides, and what is found of them.
#[derive(Drop)]
pub(crate) struct Sides {
    pub(crate) ok: bool,
    pub(crate) left: Expr<Option<Type>>,
    pub(crate) right: Expr<Option<Type>>,
    pub(crate) found: Vec<Finding>,
}

// The type of `&&` or `||`, what it makes known, and whether the right side is reached.
#[derive(Drop)]
pub(crate) struct Own<'a> {
    pub(crate) of: Type,
    pub(crate) caps: CapabilitySet<'a>,
    pub(crate) is_reached: bool,
}

pub(crate) fn sides_of(v: Part<'_>, w: Part<'_>) -> Result<Sides, AllocError>
    ensures ok { IfOk result (λ s. s.ok ≡ (v.entry.ok && w.entry.ok)) }
    ensures left { IfOk result (λ s. s.left ≡ v.entry.tree) }
    ensures right { IfOk result (λ s. s.right ≡ w.entry.tree) }
    ensures found { IfOk result (λ s. findings_from s.found.items ≡
        findings_from v.entry.found.items ++ findings_from w.entry.found.items) }
{
    let ok = v.ok && w.ok;
    let (left, found) = rest_of(v);
    let (right, more) = rest_of(w);
    let found = or_drop!(joined(found, more), left, right);
    Ok(Sides {
        ok,
        left,
        right,
        found,
    })
}

// The expression, or what stands in its place where it is not reached.
pub(crate) fn if_reached(is_reached: bool, tree: Expr<Option<Type>>) -> Expr<Option<Type>>
    ensures { result ≡ reached is_reached tree }
{
    if is_reached {
        tree
    } else {
        drop(tree);
        unreached()
    }
}
