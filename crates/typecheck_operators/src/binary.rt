//! Operators of two operands, both of which are walked.

ghost use Rattle.std.specs.Prelude.{◌≡◌, ◌++◌, IfOk, Some};
ghost use Rattle.typing_spec.specs.Typing as typing;
ghost use Rattle.typecheck_rules.specs.Walked as walked;
ghost use Rattle.typecheck_rules.specs.Found.{findings_from};
ghost use Rattle.typecheck_operators.specs.Operands as definition;
ghost use Rattle.typecheck_operators.specs.Reported.{operand_of, walked_of};

use crate::reported::{Part, Reported, Typing, expect_if, failed, parted, rest_of, typed};
use policy_expressions::{BinaryOp, BuildError, Expr, Loc};
use schema_core::{RequestEnv, ValidatorSchema};
use schema_types::Type;
use std::alloc::{AllocError, Global};
use typecheck_rules::{Finding, binary_given, binary_own, binary_type, joined, left_of, right_of};
use typing_spec::{Capability, CapabilitySet};

/// An operator of two operands, where it stands in a policy.
#[derive(Clone, Copy)]
pub struct Operator<'b, 'a> {
    /// The schema.
    pub schema: &'b ValidatorSchema,
    /// The environment.
    pub env: &'b RequestEnv<'a>,
    /// Which operator.
    pub op: BinaryOp,
    /// Whether the tag that the operands name is known to be there.
    pub known: bool,
    /// The left operand.
    pub left: &'a Expr<()>,
    /// The right operand.
    pub right: &'a Expr<()>,
    /// Where it stands.
    pub loc: Option<Loc>,
}

/// An operator of two operands, by what these come to.
pub fn binary_reported<'a>(
    alloc: Global,
    o: &Operator<'_, 'a>,
    v: Reported<'a>,
    w: Reported<'a>,
) -> Result<Reported<'a>, BuildError>
    ensures { IfOk result (λ r. walked_of r ≡
        definition.binary_walked o.now (walked_of v.entry) (walked_of w.entry)) }
{
    let v = or_drop!(expect_if(alloc, left_of(o.op), o.left.source_loc(), v), w);
    let w = or_drop!(expect_if(alloc, right_of(o.op), o.right.source_loc(), w), v);
    binary_fitting(alloc, o, v, w)
}

fn binary_fitting<'a>(
    alloc: Global,
    o: &Operator<'_, 'a>,
    v: Reported<'a>,
    w: Reported<'a>,
) -> Result<Reported<'a>, BuildError>
    ensures { IfOk result (λ r. walked_of r ≡
        definition.binary_fitting o.now (walked_of v.entry) (walked_of w.entry)) }
{
    let v = or_drop!(parted(alloc, v), w);
    let w = or_drop!(parted(alloc, w), v);
    binary_ended(alloc, o, v, w)
}

#[tactic(auto, using(crate::proofs::BinaryLaws::binary_by_type))]
fn binary_ended<'a>(
    alloc: Global,
    o: &Operator<'_, 'a>,
    v: Part<'a>,
    w: Part<'a>,
) -> Result<Reported<'a>, BuildError>
    ensures { IfOk result (λ r. walked_of r ≡
        definition.binary_of o.now (operand_of v.entry) (operand_of w.entry)) }
{
    let found = or_drop!(own_found(alloc, o, &v.of, &w.of), v, w);
    let own = or_drop!(own_type(alloc, o, &v.of, &w.of), found, v, w);
    binary_by(alloc, o, own, v, w, found)
}

fn own_found<'a>(
    alloc: Global,
    o: &Operator<'_, 'a>,
    t: &Option<Type>,
    u: &Option<Type>,
) -> Result<Vec<Finding>, AllocError>
    ensures { IfOk result (λ r. findings_from r.items ≡ definition.binary_own o.now t.now u.now) }
{
    binary_own(
        alloc, o.schema, o.env, o.op, o.known, o.left, o.right, o.loc, t, u,
    )
}

// The type by the rule, of the types that are given.
fn own_type<'a>(
    alloc: Global,
    o: &Operator<'_, 'a>,
    t: &Option<Type>,
    u: &Option<Type>,
) -> Result<Option<Type>, AllocError>
    ensures { IfOk result (λ own. own ≡ definition.binary_type o.now t.now u.now) }
{
    match t {
        Some(t) => match u {
            Some(u) => binary_type(alloc, o.schema, o.env, o.op, o.known, o.left, o.right, t, u),
            None => Ok(None),
        },
        None => Ok(None),
    }
}

fn binary_by<'a>(
    alloc: Global,
    o: &Operator<'_, 'a>,
    own: Option<Type>,
    v: Part<'a>,
    w: Part<'a>,
    found: Vec<Finding>,
) -> Result<Reported<'a>, BuildError>
    ensures { IfOk result (λ r. walked_of r ≡
        definition.binary_by o.now own (operand_of v.entry) (operand_of w.entry)
        (findings_from found.items)) }
{
    match own {
        Some(own) => {
            if v.ok && w.ok {
                drop(found);
                binary_success(alloc, o, own, v, w)
            } else {
                binary_failure(alloc, o, Some(own), v, w, found)
            }
        }
        None => {
            let given = binary_given(o.schema, o.env, o.op, o.left, o.right, &v.of);
            binary_failure(alloc, o, given, v, w, found)
        }
    }
}

fn binary_success<'a>(
    alloc: Global,
    o: &Operator<'_, 'a>,
    own: Type,
    v: Part<'a>,
    w: Part<'a>,
) -> Result<Reported<'a>, BuildError>
    ensures { IfOk result (λ r. walked_of r ≡
        walked.Success (definition.binary_own_typing o.now own v.entry.tree w.entry.tree)) }
{
    let (left, found) = rest_of(v);
    drop(found);
    let (right, found) = rest_of(w);
    drop(found);
    let tree = or_drop!(binary_tree(alloc, o, &own, left, right), own);
    let caps = or_drop!(binary_caps(alloc, o.op, o.left, o.right), own, tree);
    let of = own;
    Ok(typed(alloc, Typing { of, caps, tree })?)
}

fn binary_tree<'a>(
    alloc: Global,
    o: &Operator<'_, 'a>,
    own: &Type,
    left: Expr<Option<Type>>,
    right: Expr<Option<Type>>,
) -> Result<Expr<Option<Type>>, BuildError>
    ensures { IfOk result (λ t. t ≡ definition.binary_tree o.now left right (Some own.now)) }
{
    let note = or_drop!(own.try_clone(alloc), left, right);
    Expr::binary_app(alloc, o.op, left, right, Some(note), o.loc)
}

fn binary_failure<'a>(
    alloc: Global,
    o: &Operator<'_, 'a>,
    given: Option<Type>,
    v: Part<'a>,
    w: Part<'a>,
    own: Vec<Finding>,
) -> Result<Reported<'a>, BuildError>
    ensures { IfOk result (λ r. walked_of r ≡
        definition.binary_failed o.now given (operand_of v.entry) (operand_of w.entry)
        (findings_from own.items)) }
{
    let (left, found) = rest_of(v);
    let (right, more) = rest_of(w);
    let found = or_drop!(joined_all(found, more, own), given, left, right);
    let tree = or_drop!(
        Expr::binary_app(alloc, o.op, left, right, given, o.loc),
        found
    );
    Ok(failed(alloc, tree, found)?)
}

fn joined_all(
    found: Vec<Finding>,
    more: Vec<Finding>,
    own: Vec<Finding>,
) -> Result<Vec<Finding>, AllocError>
    ensures { IfOk result (λ r. findings_from r.items ≡
        findings_from found.items ++ (findings_from more.items ++ findings_from own.items)) }
{
    let more = or_drop!(joined(more, own), found);
    joined(found, more)
}

// `hasTag` makes the tag known.
fn binary_caps<'a>(
    alloc: Global,
    op: BinaryOp,
    x: &'a Expr<()>,
    y: &'a Expr<()>,
) -> Result<CapabilitySet<'a>, AllocError>
    ensures { IfOk result (λ s. s ≡ typing.binary_caps op x.now y.now) }
{
    match op {
        BinaryOp::HasTag => CapabilitySet::singleton(alloc, Capability::new_borrowed_tag(x, y)),
        _ => Ok(CapabilitySet::new(alloc)),
    }
}
