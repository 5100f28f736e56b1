//! `if`.

ghost use Rattle.std.specs.Prelude.{◌≡◌, ◌++◌, ◌&&◌, IfOk, Some, None};
ghost use Rattle.std.specs.Option.{unwrap_or};
ghost use Rattle.policy_expressions.specs.Tree.{ite, mark_of};
ghost use Rattle.typing_spec.specs.Capability.{common};
ghost use Rattle.typing_spec.specs.Signatures.{bool_type};
ghost use Rattle.typing_spec.specs.Typing.{typing, at};
ghost use Rattle.typecheck_rules.specs.Walked.{has_typing, tree_of, findings_of};
ghost use Rattle.typecheck_rules.specs.Own as of_operators;
ghost use Rattle.typecheck_rules.specs.Own.{of_both};
ghost use Rattle.typecheck_rules.specs.Operators as definition;
ghost use Rattle.typecheck_rules.specs.Operators.{test_given, branches_found};
ghost use Rattle.typecheck_rules.specs.Found.{findings_from};
ghost use Rattle.typecheck_operators.specs.Reported.{mark, operand_of, walked_of};
ghost use Rattle.typecheck_walk.specs.Branches.{all_found, all_ok, if_by, if_of, if_own, joined_own, tested_of};
ghost use Rattle.typecheck_walk.specs.Branches as branches;

use crate::sides::if_reached;
use findings::LubContext;
use policy_expressions::{BuildError, Expr, Loc};
use schema_types::{Primitive, Type, TypeKind};
use std::alloc::{AllocError, Global};
use typecheck_operators::{
    Failure, Part, Reported, Typing, ended_typed, failed, or_drop, parted, rest_of,
};
use typecheck_rules::{Finding, joined, no_join, strict_join};
use typing_spec::CapabilitySet;

// A test taken apart. One that gives no type is one of which nothing is known.
#[derive(Drop)]
pub(crate) struct Test<'a> {
    pub(crate) ok: bool,
    pub(crate) of: Type,
    pub(crate) caps: CapabilitySet<'a>,
    pub(crate) tree: Expr<Option<Type>>,
    pub(crate) found: Vec<Finding>,
}

// The type of a conditional, what it makes known, and which branches are reached.
#[derive(Drop)]
pub(crate) struct Chosen<'a> {
    pub(crate) of: Type,
    pub(crate) caps: CapabilitySet<'a>,
    pub(crate) has_first: bool,
    pub(crate) has_second: bool,
}

// A test and its branches, put together, and what is found.
#[derive(Drop)]
struct Branches {
    ok: bool,
    test: Expr<Option<Type>>,
    first: Expr<Option<Type>>,
    second: Expr<Option<Type>>,
    found: Vec<Finding>,
}

/// `if`, by what its test and its branches come to. Errs where memory runs out, or the expression
/// would be nested too deep.
pub fn if_parts<'a>(
    alloc: Global,
    loc: Option<Loc>,
    u: Reported<'a>,
    v: Reported<'a>,
    w: Reported<'a>,
) -> Result<Reported<'a>, BuildError>
    ensures { IfOk result (λ r. walked_of r ≡
        definition.if_parts (mark loc) (walked_of u.entry) (walked_of v.entry)
        (walked_of w.entry)) }
{
    let u = or_drop!(test_of(alloc, u), v, w);
    let v = or_drop!(parted(alloc, v), u, w);
    let w = or_drop!(parted(alloc, w), u, v);
    if_ended(alloc, loc, u, v, w)
}

fn test_of<'a>(alloc: Global, u: Reported<'a>) -> Result<Test<'a>, AllocError>
    ensures ok { IfOk result (λ p. p.ok ≡ has_typing (walked_of u.entry)) }
    ensures given { IfOk result (λ p. typing p.of p.caps p.tree ≡ test_given (walked_of u.entry)) }
    ensures of { IfOk result (λ p. p.of ≡ (test_given (walked_of u.entry)).type) }
    ensures tree { IfOk result (λ p. p.tree ≡ tree_of (walked_of u.entry)) }
    ensures found { IfOk result (λ p. findings_from p.found.items ≡
        findings_of (walked_of u.entry)) }
{
    match u {
        Reported::Success(a) => {
            let Typing { of, caps, tree } = Box::into_inner(a);
            Ok(Test {
                ok: true,
                of,
                caps,
                tree,
                found: Vec::new(alloc),
            })
        }
        Reported::Fail(failure) => {
            let Failure { tree, found } = Box::into_inner(failure);
            let of = or_drop!(given_or_boolean(alloc, &tree), tree, found);
            Ok(Test {
                ok: false,
                of,
                caps: CapabilitySet::new(alloc),
                tree,
                found,
            })
        }
    }
}

fn given_or_boolean(alloc: Global, tree: &Expr<Option<Type>>) -> Result<Type, AllocError>
    ensures { IfOk result (λ t. t ≡ unwrap_or (mark_of tree.now).note bool_type) }
{
    match tree.data() {
        Some(t) => t.try_clone(alloc),
        None => Ok(Type::primitive_boolean()),
    }
}

// The branches need a join where the test is not known.
fn branches_found(
    alloc: Global,
    loc: Option<Loc>,
    s: &Type,
    t: &Option<Type>,
    u: &Option<Type>,
) -> Result<Vec<Finding>, AllocError>
    ensures { IfOk result (λ r. findings_from r.items ≡
        branches_found (mark loc) s.now t.now u.now) }
{
    match s.kind() {
        TypeKind::True | TypeKind::False => Ok(Vec::new(alloc)),
        _ => no_join_of_both(alloc, loc, t, u),
    }
}

fn no_join_of_both(
    alloc: Global,
    loc: Option<Loc>,
    t: &Option<Type>,
    u: &Option<Type>,
) -> Result<Vec<Finding>, AllocError>
    ensures { IfOk result (λ r. findings_from r.items ≡
        of_both (of_operators.no_join LubContext.Conditional loc) t.now u.now) }
{
    match t {
        Some(t) => match u {
            Some(u) => no_join(alloc, LubContext::Conditional, loc, t, u),
            None => Ok(Vec::new(alloc)),
        },
        None => Ok(Vec::new(alloc)),
    }
}

fn if_ended<'a>(
    alloc: Global,
    loc: Option<Loc>,
    u: Test<'a>,
    v: Part<'a>,
    w: Part<'a>,
) -> Result<Reported<'a>, BuildError>
    ensures { IfOk result (λ r. walked_of r ≡
        if_of (mark loc) (tested_of u.entry) (operand_of v.entry) (operand_of w.entry)) }
{
    let found = or_drop!(branches_found(alloc, loc, &u.of, &v.of, &w.of), u, v, w);
    let own = or_drop!(if_own(alloc, &u, &v, &w), found, u, v, w);
    let parts = or_drop!(branches_of(u, v, w, found), own);
    if_by(alloc, loc, own, parts)
}

// The type by the rule, of the types that are given. A known test leaves one branch unreached.
fn if_own<'a>(
    alloc: Global,
    u: &Test<'a>,
    v: &Part<'a>,
    w: &Part<'a>,
) -> Result<Option<Chosen<'a>>, AllocError>
    ensures { IfOk result (λ o. o ≡
        if_own (tested_of u.now) (operand_of v.now) (operand_of w.now)) }
{
    match u.of.kind() {
        TypeKind::True => first_own(alloc, &u.caps, v),
        TypeKind::False => second_own(alloc, w),
        TypeKind::Primitive {
            primitive_type: Primitive::Bool,
        } => joined_own(alloc, &u.caps, v, w),
        _ => Ok(None),
    }
}

fn first_own<'a>(
    alloc: Global,
    cs: &CapabilitySet<'a>,
    v: &Part<'a>,
) -> Result<Option<Chosen<'a>>, AllocError>
    ensures { IfOk result (λ o. o ≡ branches.first_own cs.now (operand_of v.now)) }
{
    match &v.of {
        Some(t) => {
            let caps = v.caps.union(cs)?;
            let of = or_drop!(t.try_clone(alloc), caps);
            Ok(Some(Chosen {
                of,
                caps,
                has_first: true,
                has_second: false,
            }))
        }
        None => Ok(None),
    }
}

fn second_own<'a>(alloc: Global, w: &Part<'a>) -> Result<Option<Chosen<'a>>, AllocError>
    ensures { IfOk result (λ o. o ≡ branches.second_own (operand_of w.now)) }
{
    match &w.of {
        Some(t) => {
            let caps = w.caps.try_clone()?;
            let of = or_drop!(t.try_clone(alloc), caps);
            Ok(Some(Chosen {
                of,
                caps,
                has_first: false,
                has_second: true,
            }))
        }
        None => Ok(None),
    }
}

// The types of the branches have a join, and what both make known is known.
fn joined_own<'a>(
    alloc: Global,
    cs: &CapabilitySet<'a>,
    v: &Part<'a>,
    w: &Part<'a>,
) -> Result<Option<Chosen<'a>>, AllocError>
    ensures { IfOk result (λ o. o ≡ joined_own cs.now (operand_of v.now) (operand_of w.now)) }
{
    match &v.of {
        Some(s) => match &w.of {
            Some(t) => match strict_join(alloc, s, t)? {
                Ok(of) => {
                    let caps = or_drop!(caps_of_branches(cs, &v.caps, &w.caps), of);
                    Ok(Some(Chosen {
                        of,
                        caps,
                        has_first: true,
                        has_second: true,
                    }))
                }
                Err(_) => Ok(None),
            },
            None => Ok(None),
        },
        None => Ok(None),
    }
}

fn caps_of_branches<'a>(
    cs: &CapabilitySet<'a>,
    first: &CapabilitySet<'a>,
    second: &CapabilitySet<'a>,
) -> Result<CapabilitySet<'a>, AllocError>
    ensures { IfOk result (λ s. s ≡ common second.now (first.now ++ cs.now)) }
{
    let first = first.union(cs)?;
    let caps = second.intersect(&first);
    drop(first);
    caps
}

fn branches_of(
    u: Test<'_>,
    v: Part<'_>,
    w: Part<'_>,
    own: Vec<Finding>,
) -> Result<Branches, AllocError>
    ensures ok { IfOk result (λ b. b.ok ≡
        all_ok (tested_of u.entry) (operand_of v.entry) (operand_of w.entry)) }
    ensures test { IfOk result (λ b. b.test ≡ u.entry.tree) }
    ensures first { IfOk result (λ b. b.first ≡ v.entry.tree) }
    ensures second { IfOk result (λ b. b.second ≡ w.entry.tree) }
    ensures found { IfOk result (λ b. findings_from b.found.items ≡
        all_found (tested_of u.entry) (operand_of v.entry) (operand_of w.entry)
        (findings_from own.items)) }
{
    let ok = u.ok && (v.ok && w.ok);
    let (test, found) = rest_of_test(u);
    let (first, more) = rest_of(v);
    let (second, others) = rest_of(w);
    let found = or_drop!(joined_all(found, more, others, own), test, first, second);
    Ok(Branches {
        ok,
        test,
        first,
        second,
        found,
    })
}

fn rest_of_test(u: Test<'_>) -> (Expr<Option<Type>>, Vec<Finding>)
    ensures tree { result.0 ≡ u.entry.tree }
    ensures found { result.1 ≡ u.entry.found }
{
    let Test {
        ok: _,
        of,
        caps,
        tree,
        found,
    } = u;
    drop(of);
    drop(caps);
    (tree, found)
}

fn joined_all(
    found: Vec<Finding>,
    more: Vec<Finding>,
    others: Vec<Finding>,
    own: Vec<Finding>,
) -> Result<Vec<Finding>, AllocError>
    ensures { IfOk result (λ r. findings_from r.items ≡
        findings_from found.items ++ (findings_from more.items ++
        (findings_from others.items ++ findings_from own.items))) }
{
    let others = or_drop!(joined(others, own), found, more);
    let more = or_drop!(joined(more, others), found);
    joined(found, more)
}

fn if_by<'a>(
    alloc: Global,
    loc: Option<Loc>,
    own: Option<Chosen<'a>>,
    parts: Branches,
) -> Result<Reported<'a>, BuildError>
    ensures { IfOk result (λ r. walked_of r ≡
        if_by (mark loc) own.entry parts.ok parts.test parts.first parts.second
        (findings_from parts.found.items)) }
{
    match own {
        Some(own) => if_typed(alloc, loc, own, parts),
        None => if_failed(alloc, loc, parts),
    }
}

fn if_typed<'a>(
    alloc: Global,
    loc: Option<Loc>,
    own: Chosen<'a>,
    parts: Branches,
) -> Result<Reported<'a>, BuildError>
    ensures { IfOk result (λ r. walked_of r ≡
        if_by (mark loc) (Some own.entry) parts.ok parts.test parts.first parts.second
        (findings_from parts.found.items)) }
{
    let Chosen {
        of,
        caps,
        has_first,
        has_second,
    } = own;
    let Branches {
        ok,
        test,
        first,
        second,
        found,
    } = parts;
    let first = if_reached(has_first, first);
    let second = if_reached(has_second, second);
    let tree = or_drop!(
        if_tree(alloc, &of, test, first, second, loc),
        of,
        caps,
        found
    );
    Ok(ended_typed(alloc, ok, Typing { of, caps, tree }, found)?)
}

fn if_tree(
    alloc: Global,
    of: &Type,
    test: Expr<Option<Type>>,
    first: Expr<Option<Type>>,
    second: Expr<Option<Type>>,
    loc: Option<Loc>,
) -> Result<Expr<Option<Type>>, BuildError>
    ensures { IfOk result (λ t. t ≡ ite test first second (at of.now (mark loc))) }
{
    let note = or_drop!(of.try_clone(alloc), test, first, second);
    Expr::ite(alloc, test, first, second, Some(note), loc)
}

fn if_failed<'a>(
    alloc: Global,
    loc: Option<Loc>,
    parts: Branches,
) -> Result<Reported<'a>, BuildError>
    ensures { IfOk result (λ r. walked_of r ≡
        if_by (mark loc) None parts.ok parts.test parts.first parts.second
        (findings_from parts.found.items)) }
{
    let Branches {
        ok: _,
        test,
        first,
        second,
        found,
    } = parts;
    let tree = or_drop!(Expr::ite(alloc, test, first, second, None, loc), found);
    Ok(failed(alloc, tree, found)?)
}
