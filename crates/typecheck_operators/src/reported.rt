//! What the walk answers.

ghost use Rattle.std.specs.Prelude.{◌≡◌, IfOk, cond, option_map};
ghost use Rattle.policy_expressions.specs.Tree.{mark_of};
ghost use Rattle.typing_spec.specs.Typing as typing;
ghost use Rattle.typecheck_rules.specs.Walked as definition;
ghost use Rattle.typecheck_rules.specs.Walked.{has_typing, given_by, tree_of, findings_of, Success};
ghost use Rattle.typecheck_rules.specs.Operators as operator;
ghost use Rattle.typecheck_rules.specs.Operators.{type_given};
ghost use Rattle.typecheck_rules.specs.Found.{expected_of, findings_from};
ghost use Rattle.typecheck_operators.specs.Reported.{typing_from, walked_of, given_as};

use policy_expressions::{Expr, Literal, Loc};
use schema_types::Type;
use std::alloc::{AllocError, Global};
use typecheck_rules::{Expected, Finding, fits, joined, unexpected};
use typing_spec::CapabilitySet;

/// A type, what is known once the expression is true, and the expression with the types of its
/// parts.
#[derive(Drop)]
pub struct Typing<'a> {
    /// The type.
    pub of: Type,
    /// What is known.
    pub caps: CapabilitySet<'a>,
    /// The expression.
    pub tree: Expr<Option<Type>>,
}

/// An expression that has no typing.
#[derive(Drop)]
pub struct Failure {
    /// The expression with the types that are known, of which its own is given to the operator
    /// above.
    pub tree: Expr<Option<Type>>,
    /// What is found.
    pub found: Vec<Finding>,
}

/// What the walk through an expression comes to. It is small, since each operator hands it on.
#[derive(Drop)]
pub enum Reported<'a> {
    /// The typing.
    Success(Box<Typing<'a>>),
    /// There is none.
    Fail(Box<Failure>),
}

/// The answer that is a typing.
pub fn typed<'a>(alloc: Global, a: Typing<'a>) -> Result<Reported<'a>, AllocError>
    ensures { IfOk result (λ r. walked_of r ≡ Success (typing_from a.entry)) }
{
    let a = Box::new(alloc, a)?;
    Ok(Reported::Success(a))
}

/// The answer where there is no typing: the expression, and what is found.
pub fn failed<'a>(
    alloc: Global,
    tree: Expr<Option<Type>>,
    found: Vec<Finding>,
) -> Result<Reported<'a>, AllocError>
    ensures { IfOk result (λ r. walked_of r ≡ definition.Fail tree (findings_from found.items)) }
{
    let failure = Box::new(alloc, Failure { tree, found })?;
    Ok(Reported::Fail(failure))
}

/// An operand taken apart.
#[derive(Drop)]
pub struct Part<'a> {
    /// Whether there is a typing.
    pub ok: bool,
    /// The type that is given.
    pub of: Option<Type>,
    /// What is known.
    pub caps: CapabilitySet<'a>,
    /// The expression.
    pub tree: Expr<Option<Type>>,
    /// What is found.
    pub found: Vec<Finding>,
}

/// Takes an operand apart.
pub fn parted<'a>(alloc: Global, v: Reported<'a>) -> Result<Part<'a>, AllocError>
    ensures ok { IfOk result (λ p. p.ok ≡ has_typing (walked_of v.entry)) }
    ensures given { IfOk result (λ p. given_as p.of p.caps p.tree ≡ given_by (walked_of v.entry)) }
    ensures of { IfOk result (λ p. p.of ≡ type_given (walked_of v.entry)) }
    ensures tree { IfOk result (λ p. p.tree ≡ tree_of (walked_of v.entry)) }
    ensures found { IfOk result (λ p. findings_from p.found.items ≡
        findings_of (walked_of v.entry)) }
{
    match v {
        Reported::Success(a) => {
            let Typing { of, caps, tree } = Box::into_inner(a);
            Ok(Part {
                ok: true,
                of: Some(of),
                caps,
                tree,
                found: Vec::new(alloc),
            })
        }
        Reported::Fail(failure) => {
            let Failure { tree, found } = Box::into_inner(failure);
            let Ok(of) = given(alloc, &tree) else {
                drop(tree);
                drop(found);
                return Err(AllocError);
            };
            Ok(Part {
                ok: false,
                of,
                caps: CapabilitySet::new(alloc),
                tree,
                found,
            })
        }
    }
}

/// The expression, and what is found. What is left is dropped here, by calls, for a goal of a
/// function that drops a type on its own has a case for each kind of type.
pub fn rest_of(v: Part<'_>) -> (Expr<Option<Type>>, Vec<Finding>)
    ensures tree { result.0 ≡ v.entry.tree }
    ensures found { result.1 ≡ v.entry.found }
{
    let Part {
        ok: _,
        of,
        caps,
        tree,
        found,
    } = v;
    drop(of);
    drop(caps);
    (tree, found)
}

// The type that an expression gives.
fn given(alloc: Global, tree: &Expr<Option<Type>>) -> Result<Option<Type>, AllocError>
    ensures { IfOk result (λ o. o ≡ (mark_of tree.now).note) }
{
    match tree.data() {
        Some(t) => Ok(Some(t.try_clone(alloc)?)),
        None => Ok(None),
    }
}

/// The end of an operator that has a typing of its own over what its operands give.
pub fn ended_typed<'a>(
    alloc: Global,
    ok: bool,
    a: Typing<'a>,
    found: Vec<Finding>,
) -> Result<Reported<'a>, AllocError>
    ensures { IfOk result (λ r. walked_of r ≡ cond ok (Success (typing_from a.entry))
        (definition.Fail a.entry.tree (findings_from found.items))) }
{
    if ok {
        drop(found);
        typed(alloc, a)
    } else {
        let tree = into_tree(a);
        failed(alloc, tree, found)
    }
}

/// The typed expression. The rest is dropped by calls, which keeps proofs short.
pub fn into_tree(a: Typing<'_>) -> Expr<Option<Type>>
    ensures { result ≡ a.entry.tree }
{
    let Typing { of, caps, tree } = a;
    drop(of);
    drop(caps);
    tree
}

fn untyped(mut tree: Expr<Option<Type>>) -> Expr<Option<Type>>
    ensures { result ≡ definition.untyped tree }
{
    tree.set_data(None);
    tree
}

/// What stands in the place of a part that is not reached.
pub fn unreached() -> Expr<Option<Type>>
    ensures { result ≡ typing.unreached }
{
    Expr::lit(Literal::Bool(true), None, None)
}

/// What stands in the place of an operand that is not reached.
pub fn skipped<'a>(alloc: Global) -> Result<Reported<'a>, AllocError>
    ensures { IfOk result (λ r. walked_of r ≡ operator.skipped) }
{
    let a = Typing {
        of: Type::singleton_boolean(true),
        caps: CapabilitySet::new(alloc),
        tree: unreached(),
    };
    typed(alloc, a)
}

/// An operand that has to fit.
pub fn expect<'a>(
    alloc: Global,
    x: Expected<'_>,
    loc: Option<Loc>,
    v: Reported<'a>,
) -> Result<Reported<'a>, AllocError>
    ensures { IfOk result (λ r. walked_of r ≡
        definition.expect (expected_of x.entry) loc (walked_of v.entry)) }
{
    match v {
        Reported::Success(a) => {
            if fits(x, &a.of) {
                Ok(Reported::Success(a))
            } else {
                misfit(alloc, x, loc, Box::into_inner(a))
            }
        }
        Reported::Fail(failure) => expect_given(alloc, x, loc, failure),
    }
}

// An operand that does not fit.
fn misfit<'a>(
    alloc: Global,
    x: Expected<'_>,
    loc: Option<Loc>,
    a: Typing<'a>,
) -> Result<Reported<'a>, AllocError>
    ensures { IfOk result (λ r. walked_of r ≡ definition.Fail (definition.untyped a.entry.tree)
        (definition.unexpected (expected_of x.entry) loc a.entry.of)) }
{
    let found = or_drop!(unexpected(alloc, x, loc, &a.of), a);
    let tree = into_tree(a);
    failed(alloc, untyped(tree), found)
}

/// An operand that has to fit, where something is expected.
pub(crate) fn expect_if<'a>(
    alloc: Global,
    x: Option<Expected<'_>>,
    loc: Option<Loc>,
    v: Reported<'a>,
) -> Result<Reported<'a>, AllocError>
    ensures { IfOk result (λ r. walked_of r ≡
        definition.expect_if (option_map expected_of x.entry) loc (walked_of v.entry)) }
{
    match x {
        Some(x) => expect(alloc, x, loc, v),
        None => Ok(v),
    }
}

// An operand that failed, and has to fit.
fn expect_given<'a>(
    alloc: Global,
    x: Expected<'_>,
    loc: Option<Loc>,
    failure: Box<Failure>,
) -> Result<Reported<'a>, AllocError>
    ensures { IfOk result (λ r. walked_of r ≡
        definition.expect_given (expected_of x.entry) loc (mark_of failure.value.tree).note
        failure.value.tree (findings_from failure.value.found.items)) }
{
    match failure.tree.data() {
        None => Ok(Reported::Fail(failure)),
        Some(t) => {
            if fits(x, t) {
                Ok(Reported::Fail(failure))
            } else {
                let more = or_drop!(unexpected(alloc, x, loc, t), failure);
                let Failure { tree, found } = Box::into_inner(failure);
                let found = or_drop!(joined(found, more), tree);
                failed(alloc, untyped(tree), found)
            }
        }
    }
}
