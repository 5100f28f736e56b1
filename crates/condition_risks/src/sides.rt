//! Which entities are in the store, once it is known whether an expression is true.

ghost use Rattle.std.specs.Prelude.{◌≡◌, ◌≤◌, ◌++◌, ◌∷◌, [], Some, not, length, filter, take, IfOk, OnOk};
ghost use Rattle.typing_spec.specs.Bare.{same_tree};
ghost use Rattle.condition_risks.specs.Sides.{is_found, remembered, merged, both, either, either_sides, nothing_found, literal_sides, unary_sides, found_if_true, binary_sides};
ghost use Rattle.condition_risks.specs.Listed.{expressions, found_of, sides_found};

use crate::Part;
use policy_expressions::{BinaryOp, Literal, UnaryOp};
use std::alloc::{AllocError, Global};

/// How many expressions are remembered at once, since all of them are compared with each operand.
const REMEMBERED: usize = 16;

/// What is found once an expression is true, and once it is false: expressions whose entities are in the
/// store, or none where it cannot come to this.
#[derive(Drop)]
pub(crate) struct Sides<'a> {
    pub(crate) if_true: Option<Vec<&'a Part>>,
    pub(crate) if_false: Option<Vec<&'a Part>>,
}

impl<'a> Sides<'a> {
    /// Nothing is found.
    pub(crate) fn nothing_found(alloc: Global) -> Sides<'a>
        ensures { sides_found result ≡ nothing_found }
    {
        Sides {
            if_true: Some(Vec::new(alloc)),
            if_false: Some(Vec::new(alloc)),
        }
    }

    /// Once it is true, the operand is in the store, if it is an entity.
    pub(crate) fn found_if_true(alloc: Global, x: &'a Part) -> Result<Sides<'a>, AllocError>
        ensures { IfOk result (λ k. sides_found k ≡ found_if_true x.now) }
    {
        let mut found = Vec::new(alloc);
        found.push(x)?;
        Ok(Sides {
            if_true: Some(found),
            if_false: Some(Vec::new(alloc)),
        })
    }

    /// A boolean literal never comes to the other truth value.
    pub(crate) fn of_literal(alloc: Global, literal: &Literal) -> Sides<'a>
        ensures { sides_found result ≡ literal_sides literal.now }
    {
        match literal {
            Literal::Bool(true) => Sides {
                if_true: Some(Vec::new(alloc)),
                if_false: None,
            },
            Literal::Bool(false) => Sides {
                if_true: None,
                if_false: Some(Vec::new(alloc)),
            },
            _ => Sides::nothing_found(alloc),
        }
    }

    /// `!` exchanges the sides of its operand.
    pub(crate) fn of_unary(alloc: Global, op: UnaryOp, operand: Sides<'a>) -> Sides<'a>
        ensures { sides_found result ≡ unary_sides op (sides_found operand.entry) }
    {
        match op {
            UnaryOp::Not => Sides {
                if_true: operand.if_false,
                if_false: operand.if_true,
            },
            _ => Sides::nothing_found(alloc),
        }
    }

    /// `hasTag` finds its left operand.
    pub(crate) fn of_binary(
        alloc: Global,
        op: BinaryOp,
        x: &'a Part,
    ) -> Result<Sides<'a>, AllocError>
        ensures { IfOk result (λ k. sides_found k ≡ binary_sides op x.now) }
    {
        match op {
            BinaryOp::HasTag => Sides::found_if_true(alloc, x),
            _ => Ok(Sides::nothing_found(alloc)),
        }
    }

    /// What is found where one of two comes about.
    pub(crate) fn either(self, alloc: Global, other: Sides<'a>) -> Result<Sides<'a>, AllocError>
        ensures { IfOk result
            (λ k. sides_found k ≡ either_sides (sides_found self.entry) (sides_found other.entry)) }
    {
        Ok(Sides {
            if_true: either(alloc, self.if_true, other.if_true)?,
            if_false: either(alloc, self.if_false, other.if_false)?,
        })
    }
}

/// Whether one of the expressions is the same, but for notes and places.
pub(crate) fn is_found(found: &Vec<&Part>, x: &Part) -> bool
    ensures { result ≡ is_found (expressions found.now.items) x.now }
{
    for known in found {
        if is_same(x, known) {
            return true;
        }
    }
    false
}

fn is_same(x: &Part, y: &Part) -> bool
    ensures { result ≡ same_tree x.now y.now }
{
    x.same_shape(y)
}

/// The first of the one list, and of the other what is not among these.
#[tactic(auto, using(crate::proofs::Merging::take_prefix))]
pub(crate) fn merged<'a>(
    alloc: Global,
    xs: &Vec<&'a Part>,
    ys: &Vec<&'a Part>,
) -> Result<Vec<&'a Part>, AllocError>
    ensures { IfOk result (λ all. expressions all.items ≡
        merged (expressions xs.now.items) (expressions ys.now.items)) }
{
    let mut all = first_of(alloc, xs)?;
    remember_new(&mut all, xs, ys)?;
    Ok(all)
}

// The first of the list, as many as are remembered.
fn first_of<'a>(alloc: Global, xs: &Vec<&'a Part>) -> Result<Vec<&'a Part>, AllocError>
    ensures first { IfOk result (λ all. expressions all.items ≡
        take remembered (expressions xs.now.items)) }
    ensures few { IfOk result (λ all. length all.items ≤ remembered) }
{
    let mut all = Vec::new(alloc);
    for x in xs {
        remember(&mut all, *x)?;
    }
    Ok(all)
}

// More at the end: what is not among the others.
fn remember_new<'a>(
    all: &mut Vec<&'a Part>,
    xs: &Vec<&'a Part>,
    ys: &Vec<&'a Part>,
) -> Result<(), AllocError>
    requires { length all.old.items ≤ remembered }
    ensures { OnOk result (expressions all.new.items ≡ take remembered (expressions all.old.items ++
        filter (λ y. not (is_found (expressions xs.now.items) y)) (expressions ys.now.items))) }
{
    for y in ys {
        remember_if_new(all, xs, *y)?;
    }
    Ok(())
}

fn remember_if_new<'a>(
    all: &mut Vec<&'a Part>,
    xs: &Vec<&'a Part>,
    y: &'a Part,
) -> Result<(), AllocError>
    requires { length all.old.items ≤ remembered }
    ensures added { OnOk result (expressions all.new.items ≡ take remembered (expressions all.old.items ++
        filter (λ y. not (is_found (expressions xs.now.items) y)) (y.now ∷ []))) }
    ensures few { OnOk result (length all.new.items ≤ remembered) }
{
    if is_found(xs, y) {
        return Ok(());
    }
    remember(all, y)
}

// One more at the end, unless as many are remembered as there may be.
#[tactic(auto, using(crate::proofs::Merging::room_left, crate::proofs::Merging::no_room_left))]
fn remember<'a>(all: &mut Vec<&'a Part>, x: &'a Part) -> Result<(), AllocError>
    requires { length all.old.items ≤ remembered }
    ensures added { OnOk result (expressions all.new.items ≡
        take remembered (expressions all.old.items ++ x.now ∷ [])) }
    ensures few { OnOk result (length all.new.items ≤ remembered) }
{
    if all.len() < REMEMBERED {
        all.push(x)?;
    }
    Ok(())
}

/// What is found where some expressions are found, and it then comes to a side.
pub(crate) fn both<'a>(
    alloc: Global,
    found: &Vec<&'a Part>,
    side: &Option<Vec<&'a Part>>,
) -> Result<Option<Vec<&'a Part>>, AllocError>
    ensures { IfOk result (λ o. found_of o ≡ both (Some (expressions found.now.items)) (found_of side.now)) }
{
    match side {
        None => Ok(None),
        Some(more) => Ok(Some(merged(alloc, found, more)?)),
    }
}

// What is found where it comes to one of two sides.
fn either<'a>(
    alloc: Global,
    one: Option<Vec<&'a Part>>,
    other: Option<Vec<&'a Part>>,
) -> Result<Option<Vec<&'a Part>>, AllocError>
    ensures { IfOk result (λ o. found_of o ≡ either (found_of one.entry) (found_of other.entry)) }
{
    match (one, other) {
        (Some(xs), Some(ys)) => Ok(Some(common(alloc, &xs, &ys)?)),
        (Some(xs), None) => Ok(Some(xs)),
        (None, ys) => Ok(ys),
    }
}

// The expressions of the one list that are in the other, too.
fn common<'a>(
    alloc: Global,
    xs: &Vec<&'a Part>,
    ys: &Vec<&'a Part>,
) -> Result<Vec<&'a Part>, AllocError>
    ensures { IfOk result (λ all. expressions all.items ≡
        filter (is_found (expressions ys.now.items)) (expressions xs.now.items)) }
{
    let mut all = Vec::new(alloc);
    for x in xs {
        if is_found(ys, *x) {
            all.push(*x)?;
        }
    }
    Ok(all)
}
