//! The walk through a typed condition.

ghost use Rattle.std.specs.Prelude.{◌≡◌, ◌++◌, ◌∷◌, [], None, map, IfOk, OnOk};
ghost use Rattle.policy_expressions.specs.Functions.{function_of};
ghost use Rattle.policy_expressions.specs.Tree.{binary, unary, attr, ite, conj, disj, trees_of, named_of};
ghost use Rattle.condition_risks.specs.Sides.{behind, if_sides, and_sides, or_sides, sides};
ghost use Rattle.condition_risks.specs.Risks.{is_of_record, is_known, attr_risks, tag_risks, unary_risks, binary_risks, call_risks, risks_behind, risks, risks_all, risks_named};
ghost use Rattle.condition_risks.specs.Listed.{risk_of, expressions, found_of, sides_found};

use crate::Part;
use crate::risk::Risk;
use crate::sides::{Sides, both, is_found, merged};
use policy_expressions::{
    BinaryFunction, BinaryOp, Expr, ExprKind, ExtensionFunction, UnaryFunction, UnaryOp,
    extension_function,
};
use policy_values::{Name, Text};
use schema_types::{EntityRecordKind, Type, TypeKind};
use std::alloc::{AllocError, Global};
use std::collections::BTreeMap;

/// What can end the evaluation of a typed condition with an error, where the entities of some expressions are
/// stored: its risks, in the order of the evaluation.
pub fn risks_of<'a>(
    alloc: Global,
    stored: &Vec<&'a Expr<Option<Type>>>,
    typed: &'a Expr<Option<Type>>,
) -> Result<Vec<Risk<'a>>, AllocError>
    ensures { IfOk result (λ rs. map risk_of rs.items ≡ risks (expressions stored.now.items) [] typed.now) }
{
    let mut found = Vec::new(alloc);
    walk(alloc, stored, &Vec::new(alloc), typed, &mut found)?;
    Ok(found)
}

// Adds the risks of an expression, and answers its sides.
#[cycle(walk)]
fn walk<'a>(
    alloc: Global,
    stored: &Vec<&'a Part>,
    known: &Vec<&'a Part>,
    e: &'a Part,
    found: &mut Vec<Risk<'a>>,
) -> Result<Sides<'a>, AllocError>
    ensures sides { IfOk result (λ k. sides_found k ≡ sides e.now) }
    ensures found { OnOk result (map risk_of found.new.items ≡ map risk_of found.old.items ++
        risks (expressions stored.now.items) (expressions known.now.items) e.now) }
{
    match e.kind() {
        ExprKind::Lit(literal) => Ok(Sides::of_literal(alloc, literal)),
        ExprKind::Var(_) | ExprKind::Slot(_) => Ok(Sides::nothing_found(alloc)),
        ExprKind::If(x, y, z) => walk_if(alloc, stored, known, x, y, z, found),
        ExprKind::And(x, y) => walk_and(alloc, stored, known, x, y, found),
        ExprKind::Or(x, y) => walk_or(alloc, stored, known, x, y, found),
        ExprKind::UnaryApp(op, x) => {
            let operand = walk(alloc, stored, known, x, found)?;
            add_unary(*op, e, found)?;
            Ok(Sides::of_unary(alloc, *op, operand))
        }
        ExprKind::BinaryApp(op, x, y) => {
            walk(alloc, stored, known, x, found)?;
            walk(alloc, stored, known, y, found)?;
            add_binary(stored, known, *op, x, e, found)?;
            Sides::of_binary(alloc, *op, x)
        }
        ExprKind::GetAttr(x, _) => {
            walk(alloc, stored, known, x, found)?;
            add_attr(stored, known, x, found)?;
            Ok(Sides::nothing_found(alloc))
        }
        ExprKind::HasAttr(x, _) => {
            walk(alloc, stored, known, x, found)?;
            Sides::found_if_true(alloc, x)
        }
        ExprKind::Like(x, _) | ExprKind::Is(x, _) => {
            walk(alloc, stored, known, x, found)?;
            Ok(Sides::nothing_found(alloc))
        }
        ExprKind::ExtensionFunctionApp(name, xs) => {
            walk_all(alloc, stored, known, xs, found)?;
            add_call(name, e, found)?;
            Ok(Sides::nothing_found(alloc))
        }
        ExprKind::Set(xs) => {
            walk_all(alloc, stored, known, xs, found)?;
            Ok(Sides::nothing_found(alloc))
        }
        ExprKind::Record(fields) => {
            walk_named(alloc, stored, known, fields, found)?;
            Ok(Sides::nothing_found(alloc))
        }
    }
}

// An operand that is evaluated where it came to one side of another: it is not walked if it cannot come to
// this.
#[cycle(walk)]
fn walk_behind<'a>(
    alloc: Global,
    stored: &Vec<&'a Part>,
    known: &Vec<&'a Part>,
    side: &Option<Vec<&'a Part>>,
    y: &'a Part,
    found: &mut Vec<Risk<'a>>,
) -> Result<Sides<'a>, AllocError>
    ensures sides { IfOk result (λ k. sides_found k ≡ behind (found_of side.now) (sides y.now)) }
    ensures found { OnOk result (map risk_of found.new.items ≡ map risk_of found.old.items ++
        risks_behind (found_of side.now) (expressions known.now.items)
        (λ more. risks (expressions stored.now.items) more y.now)) }
{
    match side {
        None => Ok(Sides {
            if_true: None,
            if_false: None,
        }),
        Some(more) => {
            let now_known = merged(alloc, more, known)?;
            let sides = walk(alloc, stored, &now_known, y, found)?;
            Ok(Sides {
                if_true: both(alloc, more, &sides.if_true)?,
                if_false: both(alloc, more, &sides.if_false)?,
            })
        }
    }
}

#[cycle(walk)]
fn walk_if<'a>(
    alloc: Global,
    stored: &Vec<&'a Part>,
    known: &Vec<&'a Part>,
    x: &'a Part,
    y: &'a Part,
    z: &'a Part,
    found: &mut Vec<Risk<'a>>,
) -> Result<Sides<'a>, AllocError>
    ensures sides { IfOk result (λ k. sides_found k ≡ if_sides (sides x.now) (sides y.now) (sides z.now)) }
    ensures found { OnOk result (map risk_of found.new.items ≡ map risk_of found.old.items ++
        risks (expressions stored.now.items) (expressions known.now.items)
        (ite x.now y.now z.now (record { note = None; loc = None }))) }
{
    let test = walk(alloc, stored, known, x, found)?;
    let second = walk_behind(alloc, stored, known, &test.if_true, y, found)?;
    let third = walk_behind(alloc, stored, known, &test.if_false, z, found)?;
    second.either(alloc, third)
}

#[cycle(walk)]
fn walk_and<'a>(
    alloc: Global,
    stored: &Vec<&'a Part>,
    known: &Vec<&'a Part>,
    x: &'a Part,
    y: &'a Part,
    found: &mut Vec<Risk<'a>>,
) -> Result<Sides<'a>, AllocError>
    ensures sides { IfOk result (λ k. sides_found k ≡ and_sides (sides x.now) (sides y.now)) }
    ensures found { OnOk result (map risk_of found.new.items ≡ map risk_of found.old.items ++
        risks (expressions stored.now.items) (expressions known.now.items)
        (conj x.now y.now (record { note = None; loc = None }))) }
{
    let left = walk(alloc, stored, known, x, found)?;
    let right = walk_behind(alloc, stored, known, &left.if_true, y, found)?;
    let ended = Sides {
        if_true: None,
        if_false: left.if_false,
    };
    right.either(alloc, ended)
}

#[cycle(walk)]
fn walk_or<'a>(
    alloc: Global,
    stored: &Vec<&'a Part>,
    known: &Vec<&'a Part>,
    x: &'a Part,
    y: &'a Part,
    found: &mut Vec<Risk<'a>>,
) -> Result<Sides<'a>, AllocError>
    ensures sides { IfOk result (λ k. sides_found k ≡ or_sides (sides x.now) (sides y.now)) }
    ensures found { OnOk result (map risk_of found.new.items ≡ map risk_of found.old.items ++
        risks (expressions stored.now.items) (expressions known.now.items)
        (disj x.now y.now (record { note = None; loc = None }))) }
{
    let left = walk(alloc, stored, known, x, found)?;
    let right = walk_behind(alloc, stored, known, &left.if_false, y, found)?;
    let ended = Sides {
        if_true: left.if_true,
        if_false: None,
    };
    ended.either(alloc, right)
}

#[cycle(walk)]
#[tactic(auto, using(policy_expressions::proofs::TreeSteps::depth_in))]
fn walk_all<'a>(
    alloc: Global,
    stored: &Vec<&'a Part>,
    known: &Vec<&'a Part>,
    xs: &'a Vec<Part>,
    found: &mut Vec<Risk<'a>>,
) -> Result<(), AllocError>
    ensures { OnOk result (map risk_of found.new.items ≡ map risk_of found.old.items ++
        risks_all (expressions stored.now.items) (expressions known.now.items) (trees_of xs.now.items)) }
{
    for x in xs {
        walk(alloc, stored, known, x, found)?;
    }
    Ok(())
}

#[cycle(walk)]
fn walk_named<'a>(
    alloc: Global,
    stored: &Vec<&'a Part>,
    known: &Vec<&'a Part>,
    fields: &'a BTreeMap<Text, Part>,
    found: &mut Vec<Risk<'a>>,
) -> Result<(), AllocError>
    ensures { OnOk result (map risk_of found.new.items ≡ map risk_of found.old.items ++
        risks_named (expressions stored.now.items) (expressions known.now.items)
        (named_of fields.now.entries)) }
{
    for (_, x) in fields.iter() {
        walk(alloc, stored, known, x, found)?;
    }
    Ok(())
}

fn add_unary<'a>(op: UnaryOp, e: &'a Part, found: &mut Vec<Risk<'a>>) -> Result<(), AllocError>
    ensures { OnOk result (map risk_of found.new.items ≡
        map risk_of found.old.items ++ unary_risks op e.now) }
{
    match op {
        UnaryOp::Neg => Ok(found.push(Risk::IntegerOverflow(e))?),
        UnaryOp::Not | UnaryOp::IsEmpty => Ok(()),
    }
}

fn add_binary<'a>(
    stored: &Vec<&'a Part>,
    known: &Vec<&'a Part>,
    op: BinaryOp,
    x: &'a Part,
    e: &'a Part,
    found: &mut Vec<Risk<'a>>,
) -> Result<(), AllocError>
    ensures { OnOk result (map risk_of found.new.items ≡ map risk_of found.old.items ++
        binary_risks (expressions stored.now.items) (expressions known.now.items) op x.now e.now) }
{
    match op {
        BinaryOp::Add | BinaryOp::Sub | BinaryOp::Mul => Ok(found.push(Risk::IntegerOverflow(e))?),
        BinaryOp::GetTag if !is_known(stored, known, x) => Ok(found.push(Risk::Missing(x))?),
        _ => Ok(()),
    }
}

// `.` asks the store about an entity.
fn add_attr<'a>(
    stored: &Vec<&'a Part>,
    known: &Vec<&'a Part>,
    x: &'a Part,
    found: &mut Vec<Risk<'a>>,
) -> Result<(), AllocError>
    ensures { OnOk result (map risk_of found.new.items ≡ map risk_of found.old.items ++
        attr_risks (expressions stored.now.items) (expressions known.now.items) x.now) }
{
    if !is_of_record(x) && !is_known(stored, known, x) {
        found.push(Risk::Missing(x))?;
    }
    Ok(())
}

fn add_call<'a>(name: &Name, e: &'a Part, found: &mut Vec<Risk<'a>>) -> Result<(), AllocError>
    ensures { OnOk result (map risk_of found.new.items ≡
        map risk_of found.old.items ++ call_risks (function_of name.now) e.now) }
{
    match extension_function(name.as_str()) {
        Some(
            ExtensionFunction::Unary(UnaryFunction::ToDate)
            | ExtensionFunction::Binary(BinaryFunction::Offset | BinaryFunction::DurationSince),
        ) => Ok(found.push(Risk::ExtensionOverflow(e))?),
        _ => Ok(()),
    }
}

// Whether the entity of an operand is known to be stored.
fn is_known(stored: &Vec<&Part>, known: &Vec<&Part>, x: &Part) -> bool
    ensures { result ≡ is_known (expressions stored.now.items) (expressions known.now.items) x.now }
{
    is_found(stored, x) || is_found(known, x)
}

// Whether its type says that it is a record.
fn is_of_record(x: &Part) -> bool
    ensures { result ≡ is_of_record x.now }
{
    match x.data() {
        Some(t) => matches!(
            t.kind(),
            TypeKind::EntityOrRecord(EntityRecordKind::Record { .. })
        ),
        None => false,
    }
}
