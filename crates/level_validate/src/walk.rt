//! The walk through a typed condition.

ghost use Rattle.std.specs.Prelude.{◌≡◌, ◌++◌, ◌∷◌, IfOk, OnOk, map, [], Some, if◌then◌else◌};
ghost use Rattle.std.specs.Option.{option_copied};
ghost use Rattle.policy_expressions.specs.Tree.{binary, rec, attr, ite, trees_of, named_of};
ghost use Rattle.level_spec.specs.Levels.{is_reached, gives_entity, level, literal_level};
ghost use Rattle.level_spec.specs.Findings.{own_fault, target_fault, level_faults, faults_all, faults_named};
ghost use Rattle.level_validate.specs.Faults.{fault_of, at_place};
ghost use Rattle.level_validate.specs.Fields.{fields_in};
ghost use Rattle.level_validate.specs.Targets.{target_faults_at, branch_faults_at, named_targets_at};

use crate::fault::Fault;
use crate::levels::{gives_entity, greater, is_reached, literal_level, one_more};
use crate::pending::Pending;
use policy_expressions::{BinaryOp, Expr, ExprKind, Literal, Loc};
use policy_values::{EntityUID, Text};
use schema_types::Type;
use std::alloc::AllocError;
use std::cmp::Ordering;
use std::collections::BTreeMap;

/// For what level, and in which environment, a condition is checked.
#[derive(Drop)]
pub(crate) struct Checked<'a> {
    /// The environment's action, where it is known.
    pub(crate) action: Option<&'a EntityUID>,
    /// The level below which the left operand of a dereference has to be.
    pub(crate) max_level: u32,
}

/// Adds what is found in an expression, in the order of the walk: in the left operand of a dereference, in
/// its right operand, and of the dereference itself.
#[cycle(walk)]
pub(crate) fn check(
    at: &Checked<'_>,
    e: &Expr<Option<Type>>,
    found: &mut Vec<Fault>,
) -> Result<(), AllocError>
    ensures { OnOk result (map fault_of found.new.items ≡ map fault_of found.old.items ++
        level_faults (option_copied at.now.action) at.now.max_level e.now) }
{
    match e.kind() {
        ExprKind::Lit(_) | ExprKind::Var(_) | ExprKind::Slot(_) => Ok(()),
        ExprKind::If(x, y, z) => {
            check(at, x, found)?;
            check(at, y, found)?;
            check(at, z, found)
        }
        ExprKind::And(x, y) | ExprKind::Or(x, y) => {
            check(at, x, found)?;
            check(at, y, found)
        }
        ExprKind::BinaryApp(op, x, y) => check_binary(at, *op, x, y, e.source_loc(), found),
        ExprKind::GetAttr(x, _) | ExprKind::HasAttr(x, _) => {
            check_access(at, x, e.source_loc(), found)
        }
        ExprKind::UnaryApp(_, x) | ExprKind::Like(x, _) | ExprKind::Is(x, _) => {
            check(at, x, found)
        }
        ExprKind::ExtensionFunctionApp(_, xs) | ExprKind::Set(xs) => check_all(at, xs, found),
        ExprKind::Record(fields) => check_named(at, fields, found),
    }
}

#[cycle(walk)]
#[tactic(auto, using(policy_expressions::proofs::TreeSteps::depth_in))]
fn check_all(
    at: &Checked<'_>,
    xs: &Vec<Expr<Option<Type>>>,
    found: &mut Vec<Fault>,
) -> Result<(), AllocError>
    ensures { OnOk result (map fault_of found.new.items ≡ map fault_of found.old.items ++
        faults_all (option_copied at.now.action) at.now.max_level (trees_of xs.now.items)) }
{
    for x in xs {
        check(at, x, found)?;
    }
    Ok(())
}

#[cycle(walk)]
fn check_named(
    at: &Checked<'_>,
    fields: &BTreeMap<Text, Expr<Option<Type>>>,
    found: &mut Vec<Fault>,
) -> Result<(), AllocError>
    ensures { OnOk result (map fault_of found.new.items ≡ map fault_of found.old.items ++
        faults_named (option_copied at.now.action) at.now.max_level (named_of fields.now.entries)) }
{
    for (_, x) in fields.iter() {
        check(at, x, found)?;
    }
    Ok(())
}

// An operator of two operands: some ask the store about the left one.
#[cycle(walk)]
fn check_binary(
    at: &Checked<'_>,
    op: BinaryOp,
    x: &Expr<Option<Type>>,
    y: &Expr<Option<Type>>,
    loc: Option<Loc>,
    found: &mut Vec<Fault>,
) -> Result<(), AllocError>
    ensures { OnOk result (map fault_of found.new.items ≡ map fault_of found.old.items ++
        level_faults (option_copied at.now.action) at.now.max_level
        (binary op x.now y.now (at_place loc))) }
{
    match op {
        BinaryOp::In | BinaryOp::HasTag | BinaryOp::GetTag => {
            let level = target(at, x, &Pending::End, found)?;
            check(at, y, found)?;
            add_own(at, x, level, loc, found)
        }
        _ => {
            check(at, x, found)?;
            check(at, y, found)
        }
    }
}

// An access, or a test for an attribute: of an entity it is a dereference.
#[cycle(walk)]
fn check_access(
    at: &Checked<'_>,
    x: &Expr<Option<Type>>,
    loc: Option<Loc>,
    found: &mut Vec<Fault>,
) -> Result<(), AllocError>
    ensures { OnOk result (map fault_of found.new.items ≡ map fault_of found.old.items ++
        level_faults (option_copied at.now.action) at.now.max_level
        (attr x.now [] (at_place loc))) }
{
    if gives_entity(x) {
        let level = target(at, x, &Pending::End, found)?;
        add_own(at, x, level, loc, found)
    } else {
        check(at, x, found)
    }
}

// Adds a dereference, where its left operand has a level that is not below the maximum.
fn add_own(
    at: &Checked<'_>,
    x: &Expr<Option<Type>>,
    operand: Option<u32>,
    loc: Option<Loc>,
    found: &mut Vec<Fault>,
) -> Result<(), AllocError>
    requires { operand ≡ level (option_copied at.now.action) x.now [] }
    ensures { OnOk result (map fault_of found.new.items ≡ map fault_of found.old.items ++
        own_fault at.now.max_level operand loc) }
{
    match operand {
        Some(k) if k >= at.max_level => {
            let fault = Fault {
                needed: one_more(x, operand),
                source_loc: loc,
            };
            Ok(found.push(fault)?)
        }
        _ => Ok(()),
    }
}

// Adds a target that has no level.
fn add_literal(loc: Option<Loc>, found: &mut Vec<Fault>) -> Result<(), AllocError>
    ensures { OnOk result (map fault_of found.new.items ≡ map fault_of found.old.items ++
        target_fault None loc) }
{
    let fault = Fault {
        needed: None,
        source_loc: loc,
    };
    Ok(found.push(fault)?)
}

// Adds what is found in a target, of whose value these fields are asked for, and answers its level. The
// dereferences whose levels make up that level are not tested themselves.
#[cycle(walk)]
fn target(
    at: &Checked<'_>,
    e: &Expr<Option<Type>>,
    pending: &Pending<'_>,
    found: &mut Vec<Fault>,
) -> Result<Option<u32>, AllocError>
    ensures level { IfOk result (λ l. l ≡
        level (option_copied at.now.action) e.now (fields_in pending.now)) }
    ensures found { OnOk result (map fault_of found.new.items ≡ map fault_of found.old.items ++
        target_faults_at at.now e.now (fields_in pending.now)) }
{
    match e.kind() {
        ExprKind::Lit(literal) => target_literal(at, literal, e.source_loc(), found),
        ExprKind::Var(_) => Ok(Some(0)),
        ExprKind::If(x, y, z) => target_if(at, x, y, z, pending, found),
        ExprKind::BinaryApp(op, x, y) => target_binary(at, *op, x, y, e.source_loc(), found),
        ExprKind::GetAttr(x, name) => target_attr(at, x, name, pending, found),
        ExprKind::Record(fields) => match pending {
            Pending::End => target_none(e.source_loc(), found),
            Pending::Field(name, rest) => {
                target_field(at, fields, name, rest, e.source_loc(), found)
            }
        },
        ExprKind::Slot(_)
        | ExprKind::And(_, _)
        | ExprKind::Or(_, _)
        | ExprKind::UnaryApp(_, _)
        | ExprKind::HasAttr(_, _)
        | ExprKind::Like(_, _)
        | ExprKind::Is(_, _)
        | ExprKind::ExtensionFunctionApp(_, _)
        | ExprKind::Set(_) => target_none(e.source_loc(), found),
    }
}

// A target that has no level.
fn target_none(loc: Option<Loc>, found: &mut Vec<Fault>) -> Result<Option<u32>, AllocError>
    ensures level { IfOk result (λ l. l ≡ None) }
    ensures found { OnOk result (map fault_of found.new.items ≡ map fault_of found.old.items ++
        target_fault None loc) }
{
    add_literal(loc, found)?;
    Ok(None)
}

fn target_literal(
    at: &Checked<'_>,
    literal: &Literal,
    loc: Option<Loc>,
    found: &mut Vec<Fault>,
) -> Result<Option<u32>, AllocError>
    ensures level { IfOk result (λ l. l ≡ literal_level (option_copied at.now.action) literal.now) }
    ensures found { OnOk result (map fault_of found.new.items ≡ map fault_of found.old.items ++
        target_fault (literal_level (option_copied at.now.action) literal.now) loc) }
{
    match literal_level(at.action, literal) {
        Some(level) => Ok(Some(level)),
        None => target_none(loc, found),
    }
}

#[cycle(walk)]
fn target_if(
    at: &Checked<'_>,
    x: &Expr<Option<Type>>,
    y: &Expr<Option<Type>>,
    z: &Expr<Option<Type>>,
    pending: &Pending<'_>,
    found: &mut Vec<Fault>,
) -> Result<Option<u32>, AllocError>
    ensures level { IfOk result (λ l. l ≡
        level (option_copied at.now.action) (ite x.now y.now z.now (at_place None))
        (fields_in pending.now)) }
    ensures found { OnOk result (map fault_of found.new.items ≡ map fault_of found.old.items ++
        target_faults_at at.now
        (ite x.now y.now z.now (at_place None)) (fields_in pending.now)) }
{
    check(at, x, found)?;
    let first = target_branch(at, y, pending, found)?;
    let second = target_branch(at, z, pending, found)?;
    Ok(greater(first, second))
}

// A branch: one that is not reached counts for nothing.
#[cycle(walk)]
fn target_branch(
    at: &Checked<'_>,
    y: &Expr<Option<Type>>,
    pending: &Pending<'_>,
    found: &mut Vec<Fault>,
) -> Result<Option<u32>, AllocError>
    ensures level { IfOk result (λ l. l ≡
        (if is_reached y.now then
        level (option_copied at.now.action) y.now (fields_in pending.now) else Some 0)) }
    ensures found { OnOk result (map fault_of found.new.items ≡ map fault_of found.old.items ++
        branch_faults_at at.now y.now (fields_in pending.now)) }
{
    if is_reached(y) {
        target(at, y, pending, found)
    } else {
        check(at, y, found)?;
        Ok(Some(0))
    }
}

#[cycle(walk)]
fn target_binary(
    at: &Checked<'_>,
    op: BinaryOp,
    x: &Expr<Option<Type>>,
    y: &Expr<Option<Type>>,
    loc: Option<Loc>,
    found: &mut Vec<Fault>,
) -> Result<Option<u32>, AllocError>
    ensures level { IfOk result (λ l. l ≡
        level (option_copied at.now.action) (binary op x.now y.now (at_place loc)) []) }
    ensures found { OnOk result (map fault_of found.new.items ≡ map fault_of found.old.items ++
        target_faults_at at.now
        (binary op x.now y.now (at_place loc)) []) }
{
    match op {
        BinaryOp::GetTag => {
            let level = target(at, x, &Pending::End, found)?;
            check(at, y, found)?;
            Ok(one_more(x, level))
        }
        _ => target_none(loc, found),
    }
}

#[cycle(walk)]
fn target_attr(
    at: &Checked<'_>,
    x: &Expr<Option<Type>>,
    name: &Text,
    pending: &Pending<'_>,
    found: &mut Vec<Fault>,
) -> Result<Option<u32>, AllocError>
    ensures level { IfOk result (λ l. l ≡
        level (option_copied at.now.action) (attr x.now name.now (at_place None))
        (fields_in pending.now)) }
    ensures found { OnOk result (map fault_of found.new.items ≡ map fault_of found.old.items ++
        target_faults_at at.now
        (attr x.now name.now (at_place None)) (fields_in pending.now)) }
{
    if gives_entity(x) {
        let level = target(at, x, &Pending::End, found)?;
        Ok(one_more(x, level))
    } else {
        target(at, x, &Pending::Field(&*name, &*pending), found)
    }
}

// A record literal of which a field is asked for. Its other fields are walked as all else.
#[cycle(walk)]
fn target_field(
    at: &Checked<'_>,
    fields: &BTreeMap<Text, Expr<Option<Type>>>,
    name: &Text,
    rest: &Pending<'_>,
    loc: Option<Loc>,
    found: &mut Vec<Fault>,
) -> Result<Option<u32>, AllocError>
    ensures level { IfOk result (λ l. l ≡
        level (option_copied at.now.action) (rec (named_of fields.now.entries) (at_place loc))
        (name.now ∷ fields_in rest.now)) }
    ensures found { OnOk result (map fault_of found.new.items ≡ map fault_of found.old.items ++
        named_targets_at at.now loc
        (named_of fields.now.entries) (name.now ∷ fields_in rest.now)) }
{
    let mut reached = None;
    for (key, field) in fields.iter() {
        if reached.is_none() && name.cmp(key) == Ordering::Equal {
            reached = Some(target(at, field, rest, found)?);
        } else {
            check(at, field, found)?;
        }
    }
    match reached {
        Some(level) => Ok(level),
        None => target_none(loc, found),
    }
}
