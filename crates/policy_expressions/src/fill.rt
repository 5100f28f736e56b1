//! Copies of expressions, with ids in the places of slots. They share what has no slot.

ghost use Rattle.std.specs.Prelude.{◌≡◌, IfOk, map};
ghost use Rattle.policy_expressions.specs.Slots.{filled, filled_entry};
ghost use Rattle.policy_expressions.specs.Tree.{mark_of};
ghost use Rattle.policy_expressions.specs.TreeView.{tree_of};

use crate::expr::around;
use crate::{Expr, ExprKind, Literal, Note, SlotValues};
use policy_values::{Text, push_entry};
use std::alloc::{AllocError, Global};
use std::collections::BTreeMap;
use std::rc::Rc;

impl<T: Note> Expr<T> {
    /// The expression with a literal for each slot that has an id among the values; other slots stay.
    /// Operands without slots are shared.
    pub fn substitute(&self, alloc: Global, values: &SlotValues) -> Result<Expr<T>, AllocError>
        ensures { IfOk result (λ e. e ≡ filled values.now self.now) }
    {
        fill(alloc, self, values)
    }

    /// An equal expression. Operands without slots are shared.
    pub fn try_clone(&self, alloc: Global) -> Result<Expr<T>, AllocError>
        ensures { IfOk result (λ e. e ≡ self.now) }
    {
        let none = SlotValues {
            principal: None,
            resource: None,
        };
        match fill(alloc, self, &none) {
            Ok(copy) => Ok(copy),
            Err(error) => Err(error),
        }
    }
}

#[cycle(fill)]
fn fill<T: Note>(alloc: Global, e: &Expr<T>, values: &SlotValues) -> Result<Expr<T>, AllocError>
    ensures { IfOk result (λ r. r ≡ filled values.now e.now) }
{
    let kind = fill_kind(alloc, e, values)?;
    around(alloc, e, values, kind)
}

#[cycle(fill)]
#[tactic(auto, using(crate::proofs::FillSteps::trees_filled, crate::proofs::FillSteps::named_filled))]
fn fill_kind<T: Note>(
    alloc: Global,
    e: &Expr<T>,
    values: &SlotValues,
) -> Result<ExprKind<T>, AllocError>
    ensures { IfOk result (λ k. tree_of k (mark_of e.now) ≡ filled values.now e.now) }
{
    match e.kind() {
        ExprKind::Lit(value) => Ok(ExprKind::Lit(value.try_clone()?)),
        ExprKind::Var(value) => Ok(ExprKind::Var(*value)),
        ExprKind::Slot(slot) => match values.value(*slot) {
            Some(uid) => Ok(ExprKind::Lit(Literal::EntityUID(uid.try_clone()?))),
            None => Ok(ExprKind::Slot(*slot)),
        },
        ExprKind::If(x, y, z) => {
            let x = fill_shared(alloc, x, values)?;
            let (y, z) = fill_two(alloc, y, z, values)?;
            Ok(ExprKind::If(x, y, z))
        }
        ExprKind::And(x, y) => {
            let (x, y) = fill_two(alloc, x, y, values)?;
            Ok(ExprKind::And(x, y))
        }
        ExprKind::Or(x, y) => {
            let (x, y) = fill_two(alloc, x, y, values)?;
            Ok(ExprKind::Or(x, y))
        }
        ExprKind::BinaryApp(op, x, y) => {
            let (x, y) = fill_two(alloc, x, y, values)?;
            Ok(ExprKind::BinaryApp(*op, x, y))
        }
        ExprKind::ExtensionFunctionApp(name, args) => {
            let name = name.try_clone()?;
            let args = fill_all(alloc, args, values)?;
            Ok(ExprKind::ExtensionFunctionApp(name, args))
        }
        ExprKind::Set(items) => Ok(ExprKind::Set(fill_all(alloc, items, values)?)),
        ExprKind::Record(fields) => Ok(ExprKind::Record(fill_named(alloc, fields, values)?)),
        ExprKind::UnaryApp(op, x) => Ok(ExprKind::UnaryApp(*op, fill_shared(alloc, x, values)?)),
        ExprKind::GetAttr(x, name) => {
            let name = name.try_clone()?;
            Ok(ExprKind::GetAttr(fill_shared(alloc, x, values)?, name))
        }
        ExprKind::HasAttr(x, name) => {
            let name = name.try_clone()?;
            Ok(ExprKind::HasAttr(fill_shared(alloc, x, values)?, name))
        }
        ExprKind::Like(x, pattern) => {
            let pattern = pattern.try_clone(alloc)?;
            Ok(ExprKind::Like(fill_shared(alloc, x, values)?, pattern))
        }
        ExprKind::Is(x, entity_type) => {
            let entity_type = entity_type.try_clone()?;
            Ok(ExprKind::Is(fill_shared(alloc, x, values)?, entity_type))
        }
    }
}

// The operand with ids in the places of its slots. One that has no slot is shared.
#[cycle(fill)]
#[tactic(auto, using(crate::proofs::SlotSteps::filled_without_slot))]
fn fill_shared<T: Note>(
    alloc: Global,
    e: &Rc<Expr<T>>,
    values: &SlotValues,
) -> Result<Rc<Expr<T>>, AllocError>
    ensures { IfOk result (λ r. r.value ≡ filled values.now e.now.value) }
{
    if !e.has_slot() {
        return e.clone();
    }
    let copy = fill(alloc, e, values)?;
    Ok(Rc::new(alloc, copy)?)
}

#[cycle(fill)]
fn fill_two<T: Note>(
    alloc: Global,
    x: &Rc<Expr<T>>,
    y: &Rc<Expr<T>>,
    values: &SlotValues,
) -> Result<(Rc<Expr<T>>, Rc<Expr<T>>), AllocError>
    ensures { IfOk result (λ r. (r.0.value ≡ filled values.now x.now.value) ×
        (r.1.value ≡ filled values.now y.now.value)) }
{
    let x = fill_shared(alloc, x, values)?;
    Ok((x, fill_shared(alloc, y, values)?))
}

#[cycle(fill)]
#[tactic(auto, using(crate::proofs::TreeSteps::depth_in))]
fn fill_all<T: Note>(
    alloc: Global,
    items: &Vec<Expr<T>>,
    values: &SlotValues,
) -> Result<Vec<Expr<T>>, AllocError>
    ensures { IfOk result (λ r. r.items ≡ map (filled values.now) items.now.items) }
{
    let mut copies = Vec::new(alloc);
    for item in items {
        copies.push(fill(alloc, item, values)?)?;
    }
    Ok(copies)
}

#[cycle(fill)]
fn fill_named<T: Note>(
    alloc: Global,
    fields: &BTreeMap<Text, Expr<T>>,
    values: &SlotValues,
) -> Result<BTreeMap<Text, Expr<T>>, AllocError>
    ensures { IfOk result (λ r. r.entries ≡ map (filled_entry values.now) fields.now.entries) }
{
    let mut copies = BTreeMap::new(alloc);
    for (name, item) in fields.iter() {
        let name = name.try_clone()?;
        let item = fill(alloc, item, values)?;
        push_entry(&mut copies, name, item)?;
    }
    Ok(copies)
}
