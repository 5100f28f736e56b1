//! Expressions.

ghost use Rattle.std.specs.Prelude.{◌≡◌, ◌≢◌, ◌≤◌, IfOk, max, ◌↔◌};
ghost use Rattle.policy_expressions.specs.Tree.{Tree, lit, var, slot, ite, conj, disj, unary, binary, attr, has, like, is_type, call, set, rec, Mark, mark_of, with_mark, depth_of, deepest, trees_of, deepest_named, named_of};
ghost use Rattle.policy_expressions.specs.TreeView.{tree_of};
ghost use Rattle.policy_expressions.specs.Keys.{HasKeysOnce, HaveKeysOnce, AreKeysOnce};
ghost use Rattle.policy_expressions.specs.Slots.{filled, has_slot};

use crate::slots::slot_in;
use crate::{BinaryOp, Literal, Loc, Note, Pattern, SlotId, SlotValues, UnaryOp, Var};
use policy_values::{EntityType, Name, Text};
use std::alloc::{AllocError, Global};
use std::collections::BTreeMap;
use std::fmt;
use std::marker::Model;
use std::rc::Rc;

/// An expression, with a note of type T at each node and the place where it stands in its source. It is at
/// most 400 deep: a literal, a variable or a slot has depth 1, any other expression one more than its deepest
/// operand. Each record in it has each of its keys once. Copies share its operands.
#[derive(Debug)]
#[cycle(expr)]
pub struct Expr<T> {
    kind: ExprKind<T>,
    depth: u32,
    // Whether a slot is in it.
    slotted: bool,
    note: T,
    loc: Option<Loc>,
}

impl<T: Drop> Drop for Expr<T> {
    #[cycle(expr_drops)]
    fn drop(self) {
        let Expr {
            kind,
            depth: _,
            slotted: _,
            note,
            loc,
        } = self;
        drop(kind);
        drop(note);
        drop(loc);
    }
}

/// The kind of an expression, with its operands.
#[derive(Debug, Drop)]
#[cycle(expr)]
pub enum ExprKind<T> {
    /// A literal.
    Lit(Literal),
    /// A variable.
    Var(Var),
    /// A slot.
    Slot(SlotId),
    /// `if` the first `then` the second `else` the third.
    If(Rc<Expr<T>>, Rc<Expr<T>>, Rc<Expr<T>>),
    /// `&&`.
    And(Rc<Expr<T>>, Rc<Expr<T>>),
    /// `||`.
    Or(Rc<Expr<T>>, Rc<Expr<T>>),
    /// An operator of one operand.
    UnaryApp(UnaryOp, Rc<Expr<T>>),
    /// An operator of two operands.
    BinaryApp(BinaryOp, Rc<Expr<T>>, Rc<Expr<T>>),
    /// `.`: an attribute of an entity, or a field of a record.
    GetAttr(Rc<Expr<T>>, Text),
    /// `has`: whether there is that attribute or field.
    HasAttr(Rc<Expr<T>>, Text),
    /// `like`: whether a string matches the pattern.
    Like(Rc<Expr<T>>, Pattern),
    /// `is`: whether an id is of the type.
    Is(Rc<Expr<T>>, EntityType),
    /// A call of the extension function of a name.
    ExtensionFunctionApp(Name, Vec<Expr<T>>),
    /// A set of elements.
    Set(Vec<Expr<T>>),
    /// A record of fields under their keys.
    Record(BTreeMap<Text, Expr<T>>),
}

impl<T> Model for Expr<T> {
    ghost use Rattle.std.specs.Prelude.{◌≡◌, ◌≤◌};
    ghost use Rattle.policy_expressions.specs.Tree.{Tree, Mark, depth_of};
    ghost use Rattle.policy_expressions.specs.TreeCode.{coded_tree, coded_mark};

    ghost Value = { Tree (Mark T) };

    ghost coded = { coded_tree (coded_mark T.code) };

    ghost use Rattle.policy_expressions.specs.TreeView.{tree_of};

    ghost view = { λ a. tree_of a.kind (record { note = a.note; loc = a.loc }) };

    ghost use Rattle.policy_expressions.specs.Keys.{HasKeysOnce};
    ghost use Rattle.policy_expressions.specs.KindSlots.{slot_in};

    ghost invariant = { λ a. (a.depth ≡ depth_of (tree_of a.kind (record { note = a.note; loc = a.loc }))) ×
        (a.depth ≤ 400) × HasKeysOnce (tree_of a.kind (record { note = a.note; loc = a.loc })) ×
        (a.slotted ≡ slot_in a.kind) };

    ghost size = { depth_of };

    ghost use Rattle.policy_expressions.specs.TreeFalls.{falls};

    ghost size_decreases = { λ a h. falls a };
}

/// Why an expression was not built.
#[derive(Debug, Drop)]
pub enum BuildError {
    /// The expression would be more than 400 deep.
    Nested,
    /// There was no memory for it.
    OutOfMemory,
}

impl fmt::Display for BuildError {
    ghost use Rattle.std.specs.Prelude.{Some};
    ghost use Rattle.policy_expressions.specs.Show.{build_error_text};

    ghost output = { λ e. Some (build_error_text e) };

    fn fmt<W: fmt::Write>(&self, f: &mut fmt::Formatter<W>) -> fmt::Result {
        match self {
            BuildError::Nested => f.write_str("nested deeper than 400"),
            BuildError::OutOfMemory => f.write_str("out of memory"),
        }
    }
}

impl From<AllocError> for BuildError {
    ghost use Rattle.policy_expressions.specs.declared.expr.BuildError.{BuildError};

    ghost from_gives = { λ _ e. e ≡ BuildError.OutOfMemory };

    fn from(_: AllocError) -> BuildError {
        BuildError::OutOfMemory
    }
}

impl<T> Expr<T> {
    /// The kind, with the operands.
    pub fn kind(&self) -> &ExprKind<T>
        ensures { tree_of result.now (mark_of self.now) ≡ self.now }
    {
        &self.kind
    }

    /// The depth: 1 for a literal, a variable or a slot, else one more than the deepest operand.
    pub fn depth(&self) -> u32
        ensures value { result ≡ depth_of self.now }
        ensures bound { result ≤ 400 }
    {
        self.depth
    }

    /// Whether some part is a slot.
    #[tactic(auto, using(crate::proofs::SlotSteps::slot_in_tree))]
    pub fn has_slot(&self) -> bool
        ensures { result ≡ has_slot self.now }
    {
        self.slotted
    }

    /// The note.
    pub fn data(&self) -> &T
        ensures { result.now ≡ (mark_of self.now).note }
    {
        &self.note
    }

    /// The place in the source, where it is known.
    pub fn source_loc(&self) -> Option<Loc>
        ensures { result ≡ (mark_of self.now).loc }
    {
        self.loc
    }

    /// A literal.
    pub fn lit(value: Literal, note: T, loc: Option<Loc>) -> Expr<T>
        ensures { result ≡ lit value (record { note = note; loc = loc }) }
    {
        Expr {
            kind: ExprKind::Lit(value),
            depth: 1,
            slotted: false,
            note,
            loc,
        }
    }

    /// A variable.
    pub fn var(value: Var, note: T, loc: Option<Loc>) -> Expr<T>
        ensures { result ≡ var value (record { note = note; loc = loc }) }
    {
        Expr {
            kind: ExprKind::Var(value),
            depth: 1,
            slotted: false,
            note,
            loc,
        }
    }

    /// A slot.
    pub fn slot(id: SlotId, note: T, loc: Option<Loc>) -> Expr<T>
        ensures { result ≡ slot id (record { note = note; loc = loc }) }
    {
        Expr {
            kind: ExprKind::Slot(id),
            depth: 1,
            slotted: true,
            note,
            loc,
        }
    }
}

impl<T: Drop> Expr<T> {
    /// The conditional of a test and two branches. Errs with `Nested` exactly where it would be more than
    /// 400 deep.
    pub fn ite(
        alloc: Global,
        x: Expr<T>,
        y: Expr<T>,
        z: Expr<T>,
        note: T,
        loc: Option<Loc>,
    ) -> Result<Expr<T>, BuildError>
        ensures ok { IfOk result (λ e. e ≡ ite x y z (record { note = note; loc = loc })) }
        ensures nested { (result ≡ Err BuildError.Nested) ↔
            (400 ≤ max (depth_of x) (max (depth_of y) (depth_of z))) }
    {
        let depth = operand_depth(&x).max(operand_depth(&y).max(operand_depth(&z)));
        if depth >= MAX_DEPTH {
            drop(x);
            drop(y);
            drop(z);
            return Err(BuildError::Nested);
        }
        let (x, y, z) = three_shared(alloc, x, y, z)?;
        Ok(made(ExprKind::If(x, y, z), depth + 1, note, loc))
    }

    /// The conjunction of two operands. Errs with `Nested` exactly where it would be more than 400 deep.
    pub fn and(
        alloc: Global,
        x: Expr<T>,
        y: Expr<T>,
        note: T,
        loc: Option<Loc>,
    ) -> Result<Expr<T>, BuildError>
        ensures ok { IfOk result (λ e. e ≡ conj x y (record { note = note; loc = loc })) }
        ensures nested { (result ≡ Err BuildError.Nested) ↔ (400 ≤ max (depth_of x) (depth_of y)) }
    {
        let depth = operand_depth(&x).max(operand_depth(&y));
        if depth >= MAX_DEPTH {
            drop(x);
            drop(y);
            return Err(BuildError::Nested);
        }
        let (x, y) = two_shared(alloc, x, y)?;
        Ok(made(ExprKind::And(x, y), depth + 1, note, loc))
    }

    /// The disjunction of two operands. Errs with `Nested` exactly where it would be more than 400 deep.
    pub fn or(
        alloc: Global,
        x: Expr<T>,
        y: Expr<T>,
        note: T,
        loc: Option<Loc>,
    ) -> Result<Expr<T>, BuildError>
        ensures ok { IfOk result (λ e. e ≡ disj x y (record { note = note; loc = loc })) }
        ensures nested { (result ≡ Err BuildError.Nested) ↔ (400 ≤ max (depth_of x) (depth_of y)) }
    {
        let depth = operand_depth(&x).max(operand_depth(&y));
        if depth >= MAX_DEPTH {
            drop(x);
            drop(y);
            return Err(BuildError::Nested);
        }
        let (x, y) = two_shared(alloc, x, y)?;
        Ok(made(ExprKind::Or(x, y), depth + 1, note, loc))
    }

    /// An operator applied to its operand. Errs with `Nested` exactly where it would be more than 400 deep.
    pub fn unary_app(
        alloc: Global,
        op: UnaryOp,
        x: Expr<T>,
        note: T,
        loc: Option<Loc>,
    ) -> Result<Expr<T>, BuildError>
        ensures ok { IfOk result (λ e. e ≡ unary op x (record { note = note; loc = loc })) }
        ensures nested { (result ≡ Err BuildError.Nested) ↔ (400 ≤ depth_of x) }
    {
        let depth = operand_depth(&x);
        if depth >= MAX_DEPTH {
            drop(x);
            return Err(BuildError::Nested);
        }
        let x = Rc::new(alloc, x).map_err(AllocError::from)?;
        Ok(made(ExprKind::UnaryApp(op, x), depth + 1, note, loc))
    }

    /// An operator applied to its two operands, the left one first. Errs with `Nested` exactly where it would
    /// be more than 400 deep.
    pub fn binary_app(
        alloc: Global,
        op: BinaryOp,
        x: Expr<T>,
        y: Expr<T>,
        note: T,
        loc: Option<Loc>,
    ) -> Result<Expr<T>, BuildError>
        ensures ok { IfOk result (λ e. e ≡ binary op x y (record { note = note; loc = loc })) }
        ensures nested { (result ≡ Err BuildError.Nested) ↔ (400 ≤ max (depth_of x) (depth_of y)) }
    {
        let depth = operand_depth(&x).max(operand_depth(&y));
        if depth >= MAX_DEPTH {
            drop(x);
            drop(y);
            return Err(BuildError::Nested);
        }
        let (x, y) = two_shared(alloc, x, y)?;
        Ok(made(ExprKind::BinaryApp(op, x, y), depth + 1, note, loc))
    }

    /// The attribute or field of a name. Errs with `Nested` exactly where it would be more than 400 deep.
    pub fn get_attr(
        alloc: Global,
        x: Expr<T>,
        name: Text,
        note: T,
        loc: Option<Loc>,
    ) -> Result<Expr<T>, BuildError>
        ensures ok { IfOk result (λ e. e ≡ attr x name (record { note = note; loc = loc })) }
        ensures nested { (result ≡ Err BuildError.Nested) ↔ (400 ≤ depth_of x) }
    {
        let depth = operand_depth(&x);
        if depth >= MAX_DEPTH {
            drop(x);
            return Err(BuildError::Nested);
        }
        let x = Rc::new(alloc, x).map_err(AllocError::from)?;
        Ok(made(ExprKind::GetAttr(x, name), depth + 1, note, loc))
    }

    /// The test for an attribute or field of a name. Errs with `Nested` exactly where it would be more than
    /// 400 deep.
    pub fn has_attr(
        alloc: Global,
        x: Expr<T>,
        name: Text,
        note: T,
        loc: Option<Loc>,
    ) -> Result<Expr<T>, BuildError>
        ensures ok { IfOk result (λ e. e ≡ has x name (record { note = note; loc = loc })) }
        ensures nested { (result ≡ Err BuildError.Nested) ↔ (400 ≤ depth_of x) }
    {
        let depth = operand_depth(&x);
        if depth >= MAX_DEPTH {
            drop(x);
            return Err(BuildError::Nested);
        }
        let x = Rc::new(alloc, x).map_err(AllocError::from)?;
        Ok(made(ExprKind::HasAttr(x, name), depth + 1, note, loc))
    }

    /// The test of a string against a pattern. Errs with `Nested` exactly where it would be more than
    /// 400 deep.
    pub fn like(
        alloc: Global,
        x: Expr<T>,
        pattern: Pattern,
        note: T,
        loc: Option<Loc>,
    ) -> Result<Expr<T>, BuildError>
        ensures ok { IfOk result (λ e. e ≡ like x pattern (record { note = note; loc = loc })) }
        ensures nested { (result ≡ Err BuildError.Nested) ↔ (400 ≤ depth_of x) }
    {
        let depth = operand_depth(&x);
        if depth >= MAX_DEPTH {
            drop(x);
            return Err(BuildError::Nested);
        }
        let x = Rc::new(alloc, x).map_err(AllocError::from)?;
        Ok(made(ExprKind::Like(x, pattern), depth + 1, note, loc))
    }

    /// The test for the type of an id. Errs with `Nested` exactly where it would be more than 400 deep.
    pub fn is(
        alloc: Global,
        x: Expr<T>,
        entity_type: EntityType,
        note: T,
        loc: Option<Loc>,
    ) -> Result<Expr<T>, BuildError>
        ensures ok { IfOk result (λ e. e ≡ is_type x entity_type (record { note = note; loc = loc })) }
        ensures nested { (result ≡ Err BuildError.Nested) ↔ (400 ≤ depth_of x) }
    {
        let depth = operand_depth(&x);
        if depth >= MAX_DEPTH {
            drop(x);
            return Err(BuildError::Nested);
        }
        let x = Rc::new(alloc, x).map_err(AllocError::from)?;
        Ok(made(ExprKind::Is(x, entity_type), depth + 1, note, loc))
    }

    /// The call of an extension function. Errs with `Nested` exactly where it would be more than 400 deep.
    pub fn extension_function_app(
        name: Name,
        args: Vec<Expr<T>>,
        note: T,
        loc: Option<Loc>,
    ) -> Result<Expr<T>, BuildError>
        ensures ok { IfOk result
            (λ e. e ≡ call name (trees_of args.items) (record { note = note; loc = loc })) }
        ensures nested { (result ≡ Err BuildError.Nested) ↔ (400 ≤ deepest (trees_of args.items)) }
    {
        let depth = deepest_of(&args);
        if depth >= MAX_DEPTH {
            drop(args);
            return Err(BuildError::Nested);
        }
        Ok(made(
            ExprKind::ExtensionFunctionApp(name, args),
            depth + 1,
            note,
            loc,
        ))
    }

    /// The set of elements. Errs with `Nested` exactly where it would be more than 400 deep.
    pub fn set(items: Vec<Expr<T>>, note: T, loc: Option<Loc>) -> Result<Expr<T>, BuildError>
        ensures ok { IfOk result (λ e. e ≡ set (trees_of items.items) (record { note = note; loc = loc })) }
        ensures nested { (result ≡ Err BuildError.Nested) ↔ (400 ≤ deepest (trees_of items.items)) }
    {
        let depth = deepest_of(&items);
        if depth >= MAX_DEPTH {
            return Err(BuildError::Nested);
        }
        Ok(made(ExprKind::Set(items), depth + 1, note, loc))
    }

    /// The record of fields. Errs with `Nested` exactly where it would be more than 400 deep.
    pub fn record(
        fields: BTreeMap<Text, Expr<T>>,
        note: T,
        loc: Option<Loc>,
    ) -> Result<Expr<T>, BuildError>
        ensures ok { IfOk result
            (λ e. e ≡ rec (named_of fields.entries) (record { note = note; loc = loc })) }
        ensures nested { (result ≡ Err BuildError.Nested) ↔ (400 ≤ deepest_named (named_of fields.entries)) }
    {
        let depth = deepest_of_named(&fields);
        if depth >= MAX_DEPTH {
            return Err(BuildError::Nested);
        }
        Ok(made(ExprKind::Record(fields), depth + 1, note, loc))
    }

    /// Puts another note in the place of the note.
    pub fn set_data(&mut self, note: T)
        ensures { self.new ≡ with_mark self.old (record { note = note; loc = (mark_of self.old).loc }) }
    {
        self.note = note;
    }

    /// Puts another place in the source in the place of its own.
    pub fn set_source_loc(&mut self, loc: Option<Loc>)
        ensures { self.new ≡ with_mark self.old (record { note = (mark_of self.old).note; loc = loc }) }
    {
        self.loc = loc;
    }
}

// The deepest that an expression can be.
const MAX_DEPTH: u32 = 400;

// The expression of a kind.
fn made<T>(kind: ExprKind<T>, depth: u32, note: T, loc: Option<Loc>) -> Expr<T>
    requires depth { depth ≡ depth_of (tree_of kind (record { note = note; loc = loc })) }
    requires bound { depth ≤ 400 }
    requires keys { HasKeysOnce (tree_of kind (record { note = note; loc = loc })) }
    ensures { result ≡ tree_of kind (record { note = note; loc = loc }) }
{
    let slotted = slot_in(&kind);
    Expr {
        kind,
        depth,
        slotted,
        note,
        loc,
    }
}

fn two_shared<X: Drop>(alloc: Global, x: X, y: X) -> Result<(Rc<X>, Rc<X>), AllocError>
    ensures { IfOk result (λ r. (r.0.value ≡ x) × (r.1.value ≡ y)) }
{
    let x = Rc::new(alloc, x)?;
    Ok((x, Rc::new(alloc, y)?))
}

fn three_shared<X: Drop>(
    alloc: Global,
    x: X,
    y: X,
    z: X,
) -> Result<(Rc<X>, Rc<X>, Rc<X>), AllocError>
    ensures { IfOk result (λ r. (r.0.value ≡ x) × (r.1.value ≡ y) × (r.2.value ≡ z)) }
{
    let x = Rc::new(alloc, x)?;
    let y = Rc::new(alloc, y)?;
    Ok((x, y, Rc::new(alloc, z)?))
}

// The depth of an operand.
pub(crate) fn operand_depth<T>(e: &Expr<T>) -> u32
    ensures value { result ≡ depth_of e.now }
    ensures bound { result ≤ 400 }
    ensures keys { HasKeysOnce e.now }
{
    e.depth
}

// The greatest depth among expressions, 0 where there is none.
#[tactic(auto, using(crate::proofs::TreeSteps::deepest_more, crate::proofs::TreeSteps::deepest_all))]
fn deepest_of<T>(items: &Vec<Expr<T>>) -> u32
    ensures value { result ≡ deepest (trees_of items.now.items) }
    ensures bound { result ≤ 400 }
    ensures keys { HaveKeysOnce (trees_of items.now.items) }
{
    let mut depth = 0;
    for item in items {
        depth = operand_depth(item).max(depth);
    }
    depth
}

// The same of the expressions in a map.
#[tactic(auto, using(crate::proofs::KeySteps::fresh_first, crate::proofs::KeySteps::sorted_rest))]
fn deepest_of_named<T>(fields: &BTreeMap<Text, Expr<T>>) -> u32
    ensures value { result ≡ deepest_named (named_of fields.now.entries) }
    ensures bound { result ≤ 400 }
    ensures keys { AreKeysOnce (named_of fields.now.entries) }
{
    let mut depth = 0;
    for (_, item) in fields.iter() {
        depth = operand_depth(item).max(depth);
    }
    depth
}

// The expression around its operands, with ids in the places of slots, and with a copy of its note.
pub(crate) fn around<T: Note>(
    alloc: Global,
    e: &Expr<T>,
    values: &SlotValues,
    kind: ExprKind<T>,
) -> Result<Expr<T>, AllocError>
    requires { tree_of kind (mark_of e.now) ≡ filled values.now e.now }
    ensures { IfOk result (λ r. r ≡ filled values.now e.now) }
{
    let _values = values;
    let note = e.note.try_copy(alloc)?;
    let slotted = slot_in(&kind);
    Ok(Expr {
        kind,
        depth: e.depth,
        slotted,
        note,
        loc: e.loc,
    })
}
