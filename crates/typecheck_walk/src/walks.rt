//! The walk.

ghost use Rattle.std.specs.Prelude.{◌≡◌, IfOk, map};
ghost use Rattle.schema_core.specs.RequestEnvs.{env_data_of};
ghost use Rattle.policy_expressions.specs.Tree.{attr, binary, call, conj, disj, has, is_type, ite, like, named_of, rec, set, trees_of, unary};
ghost use Rattle.typecheck_rules.specs.Expected.{a_boolean};
ghost use Rattle.typecheck_rules.specs.Walk.{walked, walked_all, walked_named};
ghost use Rattle.typecheck_rules.specs.Walked.{expect};
ghost use Rattle.typecheck_rules.specs.Operators.{place, reached_besides};
ghost use Rattle.typecheck_operators.specs.Reported.{all_of, field_of, mark, walked_of};
ghost use Rattle.typecheck_walk.specs.Branches.{first_branch_walked};
ghost use Rattle.typecheck_walk.specs.Sides.{right_side_walked};

use crate::known::knows_tag;
use crate::setting::Setting;
use crate::{and_sides, if_parts, or_sides};
use policy_expressions::{BinaryOp, BuildError, Expr, ExprKind, Loc, Pattern, UnaryOp};
use policy_values::{EntityType, Name, Text, push_entry};
use schema_types::TypeKind;
use std::alloc::AllocError;
use std::collections::BTreeMap;
use typecheck_operators::{
    Access, Operator, Reported, attr_reported, binary_reported, call_reported, expect,
    has_reported, is_reported, knows_attribute, like_reported, literal_reported, record_reported,
    set_reported, skipped, slot_reported, unary_reported, undefined_reported, variable_reported,
};
use typecheck_rules::Expected;
use typing_spec::CapabilitySet;

// The walk through an expression: its typing, or what is found. Each kind has a function of its own, which
// keeps proofs short; so does dropping by a call what was reported of one part when the walk of the next fails.
#[cycle(walk)]
pub(crate) fn walk<'a>(
    at: &Setting<'a, '_, '_, '_>,
    caps: &CapabilitySet<'a>,
    e: &'a Expr<()>,
) -> Result<Reported<'a>, BuildError>
    ensures { IfOk result (λ r. walked_of r ≡
        walked at.now.schema.now (env_data_of at.now.env.now) caps.now e.now) }
{
    let loc = e.source_loc();
    match e.kind() {
        ExprKind::Lit(l) => literal_reported(at.alloc, at.schema, l, loc),
        ExprKind::Var(v) => variable_reported(at.alloc, at.schema, at.env, *v, loc),
        ExprKind::Slot(id) => slot_reported(at.alloc, at.env, *id, loc),
        ExprKind::If(x, y, z) => walk_if(at, caps, x, y, z, loc),
        ExprKind::And(x, y) => walk_and(at, caps, x, y, loc),
        ExprKind::Or(x, y) => walk_or(at, caps, x, y, loc),
        ExprKind::UnaryApp(op, x) => walk_unary(at, caps, *op, x, loc),
        ExprKind::BinaryApp(op, x, y) => walk_binary(at, caps, *op, x, y, loc),
        ExprKind::GetAttr(x, n) => walk_attr(at, caps, x, n, loc),
        ExprKind::HasAttr(x, n) => walk_has(at, caps, x, n, loc),
        ExprKind::Like(x, p) => walk_like(at, caps, x, p, loc),
        ExprKind::Is(x, n) => walk_is(at, caps, x, n, loc),
        ExprKind::ExtensionFunctionApp(f, xs) => walk_call(at, caps, f, xs, loc),
        ExprKind::Set(xs) => walk_set(at, caps, xs, loc),
        ExprKind::Record(fields) => walk_record(at, caps, fields, loc),
    }
}

#[cycle(walk)]
fn walk_if<'a>(
    at: &Setting<'a, '_, '_, '_>,
    caps: &CapabilitySet<'a>,
    x: &'a Expr<()>,
    y: &'a Expr<()>,
    z: &'a Expr<()>,
    loc: Option<Loc>,
) -> Result<Reported<'a>, BuildError>
    ensures { IfOk result (λ r. walked_of r ≡
        walked at.now.schema.now (env_data_of at.now.env.now) caps.now
        (ite x.now y.now z.now (mark loc))) }
{
    let u = walk_boolean(at, caps, x)?;
    match walk_after(at, caps, &u, y) {
        Ok(v) => match walk_besides(at, caps, &u, z) {
            Ok(w) => if_parts(at.alloc, loc, u, v, w),
            Err(error) => {
                drop(u);
                drop(v);
                Err(error)
            }
        },
        Err(error) => {
            drop(u);
            Err(error)
        }
    }
}

#[cycle(walk)]
fn walk_and<'a>(
    at: &Setting<'a, '_, '_, '_>,
    caps: &CapabilitySet<'a>,
    x: &'a Expr<()>,
    y: &'a Expr<()>,
    loc: Option<Loc>,
) -> Result<Reported<'a>, BuildError>
    ensures { IfOk result (λ r. walked_of r ≡
        walked at.now.schema.now (env_data_of at.now.env.now) caps.now
        (conj x.now y.now (mark loc))) }
{
    let v = walk_boolean(at, caps, x)?;
    match walk_right_of_and(at, caps, &v, y) {
        Ok(w) => and_sides(at.alloc, loc, v, w),
        Err(error) => {
            drop(v);
            Err(error)
        }
    }
}

#[cycle(walk)]
fn walk_or<'a>(
    at: &Setting<'a, '_, '_, '_>,
    caps: &CapabilitySet<'a>,
    x: &'a Expr<()>,
    y: &'a Expr<()>,
    loc: Option<Loc>,
) -> Result<Reported<'a>, BuildError>
    ensures { IfOk result (λ r. walked_of r ≡
        walked at.now.schema.now (env_data_of at.now.env.now) caps.now
        (disj x.now y.now (mark loc))) }
{
    let v = walk_boolean(at, caps, x)?;
    match walk_right_of_or(at, caps, &v, y) {
        Ok(w) => or_sides(at.alloc, loc, v, w),
        Err(error) => {
            drop(v);
            Err(error)
        }
    }
}

// A test, or a side of `&&` or `||`.
#[cycle(walk)]
fn walk_boolean<'a>(
    at: &Setting<'a, '_, '_, '_>,
    caps: &CapabilitySet<'a>,
    y: &'a Expr<()>,
) -> Result<Reported<'a>, BuildError>
    ensures { IfOk result (λ r. walked_of r ≡
        expect a_boolean (place y.now)
        (walked at.now.schema.now (env_data_of at.now.env.now) caps.now y.now)) }
{
    let w = walk(at, caps, y)?;
    let w = expect(at.alloc, Expected::Boolean, y.source_loc(), w)?;
    Ok(w)
}

// The branch behind a test that has to be true: with what it makes known, unless it failed.
#[cycle(walk)]
fn walk_after<'a>(
    at: &Setting<'a, '_, '_, '_>,
    caps: &CapabilitySet<'a>,
    v: &Reported<'a>,
    y: &'a Expr<()>,
) -> Result<Reported<'a>, BuildError>
    ensures { IfOk result (λ r. walked_of r ≡
        first_branch_walked at.now.schema.now (env_data_of at.now.env.now) caps.now (walked_of v.now) y.now) }
{
    match v {
        Reported::Success(a) => match a.of.kind() {
            TypeKind::False => Ok(skipped(at.alloc)?),
            _ => {
                let inner = caps.union(&a.caps)?;
                walk(at, &inner, y)
            }
        },
        Reported::Fail(_) => walk(at, caps, y),
    }
}

// The branch behind a test that has to be false.
#[cycle(walk)]
fn walk_besides<'a>(
    at: &Setting<'a, '_, '_, '_>,
    caps: &CapabilitySet<'a>,
    v: &Reported<'a>,
    z: &'a Expr<()>,
) -> Result<Reported<'a>, BuildError>
    ensures { IfOk result (λ r. walked_of r ≡
        reached_besides (walked_of v.now)
        (walked at.now.schema.now (env_data_of at.now.env.now) caps.now z.now)) }
{
    match v {
        Reported::Success(a) => match a.of.kind() {
            TypeKind::True => Ok(skipped(at.alloc)?),
            _ => walk(at, caps, z),
        },
        Reported::Fail(_) => walk(at, caps, z),
    }
}

// The right side of `&&`.
#[cycle(walk)]
fn walk_right_of_and<'a>(
    at: &Setting<'a, '_, '_, '_>,
    caps: &CapabilitySet<'a>,
    v: &Reported<'a>,
    y: &'a Expr<()>,
) -> Result<Reported<'a>, BuildError>
    ensures { IfOk result (λ r. walked_of r ≡
        right_side_walked at.now.schema.now (env_data_of at.now.env.now) caps.now (walked_of v.now) y.now) }
{
    match v {
        Reported::Success(a) => match a.of.kind() {
            TypeKind::False => Ok(skipped(at.alloc)?),
            _ => {
                let inner = caps.union(&a.caps)?;
                walk_boolean(at, &inner, y)
            }
        },
        Reported::Fail(_) => walk_boolean(at, caps, y),
    }
}

// The right side of `||`.
#[cycle(walk)]
fn walk_right_of_or<'a>(
    at: &Setting<'a, '_, '_, '_>,
    caps: &CapabilitySet<'a>,
    v: &Reported<'a>,
    y: &'a Expr<()>,
) -> Result<Reported<'a>, BuildError>
    ensures { IfOk result (λ r. walked_of r ≡
        reached_besides (walked_of v.now)
        (expect a_boolean (place y.now)
        (walked at.now.schema.now (env_data_of at.now.env.now) caps.now y.now))) }
{
    match v {
        Reported::Success(a) => match a.of.kind() {
            TypeKind::True => Ok(skipped(at.alloc)?),
            _ => walk_boolean(at, caps, y),
        },
        Reported::Fail(_) => walk_boolean(at, caps, y),
    }
}

#[cycle(walk)]
fn walk_unary<'a>(
    at: &Setting<'a, '_, '_, '_>,
    caps: &CapabilitySet<'a>,
    op: UnaryOp,
    x: &'a Expr<()>,
    loc: Option<Loc>,
) -> Result<Reported<'a>, BuildError>
    ensures { IfOk result (λ r. walked_of r ≡
        walked at.now.schema.now (env_data_of at.now.env.now) caps.now
        (unary op x.now (mark loc))) }
{
    let v = walk(at, caps, x)?;
    unary_reported(at.alloc, op, loc, x.source_loc(), v)
}

#[cycle(walk)]
fn walk_binary<'a>(
    at: &Setting<'a, '_, '_, '_>,
    caps: &CapabilitySet<'a>,
    op: BinaryOp,
    x: &'a Expr<()>,
    y: &'a Expr<()>,
    loc: Option<Loc>,
) -> Result<Reported<'a>, BuildError>
    ensures { IfOk result (λ r. walked_of r ≡
        walked at.now.schema.now (env_data_of at.now.env.now) caps.now
        (binary op x.now y.now (mark loc))) }
{
    let v = walk(at, caps, x)?;
    let known = knows_tag(caps, op, x, y);
    let operator = Operator {
        schema: at.schema,
        env: at.env,
        op,
        known,
        left: x,
        right: y,
        loc,
    };
    match walk(at, caps, y) {
        Ok(w) => binary_reported(at.alloc, &operator, v, w),
        Err(error) => {
            drop(v);
            Err(error)
        }
    }
}

#[cycle(walk)]
fn walk_attr<'a>(
    at: &Setting<'a, '_, '_, '_>,
    caps: &CapabilitySet<'a>,
    x: &'a Expr<()>,
    n: &'a Text,
    loc: Option<Loc>,
) -> Result<Reported<'a>, BuildError>
    ensures { IfOk result (λ r. walked_of r ≡
        walked at.now.schema.now (env_data_of at.now.env.now) caps.now
        (attr x.now n.now (mark loc))) }
{
    let v = walk(at, caps, x)?;
    let access = Access {
        schema: at.schema,
        env: at.env,
        caps,
        on: x,
        name: n,
        loc,
    };
    attr_reported(at.alloc, &access, x.source_loc(), v)
}

#[cycle(walk)]
fn walk_has<'a>(
    at: &Setting<'a, '_, '_, '_>,
    caps: &CapabilitySet<'a>,
    x: &'a Expr<()>,
    n: &'a Text,
    loc: Option<Loc>,
) -> Result<Reported<'a>, BuildError>
    ensures { IfOk result (λ r. walked_of r ≡
        walked at.now.schema.now (env_data_of at.now.env.now) caps.now
        (has x.now n.now (mark loc))) }
{
    let known = knows_attribute(caps, x, n)?;
    let v = walk(at, caps, x)?;
    has_reported(at.alloc, at.schema, known, x, n, loc, v)
}

#[cycle(walk)]
fn walk_like<'a>(
    at: &Setting<'a, '_, '_, '_>,
    caps: &CapabilitySet<'a>,
    x: &'a Expr<()>,
    p: &'a Pattern,
    loc: Option<Loc>,
) -> Result<Reported<'a>, BuildError>
    ensures { IfOk result (λ r. walked_of r ≡
        walked at.now.schema.now (env_data_of at.now.env.now) caps.now
        (like x.now p.now (mark loc))) }
{
    let v = walk(at, caps, x)?;
    like_reported(at.alloc, p, loc, x.source_loc(), v)
}

#[cycle(walk)]
fn walk_is<'a>(
    at: &Setting<'a, '_, '_, '_>,
    caps: &CapabilitySet<'a>,
    x: &'a Expr<()>,
    n: &'a EntityType,
    loc: Option<Loc>,
) -> Result<Reported<'a>, BuildError>
    ensures { IfOk result (λ r. walked_of r ≡
        walked at.now.schema.now (env_data_of at.now.env.now) caps.now
        (is_type x.now n.now (mark loc))) }
{
    let v = walk(at, caps, x)?;
    is_reported(at.alloc, n, loc, x.source_loc(), v)
}

#[cycle(walk)]
fn walk_call<'a>(
    at: &Setting<'a, '_, '_, '_>,
    caps: &CapabilitySet<'a>,
    f: &'a Name,
    xs: &'a Vec<Expr<()>>,
    loc: Option<Loc>,
) -> Result<Reported<'a>, BuildError>
    ensures { IfOk result (λ r. walked_of r ≡
        walked at.now.schema.now (env_data_of at.now.env.now) caps.now
        (call f.now (trees_of xs.now.items) (mark loc))) }
{
    match at.extensions.called(f) {
        Some(g) => {
            let ws = walk_all(at, caps, xs)?;
            call_reported(at.alloc, f, g, xs, loc, ws)
        }
        None => undefined_reported(at.alloc, f, loc),
    }
}

#[cycle(walk)]
fn walk_set<'a>(
    at: &Setting<'a, '_, '_, '_>,
    caps: &CapabilitySet<'a>,
    xs: &'a Vec<Expr<()>>,
    loc: Option<Loc>,
) -> Result<Reported<'a>, BuildError>
    ensures { IfOk result (λ r. walked_of r ≡
        walked at.now.schema.now (env_data_of at.now.env.now) caps.now
        (set (trees_of xs.now.items) (mark loc))) }
{
    let ws = walk_all(at, caps, xs)?;
    set_reported(at.alloc, loc, ws)
}

#[cycle(walk)]
fn walk_record<'a>(
    at: &Setting<'a, '_, '_, '_>,
    caps: &CapabilitySet<'a>,
    fields: &'a BTreeMap<Text, Expr<()>>,
    loc: Option<Loc>,
) -> Result<Reported<'a>, BuildError>
    ensures { IfOk result (λ r. walked_of r ≡
        walked at.now.schema.now (env_data_of at.now.env.now) caps.now
        (rec (named_of fields.now.entries) (mark loc))) }
{
    let ws = walk_named(at, caps, fields)?;
    record_reported(at.alloc, loc, ws)
}

// Operands, one after another.
#[cycle(walk)]
#[tactic(auto, using(policy_expressions::proofs::TreeSteps::depth_in))]
fn walk_all<'a>(
    at: &Setting<'a, '_, '_, '_>,
    caps: &CapabilitySet<'a>,
    xs: &'a Vec<Expr<()>>,
) -> Result<Vec<Reported<'a>>, BuildError>
    ensures { IfOk result (λ r. all_of r.items ≡
        walked_all at.now.schema.now (env_data_of at.now.env.now) caps.now
        (trees_of xs.now.items)) }
{
    let mut all = Vec::new(at.alloc);
    for x in xs {
        let v = walk(at, caps, x)?;
        all.push(v).map_err(AllocError::from)?;
    }
    Ok(all)
}

// Fields, by ascending keys.
#[cycle(walk)]
fn walk_named<'a>(
    at: &Setting<'a, '_, '_, '_>,
    caps: &CapabilitySet<'a>,
    fields: &'a BTreeMap<Text, Expr<()>>,
) -> Result<BTreeMap<Text, Reported<'a>>, BuildError>
    ensures { IfOk result (λ r. map field_of r.entries ≡
        walked_named at.now.schema.now (env_data_of at.now.env.now) caps.now
        (named_of fields.now.entries)) }
{
    let mut values = BTreeMap::new(at.alloc);
    for (name, item) in fields.iter() {
        let name = name.try_clone()?;
        let value = walk(at, caps, item)?;
        push_entry(&mut values, name, value)?;
    }
    Ok(values)
}
