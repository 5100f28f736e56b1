//! The walk through a typed expression.

ghost use Rattle.std.specs.Prelude.{◌≡◌, [], map, IfOk, OnOk};
ghost use Rattle.schema_core.specs.RequestEnvs.{env_data_of};
ghost use Rattle.policy_expressions.specs.Tree.{attr, binary, conj, ite, named_of, rec, set, trees_of, unary};
ghost use Rattle.reads_spec.specs.Paths.{no_shape};
ghost use Rattle.reads_spec.specs.Reads as read;
ghost use Rattle.reads_spec.specs.Reads.{reads_all, demands_all, reads_named, demands_named, shape_of, literal_shape};
ghost use Rattle.path_analysis.specs.Covers.{Adds, AddsButOwn};
ghost use Rattle.path_analysis.specs.PathOrder.{with_demands};
ghost use Rattle.path_analysis.specs.Parts.{shaped, unmarked};

use crate::operators::{add_binary, add_one_step_on, add_unary};
use crate::setting::Setting;
use crate::shape::{Shape, add_longer};
use access_tries::{AccessPath, EntityRoot, Step};
use policy_expressions::{BinaryOp, Expr, ExprKind, Literal, UnaryOp};
use policy_values::{Text, push_entry};
use schema_types::Type;
use std::alloc::{AllocError, Global};
use std::collections::{BTreeMap, BTreeSet};

// Adds what an expression reads and demands, and says where its result comes from. Parts that are not reached
// stand as literals in a typed expression, and read nothing.
#[cycle(analyze)]
#[tactic(auto, using(crate::proofs::Covers::adds_none))]
pub(crate) fn analyze(
    at: &Setting<'_>,
    e: &Expr<Option<Type>>,
    reads: &mut BTreeSet<AccessPath>,
    demands: &mut BTreeSet<(AccessPath, AccessPath)>,
) -> Result<Shape, AllocError>
    ensures reads { OnOk result (Adds reads.old.keys
        (read.reads at.now.schema.now (env_data_of at.now.env.now) e.now)
        reads.new.keys []) }
    ensures demands { OnOk result (demands.new.keys ≡
        with_demands demands.old.keys (read.demands e.now)) }
    ensures shape { IfOk result (λ a. a ≡ shape_of e.now) }
{
    match e.kind() {
        ExprKind::Lit(literal) => shape_of_literal(at.alloc, literal),
        ExprKind::Var(var) => Ok(Shape::root(at.alloc, EntityRoot::Var(*var))),
        ExprKind::Slot(_) => Ok(Shape::nothing()),
        ExprKind::If(x, y, z) => analyze_if(at, x, y, z, reads, demands),
        ExprKind::And(x, y) | ExprKind::Or(x, y) => analyze_sides(at, x, y, reads, demands),
        ExprKind::UnaryApp(op, x) => analyze_unary(at, *op, x, reads, demands),
        ExprKind::BinaryApp(op, x, y) => analyze_binary(at, *op, x, y, reads, demands),
        ExprKind::GetAttr(x, name) => analyze_attr(at, x, name, reads, demands),
        ExprKind::HasAttr(x, name) => Ok(emptied(analyze_attr(at, x, name, reads, demands)?)),
        ExprKind::Like(x, _) | ExprKind::Is(x, _) => Ok(emptied(analyze(at, x, reads, demands)?)),
        ExprKind::ExtensionFunctionApp(_, xs) => analyze_call(at, xs, reads, demands),
        ExprKind::Set(xs) => analyze_set(at, xs, reads, demands),
        ExprKind::Record(fields) => analyze_record(at, fields, reads, demands),
    }
}

fn shape_of_literal(alloc: Global, literal: &Literal) -> Result<Shape, AllocError>
    ensures { IfOk result (λ a. a ≡ literal_shape literal.now) }
{
    match literal {
        Literal::EntityUID(uid) => Ok(Shape::root(alloc, EntityRoot::Literal(uid.try_clone()?))),
        Literal::Bool(_) | Literal::Long(_) | Literal::String(_) => Ok(Shape::nothing()),
    }
}

// That of a result that comes from nothing, in place of another.
fn emptied(shape: Shape) -> Shape
    ensures { result ≡ no_shape }
{
    drop(shape);
    Shape::nothing()
}

#[cycle(analyze)]
#[tactic(auto, using(crate::proofs::Covers::adds_more, crate::proofs::SetSteps::demands_more))]
fn analyze_if(
    at: &Setting<'_>,
    x: &Expr<Option<Type>>,
    y: &Expr<Option<Type>>,
    z: &Expr<Option<Type>>,
    reads: &mut BTreeSet<AccessPath>,
    demands: &mut BTreeSet<(AccessPath, AccessPath)>,
) -> Result<Shape, AllocError>
    ensures reads { OnOk result (Adds reads.old.keys
        (read.reads at.now.schema.now (env_data_of at.now.env.now)
        (ite x.now y.now z.now unmarked))
        reads.new.keys []) }
    ensures demands { OnOk result (demands.new.keys ≡
        with_demands demands.old.keys (read.demands (ite x.now y.now z.now unmarked))) }
    ensures shape { IfOk result (λ a. a ≡ shape_of (ite x.now y.now z.now unmarked)) }
{
    let test = analyze(at, x, reads, demands)?;
    drop(test);
    let then = analyze(at, y, reads, demands)?;
    let otherwise = analyze(at, z, reads, demands)?;
    Shape::one_of(at.alloc, then, otherwise)
}

#[cycle(analyze)]
#[tactic(auto, using(crate::proofs::Covers::adds_more, crate::proofs::SetSteps::demands_more))]
fn analyze_sides(
    at: &Setting<'_>,
    x: &Expr<Option<Type>>,
    y: &Expr<Option<Type>>,
    reads: &mut BTreeSet<AccessPath>,
    demands: &mut BTreeSet<(AccessPath, AccessPath)>,
) -> Result<Shape, AllocError>
    ensures reads { OnOk result (Adds reads.old.keys
        (read.reads at.now.schema.now (env_data_of at.now.env.now) (conj x.now y.now unmarked))
        reads.new.keys []) }
    ensures demands { OnOk result (demands.new.keys ≡
        with_demands demands.old.keys (read.demands (conj x.now y.now unmarked))) }
    ensures shape { IfOk result (λ a. a ≡ shape_of (conj x.now y.now unmarked)) }
{
    let left = analyze(at, x, reads, demands)?;
    drop(left);
    let right = analyze(at, y, reads, demands)?;
    Ok(emptied(right))
}

#[cycle(analyze)]
#[tactic(auto, using(crate::proofs::Covers::adds_set_more))]
fn analyze_unary(
    at: &Setting<'_>,
    op: UnaryOp,
    x: &Expr<Option<Type>>,
    reads: &mut BTreeSet<AccessPath>,
    demands: &mut BTreeSet<(AccessPath, AccessPath)>,
) -> Result<Shape, AllocError>
    ensures reads { OnOk result (Adds reads.old.keys
        (read.reads at.now.schema.now (env_data_of at.now.env.now) (unary op x.now unmarked))
        reads.new.keys []) }
    ensures demands { OnOk result (demands.new.keys ≡
        with_demands demands.old.keys (read.demands (unary op x.now unmarked))) }
    ensures shape { IfOk result (λ a. a ≡ shape_of (unary op x.now unmarked)) }
{
    let operand = analyze(at, x, reads, demands)?;
    add_unary(at, op, &operand, reads)?;
    Ok(emptied(operand))
}

#[cycle(analyze)]
#[tactic(auto, using(crate::proofs::Covers::adds_more, crate::proofs::Covers::adds_set_more, crate::proofs::SetSteps::demands_more))]
fn analyze_binary(
    at: &Setting<'_>,
    op: BinaryOp,
    x: &Expr<Option<Type>>,
    y: &Expr<Option<Type>>,
    reads: &mut BTreeSet<AccessPath>,
    demands: &mut BTreeSet<(AccessPath, AccessPath)>,
) -> Result<Shape, AllocError>
    ensures reads { OnOk result (Adds reads.old.keys
        (read.reads at.now.schema.now (env_data_of at.now.env.now)
        (binary op x.now y.now unmarked))
        reads.new.keys []) }
    ensures demands { OnOk result (demands.new.keys ≡
        with_demands demands.old.keys (read.demands (binary op x.now y.now unmarked))) }
    ensures shape { IfOk result (λ a. a ≡ shape_of (binary op x.now y.now unmarked)) }
{
    let left = analyze(at, x, reads, demands)?;
    let right = analyze(at, y, reads, demands)?;
    let result = add_binary(at, op, left, &right, reads, demands)?;
    drop(right);
    Ok(result)
}

#[cycle(analyze)]
#[tactic(auto, using(crate::proofs::Covers::adds_own))]
fn analyze_attr(
    at: &Setting<'_>,
    x: &Expr<Option<Type>>,
    name: &Text,
    reads: &mut BTreeSet<AccessPath>,
    demands: &mut BTreeSet<(AccessPath, AccessPath)>,
) -> Result<Shape, AllocError>
    ensures reads { OnOk result (Adds reads.old.keys
        (read.reads at.now.schema.now (env_data_of at.now.env.now)
        (attr x.now name.now unmarked))
        reads.new.keys []) }
    ensures demands { OnOk result (demands.new.keys ≡
        with_demands demands.old.keys (read.demands (attr x.now name.now unmarked))) }
    ensures shape { IfOk result (λ a. a ≡ shape_of (attr x.now name.now unmarked)) }
{
    let shape = reach_attr(at, x, name, reads, demands)?;
    add_longer(at.alloc, &shape, reads)?;
    Ok(shape)
}

// Adds what an expression reads and demands, but for the path that its result is itself.
#[cycle(analyze)]
#[tactic(auto, using(crate::proofs::Covers::own_stands))]
fn reach(
    at: &Setting<'_>,
    e: &Expr<Option<Type>>,
    reads: &mut BTreeSet<AccessPath>,
    demands: &mut BTreeSet<(AccessPath, AccessPath)>,
) -> Result<Shape, AllocError>
    ensures reads { OnOk result (AddsButOwn at.now.schema.now (env_data_of at.now.env.now) e.now
        reads.old.keys reads.new.keys) }
    ensures demands { OnOk result (demands.new.keys ≡
        with_demands demands.old.keys (read.demands e.now)) }
    ensures shape { IfOk result (λ a. a ≡ shape_of e.now) }
{
    match e.kind() {
        ExprKind::GetAttr(x, name) => reach_attr(at, x, name, reads, demands),
        _ => analyze(at, e, reads, demands),
    }
}

// A path is not added where it goes on: whoever reads the longer one reads it too.
#[cycle(analyze)]
#[tactic(auto, using(crate::proofs::Covers::path_goes_on, crate::proofs::Covers::paths_go_on))]
fn reach_attr(
    at: &Setting<'_>,
    x: &Expr<Option<Type>>,
    name: &Text,
    reads: &mut BTreeSet<AccessPath>,
    demands: &mut BTreeSet<(AccessPath, AccessPath)>,
) -> Result<Shape, AllocError>
    ensures reads { OnOk result (AddsButOwn at.now.schema.now (env_data_of at.now.env.now)
        (attr x.now name.now unmarked) reads.old.keys reads.new.keys) }
    ensures demands { OnOk result (demands.new.keys ≡
        with_demands demands.old.keys (read.demands (attr x.now name.now unmarked))) }
    ensures shape { IfOk result (λ a. a ≡ shape_of (attr x.now name.now unmarked)) }
{
    let shape = reach(at, x, reads, demands)?;
    let step = Step::Field(name.try_clone()?);
    if shape.is_path() {
        shape.extended(at.alloc, &step)
    } else {
        add_one_step_on(at.alloc, shape, &step, reads)
    }
}

#[cycle(analyze)]
fn analyze_call(
    at: &Setting<'_>,
    xs: &Vec<Expr<Option<Type>>>,
    reads: &mut BTreeSet<AccessPath>,
    demands: &mut BTreeSet<(AccessPath, AccessPath)>,
) -> Result<Shape, AllocError>
    ensures reads { OnOk result (Adds reads.old.keys
        (reads_all at.now.schema.now (env_data_of at.now.env.now) (trees_of xs.now.items))
        reads.new.keys []) }
    ensures demands { OnOk result (demands.new.keys ≡
        with_demands demands.old.keys (demands_all (trees_of xs.now.items))) }
    ensures shape { IfOk result (λ a. a ≡ no_shape) }
{
    let shapes = analyze_all(at, xs, reads, demands)?;
    drop(shapes);
    Ok(Shape::nothing())
}

#[cycle(analyze)]
#[tactic(auto, using(crate::proofs::PartSteps::shapes_of_all))]
fn analyze_set(
    at: &Setting<'_>,
    xs: &Vec<Expr<Option<Type>>>,
    reads: &mut BTreeSet<AccessPath>,
    demands: &mut BTreeSet<(AccessPath, AccessPath)>,
) -> Result<Shape, AllocError>
    ensures reads { OnOk result (Adds reads.old.keys
        (read.reads at.now.schema.now (env_data_of at.now.env.now)
        (set (trees_of xs.now.items) unmarked))
        reads.new.keys []) }
    ensures demands { OnOk result (demands.new.keys ≡
        with_demands demands.old.keys (read.demands (set (trees_of xs.now.items) unmarked))) }
    ensures shape { IfOk result (λ a. a ≡ shape_of (set (trees_of xs.now.items) unmarked)) }
{
    let shapes = analyze_all(at, xs, reads, demands)?;
    Ok(Shape::set(shapes))
}

#[cycle(analyze)]
#[tactic(auto, using(crate::proofs::PartSteps::shapes_of_fields))]
fn analyze_record(
    at: &Setting<'_>,
    fields: &BTreeMap<Text, Expr<Option<Type>>>,
    reads: &mut BTreeSet<AccessPath>,
    demands: &mut BTreeSet<(AccessPath, AccessPath)>,
) -> Result<Shape, AllocError>
    ensures reads { OnOk result (Adds reads.old.keys
        (read.reads at.now.schema.now (env_data_of at.now.env.now)
        (rec (named_of fields.now.entries) unmarked))
        reads.new.keys []) }
    ensures demands { OnOk result (demands.new.keys ≡
        with_demands demands.old.keys (read.demands (rec (named_of fields.now.entries) unmarked))) }
    ensures shape { IfOk result (λ a. a ≡ shape_of (rec (named_of fields.now.entries) unmarked)) }
{
    let shapes = analyze_named(at, fields, reads, demands)?;
    Ok(Shape::record(shapes))
}

// Operands, one after another.
#[cycle(analyze)]
#[tactic(auto, using(policy_expressions::proofs::TreeSteps::depth_in, crate::proofs::Covers::adds_start, crate::proofs::Covers::adds_next, crate::proofs::SetSteps::demands_more))]
fn analyze_all(
    at: &Setting<'_>,
    xs: &Vec<Expr<Option<Type>>>,
    reads: &mut BTreeSet<AccessPath>,
    demands: &mut BTreeSet<(AccessPath, AccessPath)>,
) -> Result<Vec<Shape>, AllocError>
    ensures reads { OnOk result (Adds reads.old.keys
        (reads_all at.now.schema.now (env_data_of at.now.env.now) (trees_of xs.now.items))
        reads.new.keys []) }
    ensures demands { OnOk result (demands.new.keys ≡
        with_demands demands.old.keys (demands_all (trees_of xs.now.items))) }
    ensures shapes { IfOk result (λ r. r.items ≡ map shape_of xs.now.items) }
{
    let mut shapes = Vec::new(at.alloc);
    for x in xs {
        let shape = analyze(at, x, reads, demands)?;
        shapes.push(shape)?;
    }
    Ok(shapes)
}

// Fields, by ascending keys.
#[cycle(analyze)]
#[tactic(auto, using(crate::proofs::Covers::adds_start, crate::proofs::Covers::adds_next, crate::proofs::SetSteps::demands_more))]
fn analyze_named(
    at: &Setting<'_>,
    fields: &BTreeMap<Text, Expr<Option<Type>>>,
    reads: &mut BTreeSet<AccessPath>,
    demands: &mut BTreeSet<(AccessPath, AccessPath)>,
) -> Result<BTreeMap<Text, Shape>, AllocError>
    ensures reads { OnOk result (Adds reads.old.keys
        (reads_named at.now.schema.now (env_data_of at.now.env.now)
        (named_of fields.now.entries))
        reads.new.keys []) }
    ensures demands { OnOk result (demands.new.keys ≡
        with_demands demands.old.keys (demands_named (named_of fields.now.entries))) }
    ensures shapes { IfOk result (λ r. r.entries ≡ map shaped fields.now.entries) }
{
    let mut shapes = BTreeMap::new(at.alloc);
    for (name, item) in fields.iter() {
        let shape = analyze(at, item, reads, demands)?;
        push_entry(&mut shapes, name.try_clone()?, shape)?;
    }
    Ok(shapes)
}
