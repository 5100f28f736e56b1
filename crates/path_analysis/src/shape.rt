//! Where results come from.

ghost use Rattle.std.specs.Prelude.{◌≡◌, ◌++◌, ◌∷◌, [], IfOk, OnOk};
ghost use Rattle.reads_spec.specs.Paths.{no_shape, at_path, at_root, set_shape, record_shape, one_of, beyond, paths, field_paths, shape_at, extended, shape_along};
ghost use Rattle.reads_spec.specs.Reads.{with_step};
ghost use Rattle.path_analysis.specs.Covers.{is_path};
ghost use Rattle.path_analysis.specs.PathOrder.{with_paths};
ghost use Rattle.path_analysis.specs.ShapeView.{shape_in, one_of_all, field_shapes};

use crate::found::add_if_longer;
use access_tries::{AccessPath, EntityRoot, Step};
use policy_values::Text;
use std::alloc::{AllocError, Global};
use std::collections::{BTreeMap, BTreeSet};
use std::marker::Model;

/// Where the result of an expression comes from.
#[derive(Debug)]
#[cycle(shape)]
pub(crate) struct Shape {
    kind: ShapeKind,
}

impl Drop for Shape {
    #[cycle(shape_drops)]
    fn drop(self) {
        let Shape { kind } = self;
        drop(kind);
    }
}

#[derive(Debug, Drop)]
#[cycle(shape)]
enum ShapeKind {
    // From nothing that is read.
    Nothing,
    // From what the path leads to.
    Path(AccessPath),
    // A set of what comes from there.
    Set(Vec<Shape>),
    // A record whose fields come from there.
    Record(BTreeMap<Text, Shape>),
    // From one of the two.
    OneOf(Box<Shape>, Box<Shape>),
}

impl Model for Shape {
    ghost use Rattle.reads_spec.specs.Paths.{Shape};
    ghost use Rattle.path_analysis.specs.ShapeCode.{coded_shape};

    ghost Value = { Shape };

    ghost coded = { coded_shape };

    ghost use Rattle.path_analysis.specs.ShapeView.{shape_in, size_of};

    ghost view = { λ a. shape_in a.kind };

    ghost size = { size_of };

    ghost use Rattle.path_analysis.specs.ShapeFalls.{falls};

    ghost size_decreases = { λ a h. falls a };
}

impl Shape {
    pub(crate) fn nothing() -> Shape
        ensures { result ≡ no_shape }
    {
        Shape {
            kind: ShapeKind::Nothing,
        }
    }

    pub(crate) fn path(path: AccessPath) -> Shape
        ensures { result ≡ at_path path }
    {
        Shape {
            kind: ShapeKind::Path(path),
        }
    }

    /// That of an entry of the request, or of an id.
    pub(crate) fn root(alloc: Global, root: EntityRoot) -> Shape
        ensures { result ≡ at_path (at_root root) }
    {
        Shape::path(AccessPath::new(root, Vec::new(alloc)))
    }

    pub(crate) fn set(items: Vec<Shape>) -> Shape
        ensures { result ≡ set_shape (one_of_all items.items) }
    {
        Shape {
            kind: ShapeKind::Set(items),
        }
    }

    pub(crate) fn record(fields: BTreeMap<Text, Shape>) -> Shape
        ensures { result ≡ record_shape (field_shapes fields.entries) }
    {
        Shape {
            kind: ShapeKind::Record(fields),
        }
    }

    pub(crate) fn one_of(alloc: Global, a: Shape, b: Shape) -> Result<Shape, AllocError>
        ensures { IfOk result (λ r. r ≡ one_of a b) }
    {
        let a = Box::new(alloc, a)?;
        let b = Box::new(alloc, b)?;
        Ok(Shape {
            kind: ShapeKind::OneOf(a, b),
        })
    }

    /// Whether it is a path itself.
    pub(crate) fn is_path(&self) -> bool
        ensures { result ≡ is_path self.now }
    {
        matches!(&self.kind, ShapeKind::Path(_))
    }

    /// One step on: a path gets longer, a record gives what it has there, one of two gives one of both, and
    /// nothing else gives anything.
    pub(crate) fn extended(self, alloc: Global, step: &Step) -> Result<Shape, AllocError>
        ensures { IfOk result (λ r. r ≡ extended self step.now) }
    {
        let Shape { kind } = self;
        match kind {
            ShapeKind::Path(path) => {
                let path = longer(path, step.try_clone()?)?;
                Ok(Shape::path(path))
            }
            ShapeKind::Record(fields) => Ok(shape_along(fields, step)),
            ShapeKind::OneOf(a, b) => {
                let a = Box::into_inner(a).extended(alloc, step)?;
                let b = Box::into_inner(b).extended(alloc, step)?;
                Shape::one_of(alloc, a, b)
            }
            ShapeKind::Nothing | ShapeKind::Set(_) => Ok(Shape::nothing()),
        }
    }

    /// The paths that stand anywhere in it.
    pub(crate) fn paths(&self, alloc: Global) -> Result<Vec<AccessPath>, AllocError>
        ensures { IfOk result (λ r. r.items ≡ paths self.now) }
    {
        let mut found = Vec::new(alloc);
        add_paths(alloc, self, &mut found)?;
        Ok(found)
    }
}

#[cycle(add_paths)]
fn add_paths(alloc: Global, shape: &Shape, found: &mut Vec<AccessPath>) -> Result<(), AllocError>
    ensures { OnOk result (found.new.items ≡ found.old.items ++ paths shape.now) }
{
    match &shape.kind {
        ShapeKind::Nothing => Ok(()),
        ShapeKind::Path(path) => add_path(alloc, path, found),
        ShapeKind::Set(items) => add_paths_of_all(alloc, items, found),
        ShapeKind::Record(fields) => add_paths_of_fields(alloc, fields, found),
        ShapeKind::OneOf(a, b) => {
            add_paths(alloc, a, found)?;
            add_paths(alloc, b, found)
        }
    }
}

fn add_path(alloc: Global, path: &AccessPath, found: &mut Vec<AccessPath>) -> Result<(), AllocError>
    ensures { OnOk result (found.new.items ≡ found.old.items ++ path.now ∷ []) }
{
    found.push(path.try_clone(alloc)?)?;
    Ok(())
}

#[cycle(add_paths)]
#[tactic(auto, using(crate::proofs::Sizes::size_in))]
fn add_paths_of_all(
    alloc: Global,
    items: &Vec<Shape>,
    found: &mut Vec<AccessPath>,
) -> Result<(), AllocError>
    ensures { OnOk result (found.new.items ≡ found.old.items ++ paths (one_of_all items.now.items)) }
{
    for item in items {
        add_paths(alloc, item, found)?;
    }
    Ok(())
}

#[cycle(add_paths)]
fn add_paths_of_fields(
    alloc: Global,
    fields: &BTreeMap<Text, Shape>,
    found: &mut Vec<AccessPath>,
) -> Result<(), AllocError>
    ensures { OnOk result (found.new.items ≡ found.old.items ++
        field_paths (field_shapes fields.now.entries)) }
{
    for (_, value) in fields.iter() {
        add_paths(alloc, value, found)?;
    }
    Ok(())
}

/// Adds those of the paths in the shape that have a step.
#[cycle(add_longer)]
#[tactic(auto, using(crate::proofs::SetSteps::longer_more))]
pub(crate) fn add_longer(
    alloc: Global,
    shape: &Shape,
    reads: &mut BTreeSet<AccessPath>,
) -> Result<(), AllocError>
    ensures { OnOk result (reads.new.keys ≡ with_paths reads.old.keys (with_step (paths shape.now))) }
{
    match &shape.kind {
        ShapeKind::Nothing => Ok(()),
        ShapeKind::Path(path) => add_if_longer(alloc, path, reads),
        ShapeKind::Set(items) => add_longer_of_all(alloc, items, reads),
        ShapeKind::Record(fields) => add_longer_of_fields(alloc, fields, reads),
        ShapeKind::OneOf(a, b) => {
            add_longer(alloc, a, reads)?;
            add_longer(alloc, b, reads)
        }
    }
}

#[cycle(add_longer)]
#[tactic(auto, using(crate::proofs::Sizes::size_in, crate::proofs::SetSteps::longer_more))]
fn add_longer_of_all(
    alloc: Global,
    items: &Vec<Shape>,
    reads: &mut BTreeSet<AccessPath>,
) -> Result<(), AllocError>
    ensures { OnOk result (reads.new.keys ≡
        with_paths reads.old.keys (with_step (paths (one_of_all items.now.items)))) }
{
    for item in items {
        add_longer(alloc, item, reads)?;
    }
    Ok(())
}

#[cycle(add_longer)]
#[tactic(auto, using(crate::proofs::SetSteps::longer_more))]
fn add_longer_of_fields(
    alloc: Global,
    fields: &BTreeMap<Text, Shape>,
    reads: &mut BTreeSet<AccessPath>,
) -> Result<(), AllocError>
    ensures { OnOk result (reads.new.keys ≡
        with_paths reads.old.keys (with_step (field_paths (field_shapes fields.now.entries)))) }
{
    for (_, value) in fields.iter() {
        add_longer(alloc, value, reads)?;
    }
    Ok(())
}

// The path that goes on with the step.
pub(crate) fn longer(path: AccessPath, step: Step) -> Result<AccessPath, AllocError>
    ensures { IfOk result (λ r. r ≡ beyond path (step ∷ [])) }
{
    let (root, mut steps) = path.into_parts();
    steps.push(step)?;
    Ok(AccessPath::new(root, steps))
}

// What a record has one step on.
fn shape_along(fields: BTreeMap<Text, Shape>, step: &Step) -> Shape
    ensures { result ≡ shape_along (field_shapes fields.entries) step.now }
{
    match step {
        Step::Field(name) => shape_at(fields, name),
        Step::AnyTag => Shape::nothing(),
    }
}

#[tactic(auto, using(crate::proofs::Fields::shape_found, crate::proofs::Fields::shape_missing))]
fn shape_at(mut fields: BTreeMap<Text, Shape>, name: &Text) -> Shape
    ensures { result ≡ shape_at (field_shapes fields.entries) name.now }
{
    match fields.remove(name) {
        Some(shape) => shape,
        None => Shape::nothing(),
    }
}
