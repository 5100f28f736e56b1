//! Access paths, and the edges of tries.

ghost use Rattle.std.specs.Prelude.{◌≡◌, IfOk};
ghost use Rattle.access_tries.specs.EdgeView.{edge_in};
ghost use Rattle.access_tries.specs.Paths.{edge_of};

use policy_expressions::Var;
use policy_values::{EntityUID, Text};
use std::alloc::{AllocError, Global};
use std::fmt;
use std::marker::Model;

/// Where a path begins.
#[derive(Debug, Drop, PartialEq, Eq, PartialOrd, Ord, Hash)]
pub enum EntityRoot {
    /// At this entity.
    Literal(EntityUID),
    /// At this entry of the request.
    Var(Var),
}

impl EntityRoot {
    /// An equal root.
    pub fn try_clone(&self) -> Result<EntityRoot, AllocError>
        ensures { IfOk result (λ r. r ≡ self.now) }
    {
        match self {
            EntityRoot::Literal(uid) => Ok(EntityRoot::Literal(uid.try_clone()?)),
            EntityRoot::Var(var) => Ok(EntityRoot::Var(*var)),
        }
    }
}

impl fmt::Display for EntityRoot {
    ghost use Rattle.std.specs.Prelude.{Some};
    ghost use Rattle.access_tries.specs.Show.{root_text};

    ghost output = { λ r. Some (root_text r) };

    fn fmt<W: fmt::Write>(&self, f: &mut fmt::Formatter<W>) -> fmt::Result {
        match self {
            EntityRoot::Literal(uid) => uid.fmt(f),
            EntityRoot::Var(var) => var.fmt(f),
        }
    }
}

/// A step of a path.
#[derive(Debug, Drop, PartialEq, Eq, PartialOrd, Ord, Hash)]
pub enum Step {
    /// To what an attribute of an entity, or a field of a record, holds.
    Field(Text),
    /// To what any tag of an entity holds.
    AnyTag,
}

impl Step {
    /// An equal step.
    pub fn try_clone(&self) -> Result<Step, AllocError>
        ensures { IfOk result (λ r. r ≡ self.now) }
    {
        match self {
            Step::Field(name) => Ok(Step::Field(name.try_clone()?)),
            Step::AnyTag => Ok(Step::AnyTag),
        }
    }
}

/// A path into a store: a root, and steps from there.
#[derive(Debug)]
pub struct AccessPath {
    root: EntityRoot,
    steps: Vec<Step>,
}

impl Drop for AccessPath {
    fn drop(self) {
        let AccessPath { root, steps } = self;
        drop(root);
        drop(steps);
    }
}

impl Model for AccessPath {
    ghost use Rattle.access_tries.specs.Paths.{AccessPath, coded_path};

    ghost Value = { AccessPath };

    ghost coded = { coded_path };

    ghost view = { λ p. record { root = p.root; steps = p.steps.items } };
}

impl AccessPath {
    /// The path from a root along these steps.
    pub fn new(root: EntityRoot, steps: Vec<Step>) -> AccessPath
        ensures { result ≡ record { root = root; steps = steps.items } }
    {
        AccessPath { root, steps }
    }

    /// An equal path.
    pub fn try_clone(&self, alloc: Global) -> Result<AccessPath, AllocError>
        ensures { IfOk result (λ r. r ≡ self.now) }
    {
        let root = self.root.try_clone()?;
        let steps = steps_of(alloc, &self.steps)?;
        Ok(AccessPath { root, steps })
    }

    /// Its root and its steps.
    pub fn into_parts(self) -> (EntityRoot, Vec<Step>)
        ensures root { result.0 ≡ self.root }
        ensures steps { result.1.items ≡ self.steps }
    {
        let AccessPath { root, steps } = self;
        (root, steps)
    }

    /// Where it begins.
    pub fn root(&self) -> &EntityRoot
        ensures { result.now ≡ self.now.root }
    {
        &self.root
    }

    /// Its steps.
    pub fn steps(&self) -> &[Step]
        ensures { result.now ≡ self.now.steps }
    {
        self.steps.as_slice()
    }
}

// The same steps.
fn steps_of(alloc: Global, steps: &[Step]) -> Result<Vec<Step>, AllocError>
    ensures { IfOk result (λ r. r.items ≡ steps.now) }
{
    let mut copies = Vec::new(alloc);
    for step in steps {
        copies.push(step.try_clone()?)?;
    }
    Ok(copies)
}

/// What leads from a node to another: a step, or a root of what is asked of its ancestors. Fields come first,
/// then any tag, then roots: ids before entries of the request.
#[derive(Debug, Drop)]
pub enum Edge {
    /// To what an attribute of an entity, or a field of a record, holds.
    Field(Text),
    /// To what any tag of an entity holds.
    AnyTag,
    /// To what is read from a root.
    Root(EntityRoot),
}

impl Edge {
    /// An equal edge.
    pub fn try_clone(&self) -> Result<Edge, AllocError>
        ensures { IfOk result (λ e. e ≡ self.now) }
    {
        match self {
            Edge::Field(name) => Ok(Edge::Field(name.try_clone()?)),
            Edge::AnyTag => Ok(Edge::AnyTag),
            Edge::Root(root) => Ok(Edge::Root(root.try_clone()?)),
        }
    }

    // The edge, with its parts borrowed.
    pub(crate) fn borrowed(&self) -> EdgeRef<'_>
        ensures { edge_in result ≡ self.now }
    {
        match self {
            Edge::Field(name) => EdgeRef::Field(name),
            Edge::AnyTag => EdgeRef::AnyTag,
            Edge::Root(root) => EdgeRef::Root(root),
        }
    }

    pub(crate) fn of_step(step: &Step) -> Result<Edge, AllocError>
        ensures { IfOk result (λ e. e ≡ edge_of step.now) }
    {
        match step {
            Step::Field(name) => Ok(Edge::Field(name.try_clone()?)),
            Step::AnyTag => Ok(Edge::AnyTag),
        }
    }
}

// An edge whose parts are borrowed.
#[derive(Clone, Copy)]
pub(crate) enum EdgeRef<'a> {
    Field(&'a Text),
    AnyTag,
    Root(&'a EntityRoot),
}
