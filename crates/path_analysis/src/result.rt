//! What an expression reads, and where its result comes from.

ghost use Rattle.std.specs.Prelude.{◌≡◌, ◌++◌, ◌∷◌, [], IfOk, OnOk};
ghost use Rattle.access_tries.specs.declared.edge.Step.TheVariants.{Field};
ghost use Rattle.reads_spec.specs.Paths.{at_root, at_path};
ghost use Rattle.reads_spec.specs.Reads.{with_step};
ghost use Rattle.path_analysis.specs.Analysis.{from_shape, without_shape, united, one_step_on};

use crate::shape::Shape;
use access_tries::{AccessPath, EntityRoot, Step};
use policy_values::Text;
use std::alloc::{AllocError, Global};
use std::marker::Model;

/// What an expression reads of a store, of which entities it asks for which ancestors, and where its result
/// comes from.
#[derive(Debug, Drop)]
pub struct EntityManifestAnalysisResult {
    reads: Vec<AccessPath>,
    demands: Vec<(AccessPath, AccessPath)>,
    shape: Shape,
}

impl Model for EntityManifestAnalysisResult {
    ghost use Rattle.path_analysis.specs.Analysis.{Analysis, coded_analysis};

    ghost Value = { Analysis };

    ghost coded = { coded_analysis };

    ghost view = { λ a. record { reads = a.reads.items; demands = a.demands.items; shape = a.shape } };
}

impl EntityManifestAnalysisResult {
    /// Of a result that is an entry of the request or an id.
    pub fn from_root(alloc: Global, root: EntityRoot) -> EntityManifestAnalysisResult
        ensures { result ≡ from_shape (at_path (at_root root)) }
    {
        EntityManifestAnalysisResult {
            reads: Vec::new(alloc),
            demands: Vec::new(alloc),
            shape: Shape::root(alloc, root),
        }
    }

    /// The paths that are read. Each is read with all paths that it goes on from.
    pub fn reads(&self) -> &[AccessPath]
        ensures { result.now ≡ self.now.reads }
    {
        self.reads.as_slice()
    }

    /// Which ancestors are asked for: each entity at a first path is asked for those that its second
    /// path names.
    pub fn demands(&self) -> &[(AccessPath, AccessPath)]
        ensures { result.now ≡ self.now.demands }
    {
        self.demands.as_slice()
    }

    /// The same reads and demands, for a result that comes from nothing that is read.
    pub fn empty_paths(self) -> EntityManifestAnalysisResult
        ensures { result ≡ without_shape self }
    {
        EntityManifestAnalysisResult {
            reads: self.reads,
            demands: self.demands,
            shape: Shape::nothing(),
        }
    }

    /// What both read and demand, for a result that is one of the two.
    pub fn union(
        self,
        alloc: Global,
        other: EntityManifestAnalysisResult,
    ) -> Result<EntityManifestAnalysisResult, AllocError>
        ensures { IfOk result (λ r. r ≡ united self other) }
    {
        let EntityManifestAnalysisResult {
            mut reads,
            mut demands,
            shape: left,
        } = self;
        let EntityManifestAnalysisResult {
            reads: mut more_reads,
            demands: mut more_demands,
            shape: right,
        } = other;
        reads.append(&mut more_reads)?;
        demands.append(&mut more_demands)?;
        let shape = Shape::one_of(alloc, left, right)?;
        Ok(EntityManifestAnalysisResult {
            reads,
            demands,
            shape,
        })
    }

    /// Of an attribute of the result: its paths are read.
    pub fn get_or_has_attr(
        self,
        alloc: Global,
        attr: &Text,
    ) -> Result<EntityManifestAnalysisResult, AllocError>
        ensures { IfOk result (λ r. r ≡ one_step_on self (Field attr.now)) }
    {
        let EntityManifestAnalysisResult {
            mut reads,
            demands,
            shape,
        } = self;
        let shape = shape.extended(alloc, &Step::Field(attr.try_clone()?))?;
        add_longer_ones(shape.paths(alloc)?, &mut reads)?;
        Ok(EntityManifestAnalysisResult {
            reads,
            demands,
            shape,
        })
    }
}

// Adds those of the paths that have a step.
fn add_longer_ones(found: Vec<AccessPath>, reads: &mut Vec<AccessPath>) -> Result<(), AllocError>
    ensures { OnOk result (reads.new.items ≡ reads.old.items ++ with_step found.items) }
{
    for path in found {
        add_if_longer(path, reads)?;
    }
    Ok(())
}

fn add_if_longer(path: AccessPath, reads: &mut Vec<AccessPath>) -> Result<(), AllocError>
    ensures { OnOk result (reads.new.items ≡ reads.old.items ++ with_step (path ∷ [])) }
{
    if !path.steps().is_empty() {
        reads.push(path)?;
    }
    Ok(())
}
