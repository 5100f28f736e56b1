//! What operators read of their operands.

ghost use Rattle.std.specs.Prelude.{◌≡◌, ◌++◌, map, IfOk, OnOk};
ghost use Rattle.schema_core.specs.RequestEnvs.{env_data_of};
ghost use Rattle.policy_expressions.specs.declared.kinds.BinaryOp.TheVariants.{In};
ghost use Rattle.reads_spec.specs.Paths.{extended, paths};
ghost use Rattle.reads_spec.specs.Reads.{wholly, with_step, unary_reads, binary_reads, binary_demands, binary_shape, pairs};
ghost use Rattle.path_analysis.specs.PathOrder.{with_paths, with_demands};

use crate::below::add_all_below;
use crate::found::{add_all, add_demand};
use crate::setting::Setting;
use crate::shape::{Shape, add_longer};
use access_tries::{AccessPath, Step};
use policy_expressions::{BinaryOp, UnaryOp};
use std::alloc::{AllocError, Global};
use std::collections::BTreeSet;

/// Adds what an operator of one operand reads of it.
pub(crate) fn add_unary(
    at: &Setting<'_>,
    op: UnaryOp,
    operand: &Shape,
    reads: &mut BTreeSet<AccessPath>,
) -> Result<(), AllocError>
    ensures { OnOk result (reads.new.keys ≡
        with_paths reads.old.keys
        (unary_reads at.now.schema.now (env_data_of at.now.env.now) op operand.now)) }
{
    match op {
        UnaryOp::IsEmpty => add_wholly(at, operand, reads),
        UnaryOp::Not | UnaryOp::Neg => Ok(()),
    }
}

/// Adds what an operator of two operands reads and demands of them, and says where its result comes from.
pub(crate) fn add_binary(
    at: &Setting<'_>,
    op: BinaryOp,
    left: Shape,
    right: &Shape,
    reads: &mut BTreeSet<AccessPath>,
    demands: &mut BTreeSet<(AccessPath, AccessPath)>,
) -> Result<Shape, AllocError>
    ensures reads { OnOk result (reads.new.keys ≡
        with_paths reads.old.keys
        (binary_reads at.now.schema.now (env_data_of at.now.env.now) op left right.now)) }
    ensures demands { OnOk result (demands.new.keys ≡
        with_demands demands.old.keys (binary_demands op left right.now)) }
    ensures shape { IfOk result (λ a. a ≡ binary_shape op left) }
{
    match op {
        BinaryOp::Eq | BinaryOp::Contains | BinaryOp::ContainsAll | BinaryOp::ContainsAny => {
            add_compared(at, &left, right, reads)?;
            drop(left);
            Ok(Shape::nothing())
        }
        BinaryOp::In => {
            add_within(at, &left, right, reads, demands)?;
            drop(left);
            Ok(Shape::nothing())
        }
        BinaryOp::GetTag => add_one_step_on(at.alloc, left, &Step::AnyTag, reads),
        BinaryOp::HasTag => {
            let tags = add_one_step_on(at.alloc, left, &Step::AnyTag, reads)?;
            drop(tags);
            Ok(Shape::nothing())
        }
        BinaryOp::Less | BinaryOp::LessEq | BinaryOp::Add | BinaryOp::Sub | BinaryOp::Mul => {
            drop(left);
            Ok(Shape::nothing())
        }
    }
}

/// Adds the paths one step on, and says where they lead.
pub(crate) fn add_one_step_on(
    alloc: Global,
    shape: Shape,
    step: &Step,
    reads: &mut BTreeSet<AccessPath>,
) -> Result<Shape, AllocError>
    ensures reads { OnOk result (reads.new.keys ≡
        with_paths reads.old.keys (with_step (paths (extended shape step.now)))) }
    ensures shape { IfOk result (λ a. a ≡ extended shape step.now) }
{
    let further = shape.extended(alloc, step)?;
    add_longer(alloc, &further, reads)?;
    Ok(further)
}

// Both operands are read wholly.
#[tactic(auto, using(crate::proofs::SetSteps::paths_more))]
fn add_compared(
    at: &Setting<'_>,
    left: &Shape,
    right: &Shape,
    reads: &mut BTreeSet<AccessPath>,
) -> Result<(), AllocError>
    ensures { OnOk result (reads.new.keys ≡
        with_paths reads.old.keys (wholly at.now.schema.now (env_data_of at.now.env.now) left.now ++
        wholly at.now.schema.now (env_data_of at.now.env.now) right.now)) }
{
    add_wholly(at, left, reads)?;
    add_wholly(at, right, reads)
}

// Besides, each path of the left side is asked for the ancestors that the paths of the right side name.
#[tactic(auto, using(crate::proofs::SetSteps::paths_more))]
fn add_within(
    at: &Setting<'_>,
    left: &Shape,
    right: &Shape,
    reads: &mut BTreeSet<AccessPath>,
    demands: &mut BTreeSet<(AccessPath, AccessPath)>,
) -> Result<(), AllocError>
    ensures reads { OnOk result (reads.new.keys ≡
        with_paths reads.old.keys
        (binary_reads at.now.schema.now (env_data_of at.now.env.now) In left.now right.now)) }
    ensures demands { OnOk result (demands.new.keys ≡
        with_demands demands.old.keys (pairs (paths left.now) (paths right.now))) }
{
    add_compared(at, left, right, reads)?;
    let from = left.paths(at.alloc)?;
    let to = right.paths(at.alloc)?;
    add_pairs(at.alloc, &from, &to, demands)?;
    add_all(from, reads)
}

// Adds all that the values hold, through records.
#[tactic(auto, using(crate::proofs::SetSteps::paths_more))]
fn add_wholly(
    at: &Setting<'_>,
    shape: &Shape,
    reads: &mut BTreeSet<AccessPath>,
) -> Result<(), AllocError>
    ensures { OnOk result (reads.new.keys ≡
        with_paths reads.old.keys
        (wholly at.now.schema.now (env_data_of at.now.env.now) shape.now)) }
{
    add_longer(at.alloc, shape, reads)?;
    let paths = shape.paths(at.alloc)?;
    let mut below = Vec::new(at.alloc);
    add_all_below(at, &paths, &mut below)?;
    add_all(below, reads)
}

// Adds each path of the first list with each of the second.
fn add_pairs(
    alloc: Global,
    from: &[AccessPath],
    to: &[AccessPath],
    demands: &mut BTreeSet<(AccessPath, AccessPath)>,
) -> Result<(), AllocError>
    ensures { OnOk result (demands.new.keys ≡ with_demands demands.old.keys (pairs from.now to.now)) }
{
    for path in from {
        add_pairs_of(alloc, path, to, demands)?;
    }
    Ok(())
}

fn add_pairs_of(
    alloc: Global,
    from: &AccessPath,
    to: &[AccessPath],
    demands: &mut BTreeSet<(AccessPath, AccessPath)>,
) -> Result<(), AllocError>
    ensures { OnOk result (demands.new.keys ≡
        with_demands demands.old.keys (map (λ r. (from.now, r)) to.now)) }
{
    for path in to {
        add_demand(from.try_clone(alloc)?, path.try_clone(alloc)?, demands)?;
    }
    Ok(())
}
