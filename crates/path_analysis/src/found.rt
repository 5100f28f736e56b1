//! Sets of what is found.

ghost use Rattle.std.specs.Prelude.{◌≡◌, [], ◌∷◌, OnOk};
ghost use Rattle.std.specs.BTreeSet.{insert_key};
ghost use Rattle.reads_spec.specs.Reads.{with_step};
ghost use Rattle.access_tries.specs.Paths.{path_cmp};
ghost use Rattle.path_analysis.specs.PathOrder.{demand_cmp, with_paths};

use access_tries::AccessPath;
use std::alloc::{AllocError, Global};
use std::collections::BTreeSet;

/// Adds the path, if it has a step. It is copied only if it is new.
pub(crate) fn add_if_longer(
    alloc: Global,
    path: &AccessPath,
    reads: &mut BTreeSet<AccessPath>,
) -> Result<(), AllocError>
    ensures { OnOk result (reads.new.keys ≡ with_paths reads.old.keys (with_step (path.now ∷ []))) }
{
    if path.steps().is_empty() {
        Ok(())
    } else {
        add_copy(alloc, path, reads)
    }
}

#[tactic(auto, using(crate::proofs::Stays::path_stays))]
fn add_copy(
    alloc: Global,
    path: &AccessPath,
    reads: &mut BTreeSet<AccessPath>,
) -> Result<(), AllocError>
    ensures { OnOk result (reads.new.keys ≡ insert_key path_cmp reads.old.keys path.now) }
{
    if reads.len() == 0 || !reads.contains(path) {
        reads.insert(path.try_clone(alloc)?)?;
    }
    Ok(())
}

/// Adds all the paths.
pub(crate) fn add_all(
    paths: Vec<AccessPath>,
    reads: &mut BTreeSet<AccessPath>,
) -> Result<(), AllocError>
    ensures { OnOk result (reads.new.keys ≡ with_paths reads.old.keys paths.items) }
{
    for path in paths {
        reads.insert(path)?;
    }
    Ok(())
}

/// Adds the demand.
pub(crate) fn add_demand(
    from: AccessPath,
    to: AccessPath,
    demands: &mut BTreeSet<(AccessPath, AccessPath)>,
) -> Result<(), AllocError>
    ensures { OnOk result (demands.new.keys ≡ insert_key demand_cmp demands.old.keys (from, to)) }
{
    demands.insert((from, to))?;
    Ok(())
}
