//! What an analysis of paths reads.

use crate::lines::assert_same;
use access_tries::EntityRoot;
use path_analysis::EntityManifestAnalysisResult;
use policy_expressions::Var;
use policy_values::Text;
use std::alloc::{AllocError, Global};

fn of_variable(alloc: Global, var: Var) -> EntityManifestAnalysisResult {
    EntityManifestAnalysisResult::from_root(alloc, EntityRoot::Var(var))
}

// What `principal.a` and `resource` read, both with `.b`.
fn both(alloc: Global) -> Result<EntityManifestAnalysisResult, AllocError> {
    let principal = of_variable(alloc, Var::Principal);
    let one = principal.get_or_has_attr(alloc, &Text::from_str(alloc, "a")?)?;
    let both = one.union(alloc, of_variable(alloc, Var::Resource))?;
    both.get_or_has_attr(alloc, &Text::from_str(alloc, "b")?)
}

// How many paths are read, and how many where an expression that has no paths comes between.
fn counted(alloc: Global) -> Result<String, AllocError> {
    let read = both(alloc)?;
    let once = read.reads().len();
    let again = read.empty_paths();
    let again = again.get_or_has_attr(alloc, &Text::from_str(alloc, "c")?)?;
    format!(in alloc; "{once} {}", again.reads().len())
}

// The principal's `a`, and `b` of each of the two. What is read stays read.
#[test]
fn attributes_are_read_of_each_path(rt: HostRuntime) -> Result<(), AllocError> {
    let counts = counted(rt.alloc())?;
    assert_same(&rt, counts.as_str(), "3 3");
    Ok(())
}
