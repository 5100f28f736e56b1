//! What conditions read and demand, as a trie.

ghost use Rattle.std.specs.Prelude.{◌≡◌, ◌++◌, ◌∷◌, [], map, filter, IfOk, OnOk};
ghost use Rattle.schema_core.specs.RequestEnvs.{env_data_of};
ghost use Rattle.access_tries.specs.Paths.{IsLeast};
ghost use Rattle.reads_spec.specs.PathTypes.{declared_part, is_declared_path};
ghost use Rattle.reads_spec.specs.Reads as read;
ghost use Rattle.reads_spec.specs.Reads.{are_declared, declared_reads, declared_demands};
ghost use Rattle.path_analysis.specs.Covers.{Adds};
ghost use Rattle.path_analysis.specs.PathOrder.{with_demands};

use crate::path_type::{declared_part, is_declared_path};
use crate::setting::Setting;
use crate::walk::analyze;
use access_tries::{AccessPath, RootAccessTrie, least_trie};
use policy_expressions::Expr;
use schema_core::{RequestEnv, ValidatorSchema};
use schema_types::Type;
use std::alloc::{AllocError, Global};
use std::collections::BTreeSet;

/// The trie with exactly what conditions read on requests of an environment, and with the ancestors that they
/// ask for, each condition with its types there: no step that the schema does not declare is in it, and
/// nothing behind one.
pub fn conditions_trie<'a>(
    alloc: Global,
    schema: &'a ValidatorSchema,
    env: &'a RequestEnv<'a>,
    conditions: &[Expr<Option<Type>>],
) -> Result<RootAccessTrie, AllocError>
    ensures { IfOk result
        (IsLeast (declared_reads schema.now (env_data_of env.now) conditions.now)
        (declared_demands schema.now (env_data_of env.now) conditions.now)) }
{
    let at = Setting { alloc, schema, env };
    let mut reads = BTreeSet::new(alloc);
    let mut demands = BTreeSet::new(alloc);
    for condition in conditions {
        add_condition(&at, condition, &mut reads, &mut demands)?;
    }
    declared_trie(&at, reads, demands)
}

// Adds what the condition reads and demands.
fn add_condition(
    at: &Setting<'_>,
    condition: &Expr<Option<Type>>,
    reads: &mut BTreeSet<AccessPath>,
    demands: &mut BTreeSet<(AccessPath, AccessPath)>,
) -> Result<(), AllocError>
    ensures reads { OnOk result (Adds reads.old.keys
        (read.reads at.now.schema.now (env_data_of at.now.env.now) condition.now)
        reads.new.keys []) }
    ensures demands { OnOk result (demands.new.keys ≡
        with_demands demands.old.keys (read.demands condition.now)) }
{
    let shape = analyze(at, condition, reads, demands)?;
    drop(shape);
    Ok(())
}

// The trie of the declared parts of paths, and of those demands whose paths are declared.
fn declared_trie(
    at: &Setting<'_>,
    reads: BTreeSet<AccessPath>,
    demands: BTreeSet<(AccessPath, AccessPath)>,
) -> Result<RootAccessTrie, AllocError>
    ensures { IfOk result
        (IsLeast (map (declared_part at.now.schema.now (env_data_of at.now.env.now)) reads.keys)
        (filter (are_declared at.now.schema.now (env_data_of at.now.env.now)) demands.keys)) }
{
    let reads = declared_parts(at, reads)?;
    let demands = declared_demands(at, demands)?;
    least_trie(at.alloc, &reads, &demands)
}

fn declared_parts(
    at: &Setting<'_>,
    paths: BTreeSet<AccessPath>,
) -> Result<Vec<AccessPath>, AllocError>
    ensures { IfOk result (λ r. r.items ≡
        map (declared_part at.now.schema.now (env_data_of at.now.env.now)) paths.keys) }
{
    let mut parts = Vec::new(at.alloc);
    for path in paths {
        parts.push(declared_part(at, path)?)?;
    }
    Ok(parts)
}

fn declared_demands(
    at: &Setting<'_>,
    demands: BTreeSet<(AccessPath, AccessPath)>,
) -> Result<Vec<(AccessPath, AccessPath)>, AllocError>
    ensures { IfOk result (λ r. r.items ≡
        filter (are_declared at.now.schema.now (env_data_of at.now.env.now)) demands.keys) }
{
    let mut declared = Vec::new(at.alloc);
    for demand in demands {
        add_if_declared(at, demand, &mut declared)?;
    }
    Ok(declared)
}

fn add_if_declared(
    at: &Setting<'_>,
    demand: (AccessPath, AccessPath),
    demands: &mut Vec<(AccessPath, AccessPath)>,
) -> Result<(), AllocError>
    ensures { OnOk result (demands.new.items ≡ demands.old.items ++
        filter (are_declared at.now.schema.now (env_data_of at.now.env.now)) (demand ∷ [])) }
{
    if are_declared(at, &demand)? {
        demands.push(demand)?;
    }
    Ok(())
}

fn are_declared(at: &Setting<'_>, demand: &(AccessPath, AccessPath)) -> Result<bool, AllocError>
    ensures { IfOk result (λ b. b ≡
        are_declared at.now.schema.now (env_data_of at.now.env.now) demand.now) }
{
    if is_declared_path(at, &demand.0)? {
        is_declared_path(at, &demand.1)
    } else {
        Ok(false)
    }
}
