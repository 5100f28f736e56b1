//! All that stands below paths, through the fields of records.

ghost use Rattle.std.specs.Prelude.{◌≡◌, ◌++◌, ◌∷◌, [], map, IfOk, OnOk};
ghost use Rattle.std.specs.List.{flat_map};
ghost use Rattle.schema_core.specs.RequestEnvs.{env_data_of};
ghost use Rattle.reads_spec.specs.Paths.{along, beyond, steps_of};
ghost use Rattle.reads_spec.specs.PathTypes.{chains, chains_in};
ghost use Rattle.reads_spec.specs.Reads.{all_below};
ghost use Rattle.path_analysis.specs.PathView.{type_in};

use crate::path_type::{PathType, path_type};
use crate::setting::Setting;
use crate::shape::longer;
use access_tries::{AccessPath, Step};
use policy_values::Text;
use schema_types::{Attributes, EntityRecordKind, Type, TypeKind};
use std::alloc::{AllocError, Global};

/// Adds all chains of fields below each of the paths.
pub(crate) fn add_all_below(
    at: &Setting<'_>,
    paths: &[AccessPath],
    found: &mut Vec<AccessPath>,
) -> Result<(), AllocError>
    ensures { OnOk result (found.new.items ≡ found.old.items ++
        flat_map (all_below at.now.schema.now (env_data_of at.now.env.now)) paths.now) }
{
    for path in paths {
        add_below(at, path, found)?;
    }
    Ok(())
}

fn add_below(
    at: &Setting<'_>,
    path: &AccessPath,
    found: &mut Vec<AccessPath>,
) -> Result<(), AllocError>
    ensures { OnOk result (found.new.items ≡ found.old.items ++
        all_below at.now.schema.now (env_data_of at.now.env.now) path.now) }
{
    match path_type(at, path)? {
        Some(t) => add_below_type(at.alloc, path, t, found),
        None => Ok(()),
    }
}

fn add_below_type(
    alloc: Global,
    path: &AccessPath,
    t: PathType<'_>,
    found: &mut Vec<AccessPath>,
) -> Result<(), AllocError>
    ensures { OnOk result (found.new.items ≡ found.old.items ++
        map (λ c. beyond path.now (steps_of c)) (chains (type_in t.entry))) }
{
    match t {
        PathType::Held(t) => add_chains(alloc, path, t, found),
        PathType::Context(attributes) => add_chains_in(alloc, path, attributes, found),
        PathType::Made(t) => add_chains(alloc, path, &t, found),
    }
}

// Adds the path that goes on along each chain of fields below the type.
#[cycle(chains)]
fn add_chains(
    alloc: Global,
    path: &AccessPath,
    t: &Type,
    found: &mut Vec<AccessPath>,
) -> Result<(), AllocError>
    ensures { OnOk result (found.new.items ≡ found.old.items ++
        map (λ c. beyond path.now (steps_of c)) (chains t.now)) }
{
    match t.kind() {
        TypeKind::EntityOrRecord(EntityRecordKind::Record { attrs, .. }) => {
            add_chains_in(alloc, path, attrs, found)
        }
        _ => Ok(()),
    }
}

#[cycle(chains)]
fn add_chains_in(
    alloc: Global,
    path: &AccessPath,
    attributes: &Attributes,
    found: &mut Vec<AccessPath>,
) -> Result<(), AllocError>
    ensures { OnOk result (found.new.items ≡ found.old.items ++
        map (λ c. beyond path.now (steps_of c)) (chains_in attributes.now)) }
{
    for (name, attribute) in attributes.entries().iter() {
        add_field(alloc, path, name, &attribute.attr_type, found)?;
    }
    Ok(())
}

// Adds the path that goes on along the field, and along each chain of fields below its type.
#[cycle(chains)]
fn add_field(
    alloc: Global,
    path: &AccessPath,
    name: &Text,
    t: &Type,
    found: &mut Vec<AccessPath>,
) -> Result<(), AllocError>
    ensures { OnOk result (found.new.items ≡ found.old.items ++
        beyond path.now (along name.now ∷ []) ∷ map
        (λ c. beyond (beyond path.now (along name.now ∷ [])) (steps_of c)) (chains t.now)) }
{
    let further = further(alloc, path, name)?;
    add_with_chains(alloc, &further, t, found)
}

#[cycle(chains)]
fn add_with_chains(
    alloc: Global,
    path: &AccessPath,
    t: &Type,
    found: &mut Vec<AccessPath>,
) -> Result<(), AllocError>
    ensures { OnOk result (found.new.items ≡ found.old.items ++
        path.now ∷ map (λ c. beyond path.now (steps_of c)) (chains t.now)) }
{
    found.push(path.try_clone(alloc)?)?;
    add_chains(alloc, path, t, found)
}

// The path that goes on along the field.
fn further(alloc: Global, path: &AccessPath, name: &Text) -> Result<AccessPath, AllocError>
    ensures { IfOk result (λ r. r ≡ beyond path.now (along name.now ∷ [])) }
{
    let path = path.try_clone(alloc)?;
    longer(path, Step::Field(name.try_clone()?))
}
