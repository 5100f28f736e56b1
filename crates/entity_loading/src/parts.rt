//! The parts of entities that are kept.

ghost use Rattle.std.specs.Prelude.{◌≡◌, IfOk};
ghost use Rattle.access_tries.specs.Table.{IsTable};
ghost use Rattle.reads_spec.specs.Restrict.{part};
ghost use Rattle.entity_loading.specs.Names.{IsKept};
ghost use Rattle.entity_loading.specs.Kept.{along_nodes, with_names, AreNodes};

use crate::kept_ancestors::{Named, ancestors_among};
use crate::numbers::Numbers;
use access_tries::Node;
use entity_loader::cut_entity;
use entity_store::{Entities, Entity};
use policy_values::EntityUID;
use std::alloc::{AllocError, Global};
use std::collections::{BTreeMap, BTreeSet};

/// The entities of the store that are reached, each with what its nodes lead along, and without ancestors.
pub(crate) fn parts_of(
    alloc: Global,
    nodes: &[Node],
    numbers: &Numbers,
    entities: &Entities,
) -> Result<BTreeMap<EntityUID, Entity>, AllocError>
    requires table { IsTable nodes.now }
    requires there { AreNodes nodes.now numbers.now }
    ensures { IfOk result (λ kept. IsKept kept (part (along_nodes nodes.now numbers.now) entities.now)) }
{
    let mut kept = BTreeMap::new(alloc);
    for entity in entities.iter() {
        if let Some(list) = numbers.get(entity.uid()) {
            let part = cut_entity(alloc, entity, nodes, list, BTreeSet::new(alloc))?;
            kept.insert(part.uid().try_clone()?, part)?;
        }
    }
    Ok(kept)
}

/// The same with those of their ancestors that their nodes name.
pub(crate) fn slice_of(
    alloc: Global,
    nodes: &[Node],
    numbers: &Numbers,
    named: &Named,
    entities: &Entities,
) -> Result<Entities, AllocError>
    requires table { IsTable nodes.now }
    requires there { AreNodes nodes.now numbers.now }
    ensures { IfOk result (λ s. s ≡ part (with_names nodes.now numbers.now named.now) entities.now) }
{
    let mut slice = Entities::new(alloc);
    for entity in entities.iter() {
        if let Some(list) = numbers.get(entity.uid()) {
            let ancestors = ancestors_among(alloc, entity, list, named)?;
            slice.push(cut_entity(alloc, entity, nodes, list, ancestors)?)?;
        }
    }
    Ok(slice)
}
