//! Entities that are merged.

ghost use Rattle.std.specs.Prelude.{◌≡◌, IfOk};
ghost use Rattle.reads_spec.specs.Merge.{united, merge_entities};

use crate::values::merge_fields;
use entity_store::Entity;
use policy_values::EntityUID;
use std::alloc::{AllocError, Global};
use std::collections::BTreeSet;

/// What two answers for one entity say together: all attributes and tags of both, merged where both have one,
/// and all ancestors of both. None where some attributes or tags do not merge.
pub fn merge_entities(alloc: Global, a: &Entity, b: &Entity) -> Result<Option<Entity>, AllocError>
    ensures { IfOk result (λ e. e ≡ merge_entities a.now b.now) }
{
    let Some(attrs) = merge_fields(alloc, a.attrs(), b.attrs())? else {
        return Ok(None);
    };
    let Some(tags) = merge_fields(alloc, a.tags(), b.tags())? else {
        return Ok(None);
    };
    let ancestors = united(a.ancestors(), b.ancestors())?;
    Ok(Some(Entity::new(a.uid().try_clone()?, attrs, ancestors, tags)))
}

// The ids of both.
fn united(
    ids: &BTreeSet<EntityUID>,
    others: &BTreeSet<EntityUID>,
) -> Result<BTreeSet<EntityUID>, AllocError>
    ensures { IfOk result (λ all. all.keys ≡ united ids.now.keys others.now.keys) }
{
    let mut all = ids.clone()?;
    for other in others.iter() {
        all.insert(other.try_clone()?)?;
    }
    Ok(all)
}
