//! The entities of actions.

ghost use Rattle.std.specs.Prelude.{◌≡◌, IfOk};
ghost use Rattle.schema_core.specs.Faults.{IsSchema};
ghost use Rattle.policy_validate.specs.Described.{ancestors_of, action_of};

use entity_store::Entity;
use policy_values::EntityUID;
use schema_core::ValidatorSchema;
use std::alloc::{AllocError, Global};
use std::collections::BTreeMap;

// The entity of an action: its id, and the actions that it is in. It has no attributes and no tags.
pub(crate) fn action_entity(
    alloc: Global,
    schema: &ValidatorSchema,
    uid: &EntityUID,
) -> Result<Entity, AllocError>
    requires { IsSchema schema.now }
    ensures { IfOk result (λ e. action_of e ≡
        record { uid = uid.now; ancestors = ancestors_of schema.now uid.now }) }
{
    let ancestors = schema.action_ancestors(alloc, uid)?;
    let uid = uid.try_clone()?;
    Ok(Entity::new(uid, BTreeMap::new(alloc), ancestors, BTreeMap::new(alloc)))
}
