//! Types of ids.

ghost use Rattle.std.specs.Prelude.{◌≡◌, IfOk};
ghost use Rattle.schema_core.specs.EnvData.{literal_type};

use crate::ValidatorSchema;
use policy_values::EntityUID;
use schema_types::{Attributes, Type};
use std::alloc::{AllocError, Global};
use std::collections::BTreeMap;

/// The type of an id that stands in a policy: that of the actions of its type, where it is a declared action;
/// else that of the entities of its type, where the type is declared; else none.
pub fn euid_literal(
    alloc: Global,
    uid: &EntityUID,
    schema: &ValidatorSchema,
) -> Result<Option<Type>, AllocError>
    ensures { IfOk result (λ t. t ≡ literal_type schema.now uid.now) }
{
    let name = uid.entity_type().try_clone()?;
    match (
        schema.get_action_id(uid),
        schema.get_entity_type(uid.entity_type()),
    ) {
        (Some(_), _) => {
            let attrs = Attributes::with_attributes(alloc, BTreeMap::new(alloc))?;
            Ok(Some(Type::action_entity(name, attrs)))
        }
        (None, Some(_)) => {
            let entities = Type::named_entity_reference(alloc, name)?;
            Ok(Some(entities))
        }
        (None, None) => Ok(None),
    }
}
