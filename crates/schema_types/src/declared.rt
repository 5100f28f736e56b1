//! What a schema says of the attributes of entities.

ghost use Rattle.std.specs.Prelude.{◌≡◌, List, ℕ, Option, option_copied};
ghost use Rattle.schema_types.specs.Ty.{Attrs};

use crate::Attributes;
use policy_values::EntityType;
use std::collections::BTreeMap;

/// What knows the attributes of entity types: a schema, or a map from entity types to their attributes.
pub trait DeclaredAttributes {
    ghost declared: { Self → List ℕ → Option Attrs };

    /// The attributes of an entity type; none exactly where the type is not declared.
    fn attributes_of(&self, entity_type: &EntityType) -> Option<&Attributes>
        ensures { option_copied result ≡ declared self.now entity_type.now };
}

impl DeclaredAttributes for BTreeMap<EntityType, Attributes> {
    ghost use Rattle.std.specs.BTreeMap.{is_at};
    ghost use Rattle.std.specs.Map.{lookup};
    ghost use Rattle.policy_values.specs.Uid.{text_cmp};

    ghost declared = { λ m n. lookup (is_at (text_cmp n)) m.entries };

    fn attributes_of(&self, entity_type: &EntityType) -> Option<&Attributes> {
        self.get(entity_type)
    }
}
