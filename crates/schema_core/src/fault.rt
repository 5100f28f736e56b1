//! Why there is no schema.

use policy_values::{EntityType, EntityUID, Name};
use std::alloc::AllocError;
use thiserror::Error;

/// Why there is no schema: the first rule that is broken, and the least name or id that breaks it. The rules
/// have the order of the variants.
#[derive(Debug, Drop, Error)]
pub enum SchemaFault {
    /// The action is declared twice.
    #[error("duplicate action")]
    DuplicateAction(EntityUID),
    /// An entity type is declared whose name has the basename of the types of actions.
    #[error("declared type has basename Action")]
    ActionTypeDeclared(EntityType),
    /// The entity type is enumerated and lists no id.
    #[error("no listed id")]
    EmptyEnum(EntityType),
    /// The type of a declared action has not the basename of the types of actions.
    #[error("action type has another basename")]
    NotAnAction(EntityUID),
    /// The type is named and not declared.
    #[error("type is not declared")]
    UndeclaredType(EntityType),
    /// The action is named and not declared.
    #[error("action is not declared")]
    UndeclaredAction(EntityUID),
    /// The action is its own member or descendant.
    #[error("action is its own member")]
    ActionCycle(EntityUID),
    /// The entity type is enumerated and is a descendant of a type.
    #[error("enumerated type is a descendant")]
    EnumHasAncestor(EntityType),
    /// The type has a descendant whose descendants are not all its own.
    #[error("descendants of a type are not transitive")]
    NotClosed(EntityType),
    /// The action has a descendant whose descendants are not all its own.
    #[error("descendants of an action are not transitive")]
    ActionNotClosed(EntityUID),
    /// The attributes or tags of the entity type hold a type that no schema has: one of no value, of one
    /// boolean, of any entity, of an action, of the entities of several types, of sets of anything, or of
    /// records that may have other attributes.
    #[error("attributes or tags hold a type that no schema has")]
    BadType(EntityType),
    /// The context of the action holds such a type.
    #[error("context holds a type that no schema has")]
    BadContext(EntityUID),
    /// The extension type is named and is none of `decimal`, `ipaddr`, `datetime` and `duration`.
    #[error("extension type is unknown")]
    UnknownExtension(Name),
    /// Memory ran out.
    #[error("out of memory")]
    OutOfMemory,
}

impl SchemaFault {
    ghost use Rattle.std.specs.Prelude.{◌≡◌};
    ghost use Rattle.schema_core.specs.FaultText.{fault_text};

    /// What the fault is, without the name.
    pub fn text(&self) -> &'static str
        ensures { result.now ≡ fault_text self.now }
    {
        match self {
            SchemaFault::DuplicateAction(_) => "duplicate action",
            SchemaFault::ActionTypeDeclared(_) => "declared type has basename Action",
            SchemaFault::EmptyEnum(_) => "no listed id",
            SchemaFault::NotAnAction(_) => "action type has another basename",
            SchemaFault::UndeclaredType(_) => "type is not declared",
            SchemaFault::UndeclaredAction(_) => "action is not declared",
            SchemaFault::ActionCycle(_) => "action is its own member",
            SchemaFault::EnumHasAncestor(_) => "enumerated type is a descendant",
            SchemaFault::NotClosed(_) => "descendants of a type are not transitive",
            SchemaFault::ActionNotClosed(_) => "descendants of an action are not transitive",
            SchemaFault::BadType(_) => "attributes or tags hold a type that no schema has",
            SchemaFault::BadContext(_) => "context holds a type that no schema has",
            SchemaFault::UnknownExtension(_) => "extension type is unknown",
            SchemaFault::OutOfMemory => "out of memory",
        }
    }
}

impl From<AllocError> for SchemaFault {
    ghost use Rattle.std.specs.Prelude.{◌≡◌};
    ghost use Rattle.schema_core.specs.declared.fault.SchemaFault.TheVariants.{OutOfMemory};

    ghost from_gives = { λ _ e. e ≡ OutOfMemory };

    fn from(_error: AllocError) -> SchemaFault {
        SchemaFault::OutOfMemory
    }
}
