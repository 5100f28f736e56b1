//! What entity types are.

ghost use Rattle.std.specs.Prelude.{◌≡◌};
ghost use Rattle.schema_core.specs.Kinds.{is_enum, is_empty_enum};
ghost use Rattle.schema_core.specs.KindView.{kind_of};

use crate::ListedIds;
use schema_types::{Attributes, Type};

/// What an entity type is.
#[derive(Debug, Drop)]
pub enum ValidatorEntityTypeKind {
    /// Its entities have attributes, and may have tags.
    Standard {
        /// The attributes of its entities. They have no others.
        attributes: Attributes,
        /// The type of its entities' tags; they have no tags, where there is none.
        tags: Option<Type>,
    },
    /// Its entities are those with the listed ids, in the order in which they are declared.
    Enum(ListedIds),
}

impl ValidatorEntityTypeKind {
    /// Whether the type is enumerated.
    pub fn is_enum(&self) -> bool
        ensures { result ≡ is_enum (kind_of self.now) }
    {
        match self {
            ValidatorEntityTypeKind::Standard { .. } => false,
            ValidatorEntityTypeKind::Enum(_) => true,
        }
    }

    /// Whether the type is enumerated and lists no id.
    pub fn is_empty_enum(&self) -> bool
        ensures { result ≡ is_empty_enum (kind_of self.now) }
    {
        match self {
            ValidatorEntityTypeKind::Standard { .. } => false,
            ValidatorEntityTypeKind::Enum(choices) => choices.as_slice().is_empty(),
        }
    }
}
