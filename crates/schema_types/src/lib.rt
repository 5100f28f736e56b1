//! The types of a schema: their plain trees, their order, their hashes, how they print.
#![tactic(auto)]

mod compared;
mod copies;
mod declared;
mod entity_lub;
mod hash;
mod kinds;
mod kinds_compared;
pub mod laws;
mod order;
mod schema_compared;
mod schema_copies;
mod schema_type;
mod show;
mod ty;
mod walks;

pub use declared::DeclaredAttributes;
pub use entity_lub::EntityLUB;
pub use kinds::{LubHelp, OpenTag, Primitive};
pub use schema_type::{
    SchemaAttribute, SchemaAttributes, SchemaType, SchemaTypeError, SchemaTypeKind, to_schema_type,
};
pub use ty::{AttributeType, Attributes, EntityRecordKind, Type, TypeKind};
