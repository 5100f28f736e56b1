//! Schemas: which entity types and actions there are and how they are declared, what is in what, which
//! attributes there are, which requests an action applies to, and the rules that a schema keeps.
#![tactic(auto)]

mod action_id;
mod arrange;
mod checks;
mod declarations;
mod declared_env;
mod entity_type;
mod fault;
mod inside;
mod kind;
pub mod laws;
mod listed_ids;
mod listing;
mod literal;
mod parts;
mod request_env;
mod sets;
mod validation_mode;
mod validator_schema;

pub use action_id::ValidatorActionId;
pub use declarations::{ActionDeclaration, SchemaDeclarations, TypeDeclaration};
pub use declared_env::DeclaredEnv;
pub use entity_type::ValidatorEntityType;
pub use fault::SchemaFault;
pub use kind::ValidatorEntityTypeKind;
pub use listed_ids::ListedIds;
pub use listing::SchemaParts;
pub use literal::euid_literal;
pub use parts::{declared_parts, schema_parts};
pub use request_env::RequestEnv;
pub use schema_types::{
    AttributeType, Attributes, DeclaredAttributes, EntityLUB, EntityRecordKind, LubHelp, OpenTag,
    Primitive, SchemaAttribute, SchemaAttributes, SchemaType, SchemaTypeError, SchemaTypeKind,
    Type, TypeKind, to_schema_type,
};
pub use sets::add_all;
pub use validation_mode::ValidationMode;
pub use validator_schema::ValidatorSchema;
