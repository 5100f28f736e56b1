//! Typing of expressions: which type an expression has in an environment, and that typing is sound.
//! Capabilities, which are what is known of expressions once a condition is true; signatures of extension
//! functions.
#![tactic(auto)]

mod argument_check;
mod arguments;
mod capability;
pub mod capability_laws;
mod capability_set;
pub mod datetime;
pub mod decimal;
mod extension_schema;
mod extensions;
mod function_type;
mod gathered;
pub mod ipaddr;
mod known;
pub mod laws;
mod objects;
mod part;
mod parts;
mod path;

pub use argument_check::ArgumentCheck;
pub use capability::Capability;
pub use capability_set::CapabilitySet;
pub use extension_schema::ExtensionSchema;
pub use extensions::{ExtensionInitializationError, ExtensionSchemas, FuncMultiplyDefinedError};
pub use function_type::ExtensionFunctionType;
pub use objects::all_objects;
