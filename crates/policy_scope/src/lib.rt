//! The rules on the names and the scope of a policy, and what is found where they are broken.
#![tactic(auto)]

mod met;
mod names;
mod plain_scope;
mod scope;

pub use finding_messages::{Diagnostic, ValidationResult, add_help, findings_text};
pub use findings::{
    AttributeAccess, EmptySetForbidden, EntityDerefLevel, EntityDerefLevelViolation,
    EntityDerefViolationKind, FunctionArgumentValidation, ImpossiblePolicy, IncompatibleTypes,
    InvalidActionApplication, InvalidEnumEntity, InvalidEnumEntityError, ListOf, LubContext,
    NoTagsAllowed, NonEmpty, NonLitExtConstructor, TooDeep, UndefinedFunction, UnexpectedType,
    UnexpectedTypeHelp, UnrecognizedActionId, UnrecognizedActionIdHelp, UnrecognizedEntityType,
    UnsafeAttributeAccess, UnsafeOptionalAttributeAccess, UnsafeTagAccess, ValidationError,
    ValidationWarning, WrongNumberArguments, partition_nonempty,
};
pub use names::{
    unrecognized_action_id_help, validate_action_ids, validate_entity_types,
    validate_entity_types_in_slots, validate_enum_entity,
};
pub use plain_scope::is_plain_scope;
pub use scope::{
    action_meets, type_meets, validate_linked_action_application,
    validate_template_action_application,
};
